//! Tests of `sched_task` and `sched_wheel` by their public calls alone. They stand apart so that they are proved
//! without a second proof of those libraries.
#![tactic(auto)]

#[cfg(test)]
mod tests;
