//! Tests of plans, steps, records and drivers by public calls alone, without a second proof of these libraries.
#![tactic(auto)]

#[cfg(test)]
mod tests;
