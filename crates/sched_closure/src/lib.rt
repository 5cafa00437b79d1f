//! Closures that are called again and again: until they succeed, or after each success. Each run calls the closure
//! once, each turn is one poll of a retry or a repeat that goes by the caller's plan and deadline, and the ending hands
//! out what the last call gave. They stand on the machines of `sched_run_machine` and the clocks of `sched_task`.
#![tactic(auto)]

mod endings;
mod limits;
mod machines;
mod repeats;
mod retries;
mod turns;

pub use endings::{CallEnding, RepeatCallEnding};
pub use limits::limited_call;
pub use repeats::repeat_call;
pub use retries::retry_call;
