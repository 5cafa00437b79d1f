//! A pace: a client that keeps to a rate is told when each call may begin. This is the generic cell rate algorithm of
//! ITU-T I.371. There is no queue and no thread: a call asks, and waits until the moment that it is told. `laws` says
//! what then holds for any number of threads, whatever their clocks say. It stands on `sched_limit_word`, which has the
//! word that the threads step.
#![tactic(auto)]

mod fault;
pub mod laws;
mod machine;
mod on_pace;
mod pace;
mod step;
mod taken;

pub use fault::{SplitFault, TakeFault};
pub use machine::LAST_MOMENT;
pub use on_pace::OnPace;
pub use pace::{MAX_BURST, MAX_EACH, MAX_LONGEST, Pace};
pub use step::{Last, give_back, take};
pub use taken::Taken;
