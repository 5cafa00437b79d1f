//! What a loop needs of a task: polls at moments, a moment waited for, and how it ended. It also has the clocks and the
//! random words that a poll is given, and one task as a future; each poll of that future is one poll of the task, at
//! the clock's moment. It stands on `sched_time` and the kit's `futures` and `rand_core`.
#![tactic(auto)]

mod clocks;
mod endings;
mod system;
mod tasks;
mod timed;
mod words;

pub use clocks::{Clock, VirtualClock};
pub use endings::{How, RunFault};
pub use system::{SystemClock, TimeSource};
pub use tasks::Task;
pub use timed::Timed;
pub use words::{MidWords, SystemWords, four_words};
