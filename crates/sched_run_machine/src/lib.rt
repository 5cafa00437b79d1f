//! The machine of a retry and of a repeat: it is told that a run began and how it ended, asks its driver, draws where
//! it needs a ticket, and says what is next. Each call on it is one poll of every task that it may stand for. It stands
//! on the law of tasks (`sched_task_law`), on drivers, and on what draws tickets (`sched_ticket_draws`).
//!
//! It keeps no list of runs. Where its driver keeps no journal either, it takes as much memory after any number of runs
//! as before the first; what is true of it is then true of each list of runs and each journal that it may stand for.
#![tactic(auto)]

mod aims;
mod attempts;
mod drives;
pub mod laws;
mod machine;
mod next;
mod runner;
mod until;

pub use aims::{Aims, Repeats, Retries};
pub use drives::{Drives, GivesOutput};
pub use machine::{Machine, RepeatMachine};
pub use next::{Next, is_later};
pub use runner::{Polled, Runner, ready_where};
pub use until::Until;
