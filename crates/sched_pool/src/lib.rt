//! A pool of retries: a board of jobs under locks that any number of workers poll, while others watch it and cancel
//! jobs beside them. When the board is taken back, each job's law holds, and the retries granted are the tickets that
//! the budget gave. It stands on `sched_pool_claim`, `sched_pool_worker` and `sched_pool_job`.
//!
//! All jobs of a board draw on one budget, which the board's type names, so whoever holds a job's lock knows whose
//! tickets the job has. Taking back the board makes the passes of all jobs one again.
//!
//! The crate also exports all names that a program with a pool uses: of plans, drivers, effects, retries, budgets,
//! clocks, workers and what is left of jobs.
#![tactic(auto)]

mod boards;
mod ends;
mod faults;
pub mod laws;
mod runs;
mod works;

pub use boards::{Board, MAX_JOBS, MAX_WORKERS};
pub use ends::PoolEnd;
pub use faults::{AddFault, AddRefused, ShareFault};
pub use runs::PoolStop;
pub use sched_driver::Driver;
pub use sched_effect::{Action, Call, Code, Coded, Effect, Ran, Scripted, Tagged};
pub use sched_plan::{Plan, PlanFault};
pub use sched_pool_claim::{Claimed, Share};
pub use sched_pool_job::Seen;
pub use sched_pool_worker::{Finish, Gate, OpenGate, Station, Worked};
pub use sched_retry::{Ending, Retry, RetryEnd};
pub use sched_task::{Clock, How, MidWords, RunFault, SystemClock, SystemWords, VirtualClock};
pub use sched_ticket::{Budget, Naming, Pass, PassesOut, TicketFault};
pub use sched_ticket_draws::{Draws, OnBudget};
pub use sched_time::{Millis, Moment, NoMemory};
