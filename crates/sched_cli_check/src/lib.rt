//! What the program says of a text: that it is a plan or jobs, or where it is wrong, as a line. The fault is the first
//! one, as `sched_plan_hint` and `sched_pool_check` find it. It stands on those two crates, on `sched_plan_bound` and
//! on `sched_step_flat`.
#![tactic(auto)]

mod hints;
mod jobs_faults;
mod printing;
mod readers;
mod reports;

pub use jobs_faults::jobs_fault;
pub use printing::print_check;
