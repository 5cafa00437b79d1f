//! Runs scripted jobs as they were read: each is retried by its plan, all on one budget on a board, or all on one quota
//! by a loop. The jobs that ended are compared with those that were read, and what differs is refused. It stands on
//! `sched_pool` and `sched_pool_json`.
#![tactic(auto)]

mod batches;
mod boards;
mod ends;
mod quota_batches;
mod refusals;
mod requests;
mod retries;
mod tallies;

pub use batches::{Batch, BatchFault, run_batch};
pub use quota_batches::{QuotaBatch, QuotaBatchFault, run_on_quota};
pub use tallies::Tally;
