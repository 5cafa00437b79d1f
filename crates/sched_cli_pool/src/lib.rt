//! What the program prints of a pool: it reads jobs as JSON from a stream, runs them on a budget or on a quota, and
//! prints a line for each job and one for the total. The lines are of the jobs that were read, in order. It stands on
//! `sched_pool_scripted` and `sched_cli_plan`.
#![tactic(auto)]

mod ended;
mod faults;
pub mod lines;
mod pools;
mod quota_pools;

pub use faults::PoolFault;
pub use pools::print_pool;
pub use quota_pools::print_quota_pool;
