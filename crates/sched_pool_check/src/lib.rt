//! Checks jobs in JSON: finds their first fault and the place of the value that has it. The fault is the one that
//! reading the jobs returns. It stands on `sched_pool_json` and `sched_plan_check`.
#![tactic(auto)]

mod items;
mod jobs;

pub use jobs::{JobsChecked, check_jobs};
