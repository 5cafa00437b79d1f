//! Jobs from JSON: reads the plans, with their scripts of runs, that a JSON value spells. It returns these jobs, or the
//! first fault of the value. It stands on `sched_plan_json` and `sched_effect`.
#![tactic(auto)]

mod jobs;
mod runs;

pub use jobs::{JobRead, MAX_JOBS, plan_and_runs, read_job, read_jobs};
pub use runs::{MAX_RUNS, read_run};
