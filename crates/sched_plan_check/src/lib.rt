//! Checks a plan in JSON: finds its first fault and the place of the value that has it. The fault is the one that
//! reading the plan returns. It stands on `sched_plan_json`.
#![tactic(auto)]

mod below;
mod places;
mod plans;

pub use places::{Fault, Step};
pub use plans::{PlanChecked, check_plan};
