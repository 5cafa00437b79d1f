//! Messages for the fault of a plan's text: where it is, and what is expected there. The place is that of the first
//! fault, and a text that is no JSON gets its line and column. It stands on `sched_plan_check`.
#![tactic(auto)]

mod faults;
mod found;
mod hints;
mod json_faults;
mod nodes;
mod places;

pub use faults::{ToldFault, plan_fault, tell_fault, tell_no_json, tell_plan_fault};
pub use found::push_found;
pub use hints::push_plan_hint;
pub use json_faults::JsonFault;
pub use places::push_place;
