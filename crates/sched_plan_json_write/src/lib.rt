//! Plans as JSON: writes a plan as a JSON value or as a text without spaces. `sched_plan_json` reads the same plan from
//! what is written. It stands on `sched_plan_json`.
#![tactic(auto)]

mod forms;
mod leaves;
mod nodes;
mod plans;
mod words;

pub use forms::{name_alone, of_value};
pub use plans::{to_json, write_plan};
