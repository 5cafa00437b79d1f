//! Schedules as plain data: values, plans with their builders, and what a plan answers on a history of events. Every
//! plan is valid, has at most 256 nodes and a depth of at most 32, and a builder returns the first rule that its
//! arguments break. It stands on `sched_time`; the laws of schedules are proved here.
#![tactic(auto)]

mod history;
pub mod laws;
mod leaves;
mod nodes;
mod plans;
mod shared;
mod values;

pub use history::{Answer, Event};
pub use leaves::Leaf;
pub use nodes::{Fold, One, Side, Test, Two};
pub use plans::{MAX_DEPTH, MAX_NODES, Plan, PlanFault, PlanShape};
pub use shared::SharedPlan;
pub use values::{Val, ValShape, copy_items};
