//! Nodes by their names: builds the node of a name from the numbers and plans that it takes. It returns what the
//! builder of that node in `sched_plan` returns, or that the name, the numbers or the plans don't fit. It stands on
//! `sched_plan`.
#![tactic(auto)]

mod faults;
mod leaves;
mod nodes;
mod numbers;
mod over;

pub use faults::NodeFault;
pub use nodes::node;
pub use numbers::Numbers;
