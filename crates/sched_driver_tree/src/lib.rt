//! A driver that keeps no journal and gives outputs: steps a plan event by event, in the tree of its state. Each answer
//! is the plan's answer to the history of all events so far, and an event that comes before the last one is refused and
//! changes nothing. It stands on `sched_step`.
#![tactic(auto)]

mod trees;

pub use trees::{StepFault, TreeStepper};
