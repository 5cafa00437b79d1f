//! Steps a schedule: keeps its state after the events so far, and answers the next event. Each answer is the one that
//! `sched_plan` defines for the whole history. It stands on `sched_plan`.
#![tactic(auto)]

mod advance;
pub mod changes;
pub mod decisions;
mod kept;
mod leaves;
mod lists;
mod marks;
mod outputs;
mod states;
mod steps;
pub mod times;
mod trees;
mod turns;
mod walks;

pub use sched_plan::{Answer, Event};
pub use states::{State, initial};
pub use steps::step;
