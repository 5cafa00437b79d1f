//! The bound of a plan: how often it goes on at most, where its nodes imply such a number. No history on which the plan
//! is stepped makes it go on more often. It stands on `sched_plan`.
#![tactic(auto)]

mod bounds;

pub use bounds::most_goes;
