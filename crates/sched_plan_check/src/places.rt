//! Places in a JSON value.
use sched_plan_json::ReadFault;
use serde_json::Value;

/// A step into a JSON value.
#[derive(Clone, Copy, Debug, PartialEq, Eq)]
pub enum Step<'a> {
    /// To the member of an object that has this name.
    Key(&'a str),
    /// To the item of an array that has this number, counted from 0.
    Index(usize),
}

/// The first fault of a JSON value.
#[derive(Drop)]
pub struct Fault<'a> {
    /// What it is.
    pub fault: ReadFault,
    /// The steps to the value that has it.
    pub place: Vec<Step<'a>>,
    /// That value.
    pub value: &'a Value,
}
