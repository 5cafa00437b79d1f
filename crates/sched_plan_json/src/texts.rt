//! Plans from the bytes of a JSON text.
ghost use Rattle.sched_plan_json.specs.Texts.{ReadsText};

use crate::faults::ReadFault;
use crate::plans::read_plan;
use sched_plan::{Plan, PlanFault};
use serde_json::Value;
use std::alloc::Global;
use thiserror::Error;

/// Why bytes are not read as a plan.
#[derive(Clone, Copy, Debug, PartialEq, Eq, Error)]
pub enum TextFault {
    /// The bytes are no JSON text: they stop being one at this line and column, counted from 1; 0 where that is not
    /// known.
    #[error("the text is not JSON, at line {line}, column {column}")]
    NotJson { line: usize, column: usize },
    /// The value, or a part of it that should be a plan, has not the form of a node.
    #[error("the value is not a plan")]
    NotAPlan,
    /// A parameter is outside its range.
    #[error("a parameter is out of range")]
    OutOfRange,
    /// The plan is deeper than 32.
    #[error("the plan is too deep")]
    TooDeep,
    /// The plan has more than 256 nodes.
    #[error("the plan has too many nodes")]
    TooMany,
    /// A growth was refused.
    #[error("no memory")]
    NoMemory,
}

/// The plan that the bytes spell as JSON, or why they spell none; of a JSON text that is the value's first fault.
pub fn read_text(alloc: Global, bytes: &[u8]) -> Result<Plan, TextFault>
    ensures { ReadsText bytes.now result }
{
    let value = match Value::from_slice(alloc, bytes) {
        Ok(value) => value,
        Err(error) if error.is_memory() => return Err(TextFault::NoMemory),
        Err(error) => {
            return Err(TextFault::NotJson {
                line: error.line(),
                column: error.column().max(1),
            });
        }
    };
    match read_plan(alloc, &value) {
        Ok(plan) => Ok(plan),
        Err(ReadFault::NotAPlan) => Err(TextFault::NotAPlan),
        Err(ReadFault::Plan(PlanFault::OutOfRange)) => Err(TextFault::OutOfRange),
        Err(ReadFault::Plan(PlanFault::TooDeep)) => Err(TextFault::TooDeep),
        Err(ReadFault::Plan(PlanFault::TooMany)) => Err(TextFault::TooMany),
        Err(ReadFault::Plan(PlanFault::NoMemory)) => Err(TextFault::NoMemory),
    }
}
