//! The first fault of a plan's text, with its place and what is wanted there.
ghost use Rattle.std.specs.Prelude.{◌≡◌, IfOk, string_bytes};
ghost use Rattle.serde_json.specs.View.{view};
ghost use Rattle.sched_plan_hint.specs.Faults.{IsTold, IsNoJson, TellsFault, FindsFault, told_text};

use crate::hints::push_plan_hint;
use crate::json_faults::{JsonFault, json_fault};
use crate::places::push_place;
use sched_plan_check::{Fault, PlanChecked, check_plan};
use sched_plan_json::ReadFault;
use sched_time::NoMemory;
use serde_json::{Error, Value};
use std::alloc::Global;
use std::fmt::Write;

/// The first fault of a plan's text.
#[derive(Drop)]
pub enum ToldFault {
    /// It is no JSON: it stops being so at this line and column, counted from 1 (0 where that is not known), for this
    /// reason.
    NotJson {
        line: usize,
        column: usize,
        why: JsonFault,
    },
    /// The value at this place, `meet[1].cap[1]` or `top`, is no plan, and this is wanted there.
    Refused {
        fault: ReadFault,
        place: String,
        hint: String,
    },
}

impl ToldFault {
    /// `PLACE: HINT`, or `not JSON: line LINE, column COLUMN: REASON`. Fails only with `NoMemory`.
    pub fn text(&self, alloc: Global) -> Result<String, NoMemory>
        ensures { IfOk result (λ text. string_bytes text ≡ told_text self.now) }
    {
        let mut text = String::new(alloc);
        match self {
            ToldFault::NotJson { line, column, why } => {
                write!(
                    text,
                    "not JSON: line {line}, column {column}: {}",
                    why.words()
                )?
            }
            ToldFault::Refused { place, hint, .. } => {
                write!(text, "{}: {}", place.as_str(), hint.as_str())?
            }
        }
        Ok(text)
    }
}

/// The first fault of the plan that these bytes should spell as JSON, which is that of reading them; `None` where they
/// spell one. Fails only with `NoMemory`.
#[tactic(auto, using(crate::proofs::Finds::found_in, crate::proofs::Finds::found_nothing))]
pub fn plan_fault(alloc: Global, bytes: &[u8]) -> Result<Option<ToldFault>, NoMemory>
    ensures { IfOk result (FindsFault bytes.now) }
{
    match Value::from_slice(alloc, bytes) {
        Ok(value) => value_fault(alloc, &value),
        Err(error) if error.is_memory() => Err(NoMemory),
        Err(error) => Ok(Some(tell_no_json(alloc, &error)?)),
    }
}

/// The fault of a text that is no JSON, as it is told. Fails only with `NoMemory`.
pub fn tell_no_json(alloc: Global, error: &Error) -> Result<ToldFault, NoMemory>
    ensures { IfOk result IsNoJson }
{
    let why = json_fault(alloc, error)?;
    Ok(ToldFault::NotJson {
        line: error.line(),
        column: error.column().max(1),
        why,
    })
}

// The first fault of a value that should be a plan.
#[tactic(auto, using(crate::proofs::Finds::tells_fault))]
fn value_fault(alloc: Global, value: &Value) -> Result<Option<ToldFault>, NoMemory>
    ensures { IfOk result (TellsFault (view value.now)) }
{
    let checked = check_plan(alloc, value)?;
    match &checked {
        PlanChecked::Plan(_) => Ok(None),
        PlanChecked::Fault(found) => {
            let told = tell_plan_fault(alloc, found)?;
            Ok(Some(told))
        }
    }
}

/// The fault of a plan as it is told. Fails only with `NoMemory`.
pub fn tell_plan_fault(alloc: Global, found: &Fault<'_>) -> Result<ToldFault, NoMemory>
    ensures { IfOk result (IsTold found.now) }
{
    let mut hint = String::new(alloc);
    push_plan_hint(alloc, &mut hint, found.fault, found.value)?;
    tell_fault(alloc, found, hint)
}

/// The fault as it is told, with this hint. Fails only with `NoMemory`.
pub fn tell_fault(alloc: Global, found: &Fault<'_>, hint: String) -> Result<ToldFault, NoMemory>
    ensures { IfOk result (IsTold found.now) }
{
    let mut place = String::new(alloc);
    push_place(&mut place, &found.place)?;
    Ok(ToldFault::Refused {
        fault: found.fault,
        place,
        hint,
    })
}
