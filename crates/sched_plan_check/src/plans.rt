//! The first fault of a plan.
ghost use Rattle.std.specs.Prelude.{◌≡◌, ◌++◌, IfOk, Err};
ghost use Rattle.serde_json.specs.View.{view};
ghost use Rattle.sched_plan_json.specs.PlanOf.{plan_of};
ghost use Rattle.sched_plan_check.specs.Places.{place_of};
ghost use Rattle.sched_plan_check.specs.PlanFaults.{LeadsOn};
ghost use Rattle.sched_plan_check.specs.Checked.{PlanIsChecked};

use crate::below::{first_below, refusal, step_below};
use crate::places::{Fault, Step};
use sched_plan::{Plan, PlanFault};
use sched_plan_json::{ReadFault, read_plan};
use sched_time::NoMemory;
use serde_json::Value;
use std::alloc::Global;

/// What a JSON value is as a plan.
#[derive(Drop)]
pub enum PlanChecked<'a> {
    /// It spells this plan.
    Plan(Plan),
    /// It spells none, and this is its first fault.
    Fault(Fault<'a>),
}

/// The plan that a JSON value spells, or the first fault found, which is that of `read_plan`, and the place of the
/// value that has it: of the plans in the value the first that is refused though the plans below it are read.
pub fn check_plan(alloc: Global, value: &Value) -> Result<PlanChecked<'_>, NoMemory>
    ensures { IfOk result (PlanIsChecked (view value.now)) }
{
    match read_plan(alloc, value) {
        Ok(plan) => Ok(PlanChecked::Plan(plan)),
        Err(ReadFault::Plan(PlanFault::NoMemory)) => Err(NoMemory),
        Err(fault) => {
            let found = go_on(alloc, value, fault, Vec::new(alloc))?;
            Ok(PlanChecked::Fault(found))
        }
    }
}

/// Goes on from a plan that is refused to the one that has the fault itself. `place` are the steps so far.
pub(crate) fn go_on<'a>(
    alloc: Global,
    value: &'a Value,
    fault: ReadFault,
    mut place: Vec<Step<'a>>,
) -> Result<Fault<'a>, NoMemory>
    requires { plan_of (view value.now) ≡ Err fault }
    ensures { IfOk result (λ found. LeadsOn found.fault (view value.now)
        (place_of place.entry.items) (place_of found.place.items) (view found.value.now)) }
{
    let Some(below) = first_below(alloc, value)? else {
        return Ok(Fault {
            fault,
            place,
            value,
        });
    };
    step_below(&mut place, value, below.item)?;
    go_on(alloc, below.value, below.fault, place)
}
