//! The first fault of the text of jobs, with its place and what is wanted there.
ghost use Rattle.std.specs.Prelude.{IfOk};
ghost use Rattle.serde_json.specs.View.{view};
ghost use Rattle.sched_plan_hint.specs.Faults.{IsTold};
ghost use Rattle.sched_cli_check.specs.JobsFaults.{TellsFault, FindsFault};

use crate::hints::push_jobs_hint;
use sched_plan_check::Fault;
use sched_plan_hint::{ToldFault, tell_fault, tell_no_json};
use sched_pool_check::{JobsChecked, check_jobs};
use sched_time::NoMemory;
use serde_json::Value;
use std::alloc::Global;

/// The first fault of the jobs that these bytes should spell as JSON, which is that of reading them; `None` where they
/// spell some. Fails only with `NoMemory`.
#[tactic(auto, using(crate::proofs::Finds::found_in, crate::proofs::Finds::found_nothing))]
pub fn jobs_fault(alloc: Global, bytes: &[u8]) -> Result<Option<ToldFault>, NoMemory>
    ensures { IfOk result (FindsFault bytes.now) }
{
    match Value::from_slice(alloc, bytes) {
        Ok(value) => value_fault(alloc, &value),
        Err(error) if error.is_memory() => Err(NoMemory),
        Err(error) => Ok(Some(tell_no_json(alloc, &error)?)),
    }
}

// The first fault of a value that should be jobs.
#[tactic(auto, using(crate::proofs::Finds::tells_fault))]
fn value_fault(alloc: Global, value: &Value) -> Result<Option<ToldFault>, NoMemory>
    ensures { IfOk result (TellsFault (view value.now)) }
{
    let checked = check_jobs(alloc, value)?;
    match &checked {
        JobsChecked::Jobs(_) => Ok(None),
        JobsChecked::Fault(found) => {
            let told = tell_jobs_fault(alloc, found)?;
            Ok(Some(told))
        }
    }
}

/// The fault of jobs as it is told. Fails only with `NoMemory`.
pub(crate) fn tell_jobs_fault(alloc: Global, found: &Fault<'_>) -> Result<ToldFault, NoMemory>
    ensures { IfOk result (IsTold found.now) }
{
    let mut hint = String::new(alloc);
    push_jobs_hint(alloc, &mut hint, found)?;
    tell_fault(alloc, found, hint)
}
