//! The items of an array that are read one after another.
ghost use Rattle.std.specs.Prelude.{◌≡◌, Err, IfOk};
ghost use Rattle.serde_json.specs.View.{view, items_view};
ghost use Rattle.sched_pool_json.specs.JobsOf.{job_in, run_in};
ghost use Rattle.sched_pool_check.specs.Items.{IsFirstItem, JobRefuses};

use sched_plan::PlanFault;
use sched_plan_json::ReadFault;
use sched_pool_json::{read_job, read_run};
use sched_time::NoMemory;
use serde_json::Value;
use std::alloc::Global;

/// An item of an array, and the fault for which it is refused.
#[derive(Clone, Copy)]
pub(crate) struct Item<'a> {
    pub(crate) index: usize,
    pub(crate) value: &'a Value,
    pub(crate) fault: ReadFault,
}

/// The first of these runs that is refused, if there is one.
pub(crate) fn first_run(runs: &[Value]) -> Option<Item<'_>>
    ensures { IsFirstItem run_in (items_view runs.now) result }
{
    for (index, value) in runs.iter().enumerate() {
        if let Err(fault) = read_run(value) {
            return Some(Item {
                index,
                value,
                fault,
            });
        }
    }
    None
}

/// The first of these jobs that is refused, if there is one.
pub(crate) fn first_job(alloc: Global, jobs: &[Value]) -> Result<Option<Item<'_>>, NoMemory>
    ensures { IfOk result (IsFirstItem job_in (items_view jobs.now)) }
{
    for (index, value) in jobs.iter().enumerate() {
        if let Some(fault) = job_refusal(alloc, value)? {
            return Ok(Some(Item {
                index,
                value,
                fault,
            }));
        }
    }
    Ok(None)
}

// Why the value is no job, if it is none.
fn job_refusal(alloc: Global, value: &Value) -> Result<Option<ReadFault>, NoMemory>
    ensures { IfOk result (JobRefuses (view value.now)) }
{
    match read_job(alloc, value) {
        Ok(_) => Ok(None),
        Err(ReadFault::NotAPlan) => Ok(Some(ReadFault::NotAPlan)),
        Err(ReadFault::Plan(PlanFault::NoMemory)) => Err(NoMemory),
        Err(ReadFault::Plan(fault)) => Ok(Some(ReadFault::Plan(fault))),
    }
}
