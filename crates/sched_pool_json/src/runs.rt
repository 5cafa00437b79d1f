//! The runs of a job.
ghost use Rattle.std.specs.Prelude.{◌≡◌, length, vec_len, IfOk};
ghost use Rattle.serde_json.specs.View.{view, items_view};
ghost use Rattle.sched_plan_json.specs.Reading.{Reads};
ghost use Rattle.sched_pool_json.specs.Each.{each, Lists, asking};
ghost use Rattle.sched_pool_json.specs.JobsOf.{code_in, run_in};

use crate::jobs::{NO_MEMORY, OUT_OF_RANGE};
use sched_effect::Ran;
use sched_plan_json::ReadFault;
use sched_time::Millis;
use serde_json::Value;
use std::alloc::Global;

/// The most runs that a job's script may have.
pub const MAX_RUNS: usize = 64;

/// The runs of a script, in order.
pub(crate) fn read_runs(alloc: Global, items: &[Value]) -> Result<Vec<Ran>, ReadFault>
    ensures runs { Lists result (asking (each run_in (items_view items.now))) }
    ensures len { IfOk result (λ runs. vec_len runs ≡ length items.now) }
{
    let mut runs = Vec::new(alloc);
    for item in items {
        let run = read_run(item)?;
        if runs.push(run).is_err() {
            return Err(NO_MEMORY);
        }
    }
    Ok(runs)
}

/// The run that a JSON value spells, `{"won":CODE}` or `{"lost":CODE}`: refused as `NotAPlan` where it has another
/// form, and as `OutOfRange` where the code is more than `FAR`.
pub fn read_run(value: &Value) -> Result<Ran, ReadFault>
    ensures { result ≡ (run_in (view value.now)).answer }
{
    let Value::Object(members) = value else {
        return Err(ReadFault::NotAPlan);
    };
    let mut members = members.iter();
    match (members.next(), members.next()) {
        (Some((name, value)), None) => match name.as_str() {
            "won" => Ok(Ran::Won(code(value)?)),
            "lost" => Ok(Ran::Lost(code(value)?)),
            _ => Err(ReadFault::NotAPlan),
        },
        _ => Err(ReadFault::NotAPlan),
    }
}

// The code of a run.
fn code(value: &Value) -> Result<Millis, ReadFault>
    ensures { result ≡ code_in (view value.now) }
{
    let number = value.as_u64().ok_or(ReadFault::NotAPlan)?;
    Millis::new(number).ok_or(OUT_OF_RANGE)
}
