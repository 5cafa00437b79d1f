//! Jobs: each a plan with a script of runs.
ghost use Rattle.std.specs.Prelude.{◌≡◌, ◌<◌, ◌≤◌, length, vec_len, IfOk, IfErr, OnOk, IsTrue, Some, None};
ghost use Rattle.serde_json.specs.View.{view, items_view};
ghost use Rattle.sched_plan_json.specs.Reading.{Reads};
ghost use Rattle.sched_plan_json.specs.declared.faults.ReadFault.TheVariants.{NotAPlan};
ghost use Rattle.sched_pool_json.specs.Each.{each, asking, Lists};
ghost use Rattle.sched_pool_json.specs.JobsOf.{plan_and_runs_in, job_of, job_in, jobs_in, reading_of_jobs};

use crate::runs::{MAX_RUNS, read_runs};
use sched_effect::Ran;
use sched_plan::{Plan, PlanFault};
use sched_plan_json::{ReadFault, read_plan};
use serde_json::Value;
use std::alloc::Global;
use std::marker::Model;

/// The most jobs of one text.
pub const MAX_JOBS: usize = 4096;

/// A number is outside its range.
pub(crate) const OUT_OF_RANGE: ReadFault = ReadFault::Plan(PlanFault::OutOfRange);

/// A growth was refused.
pub(crate) const NO_MEMORY: ReadFault = ReadFault::Plan(PlanFault::NoMemory);

/// A job as it was read: its plan, and how its runs go, the last outcome repeated.
#[derive(Drop)]
pub struct JobRead {
    plan: Plan,
    script: Vec<Ran>,
}

impl Model for JobRead {
    ghost use Rattle.std.specs.Prelude.{◌<◌, vec_len};
    ghost use Rattle.std.specs.Coded.{codes};
    ghost use Rattle.sched_plan.specs.ScheduleCode.{coded_schedule};
    ghost use Rattle.sched_pool_json.specs.Job.{Job};

    ghost Value = { Job };

    ghost coded = { Prim.hlevel (codes, coded_schedule) };

    ghost view = { λ job. record { plan = job.plan; script = job.script.items } };

    ghost invariant = { λ job. 0 < vec_len job.script };
}

impl JobRead {
    /// The plan.
    pub fn plan(&self) -> &Plan
        ensures { result.now ≡ self.now.plan }
    {
        &self.plan
    }

    /// How its runs go. There is one at least.
    pub fn script(&self) -> &[Ran]
        ensures script { result.now ≡ self.now.script }
        ensures some { 0 < length self.now.script }
    {
        &self.script
    }
}

/// The jobs that a JSON value spells, in order, or the first fault found: an array of at most 4,096 jobs, each an
/// object of exactly the members `plan`, a plan, and `runs`, an array of 1 to 64 runs `{"won":CODE}` or
/// `{"lost":CODE}`.
///
/// A value of another form is refused as `NotAPlan`, a number of jobs or runs and a code outside its range as
/// `OutOfRange`. Of each job its members are looked at first, then the number of its runs, then its runs from left to
/// right, and last its plan. Memory is asked for only once the number of a job's runs is right.
pub fn read_jobs(alloc: Global, value: &Value) -> Result<Vec<JobRead>, ReadFault>
    ensures jobs { Lists result (reading_of_jobs (view value.now)) }
    ensures few { IfOk result (λ jobs. vec_len jobs ≤ 4096) }
{
    match value {
        Value::Array(items) => read_all(alloc, items),
        _ => Err(ReadFault::NotAPlan),
    }
}

// The jobs of an array, where their number is in range.
#[tactic(auto, using(crate::proofs::Steps::count_of_values))]
fn read_all(alloc: Global, items: &[Value]) -> Result<Vec<JobRead>, ReadFault>
    ensures jobs { Lists result (jobs_in (items_view items.now)) }
    ensures few { IfOk result (λ jobs. vec_len jobs ≤ 4096) }
{
    if items.len() > MAX_JOBS {
        return Err(OUT_OF_RANGE);
    }
    read_each(alloc, items)
}

// The jobs in order.
fn read_each(alloc: Global, items: &[Value]) -> Result<Vec<JobRead>, ReadFault>
    ensures jobs { Lists result (each job_in (items_view items.now)) }
    ensures len { IfOk result (λ jobs. vec_len jobs ≡ length items.now) }
{
    let mut jobs = Vec::new(alloc);
    for item in items {
        let job = read_job(alloc, item)?;
        if jobs.push(job).is_err() {
            return Err(NO_MEMORY);
        }
    }
    Ok(jobs)
}

/// The job that a JSON value spells, or the first fault found in it, in the order of [`read_jobs`].
#[tactic(auto, using(crate::proofs::Steps::count_of_values))]
pub fn read_job(alloc: Global, value: &Value) -> Result<JobRead, ReadFault>
    ensures job { Reads result (job_in (view value.now)) }
    ensures asked { OnOk result (IsTrue (job_in (view value.now)).asked) }
{
    let (plan, runs) = plan_and_runs(value)?;
    if runs.is_empty() || runs.len() > MAX_RUNS {
        return Err(OUT_OF_RANGE);
    }
    read_parts(alloc, plan, runs)
}

// The runs of a job, and then its plan.
fn read_parts(alloc: Global, plan: &Value, runs: &[Value]) -> Result<JobRead, ReadFault>
    requires some { 0 < length runs.now }
    ensures { Reads result (asking (job_of (view plan.now) (items_view runs.now))) }
{
    let script = read_runs(alloc, runs)?;
    let plan = read_plan(alloc, plan)?;
    Ok(JobRead { plan, script })
}

/// The plan and the items of the runs of a job, where the value has both members and no other. Neither is read.
///
/// Refused as `NotAPlan` where it has not.
pub fn plan_and_runs(value: &Value) -> Result<(&Value, &[Value]), ReadFault>
    ensures ok { IfOk result
        (λ form. plan_and_runs_in (view value.now) ≡ Some (view form.0.now, items_view form.1.now)) }
    ensures err { IfErr result (λ fault. (fault ≡ NotAPlan) × (plan_and_runs_in (view value.now) ≡ None)) }
{
    let Value::Object(members) = value else {
        return Err(ReadFault::NotAPlan);
    };
    let mut members = members.iter();
    match (members.next(), members.next(), members.next()) {
        (Some((first, plan)), Some((second, Value::Array(runs))), None) => {
            if first.as_str() == "plan" && second.as_str() == "runs" {
                Ok((plan, runs.as_slice()))
            } else {
                Err(ReadFault::NotAPlan)
            }
        }
        _ => Err(ReadFault::NotAPlan),
    }
}
