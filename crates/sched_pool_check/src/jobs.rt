//! The first fault of jobs.
ghost use Rattle.std.specs.Prelude.{◌≡◌, false, nat_lt, Err, IfOk, is_ok};
ghost use Rattle.serde_json.specs.View.{view, items_view};
ghost use Rattle.sched_pool_json.specs.JobsOf.{count, job_in, job_of, jobs_of};
ghost use Rattle.sched_plan_check.specs.Places.{place_of};
ghost use Rattle.sched_pool_check.specs.JobFaults.{JobsFault, JobLeadsOn, PartLeadsOn, is_wrong_number};
ghost use Rattle.sched_pool_check.specs.Checked.{JobsAreChecked};

use crate::items::{first_job, first_run};
use sched_plan::PlanFault;
use sched_plan_check::{Fault, PlanChecked, Step, check_plan};
use sched_plan_json::ReadFault;
use sched_pool_json::{JobRead, MAX_JOBS, MAX_RUNS, plan_and_runs, read_jobs};
use sched_time::NoMemory;
use serde_json::Value;
use std::alloc::Global;

/// What a JSON value is as jobs.
#[derive(Drop)]
pub enum JobsChecked<'a> {
    /// It spells these jobs.
    Jobs(Vec<JobRead>),
    /// It spells none, and this is its first fault.
    Fault(Fault<'a>),
}

/// The jobs that a JSON value spells, or the first fault found, which is that of `read_jobs`, and its place: that of
/// the whole, of a job, of the runs of a job, of one run, or of a value in a job's plan as `check_plan` finds it.
pub fn check_jobs(alloc: Global, value: &Value) -> Result<JobsChecked<'_>, NoMemory>
    ensures { IfOk result (JobsAreChecked (view value.now)) }
{
    match read_jobs(alloc, value) {
        Ok(jobs) => Ok(JobsChecked::Jobs(jobs)),
        Err(ReadFault::Plan(PlanFault::NoMemory)) => Err(NoMemory),
        Err(fault) => {
            let found = fault_of_jobs(alloc, value, fault)?;
            Ok(JobsChecked::Fault(found))
        }
    }
}

// The first fault of jobs that have this fault.
fn fault_of_jobs(alloc: Global, value: &Value, fault: ReadFault) -> Result<Fault<'_>, NoMemory>
    requires { jobs_of (view value.now) ≡ Err fault }
    ensures { IfOk result (λ found. JobsFault found.fault (view value.now)
        (place_of found.place.items) (view found.value.now)) }
{
    let Some(items) = value.as_array() else {
        return Ok(Fault {
            fault,
            place: Vec::new(alloc),
            value,
        });
    };
    let jobs = items.as_slice();
    if are_too_many(jobs) {
        return Ok(Fault {
            fault,
            place: Vec::new(alloc),
            value,
        });
    }
    let Some(job) = first_job(alloc, jobs)? else {
        unreachable!()
    };
    let mut place = Vec::new(alloc);
    place.push(Step::Index(job.index))?;
    fault_of_job(alloc, job.value, job.fault, place)
}

// Whether there may not be so many jobs.
#[tactic(auto, using(sched_pool_json::proofs::Steps::count_of_values))]
fn are_too_many(jobs: &[Value]) -> bool
    ensures { result ≡ nat_lt 4096 (count (items_view jobs.now)) }
{
    jobs.len() > MAX_JOBS
}

// The first fault of a job that has this fault. `place` are the steps to the job.
fn fault_of_job<'a>(
    alloc: Global,
    job: &'a Value,
    fault: ReadFault,
    mut place: Vec<Step<'a>>,
) -> Result<Fault<'a>, NoMemory>
    requires { (job_in (view job.now)).answer ≡ Err fault }
    ensures { IfOk result (λ found. JobLeadsOn found.fault (view job.now)
        (place_of place.entry.items) (place_of found.place.items) (view found.value.now)) }
{
    let Ok((plan, runs)) = plan_and_runs(job) else {
        return Ok(Fault {
            fault,
            place,
            value: job,
        });
    };
    if is_wrong_number(runs) {
        let Some(value) = job.get("runs") else {
            unreachable!()
        };
        place.push(Step::Key("runs"))?;
        return Ok(Fault {
            fault,
            place,
            value,
        });
    }
    fault_of_part(alloc, plan, runs, place)
}

// Whether a job may not have so many runs.
#[tactic(auto, using(sched_pool_json::proofs::Steps::count_of_values))]
fn is_wrong_number(runs: &[Value]) -> bool
    ensures { result ≡ is_wrong_number (items_view runs.now) }
{
    runs.is_empty() || runs.len() > MAX_RUNS
}

// The first fault of a job of this plan and these runs, which has one. `place` are the steps to the job.
fn fault_of_part<'a>(
    alloc: Global,
    plan: &'a Value,
    runs: &'a [Value],
    mut place: Vec<Step<'a>>,
) -> Result<Fault<'a>, NoMemory>
    requires { is_ok (job_of (view plan.now) (items_view runs.now)).answer ≡ false }
    ensures { IfOk result (λ found. PartLeadsOn found.fault (view plan.now) (items_view runs.now)
        (place_of place.entry.items) (place_of found.place.items) (view found.value.now)) }
{
    if let Some(run) = first_run(runs) {
        place.push(Step::Key("runs"))?;
        place.push(Step::Index(run.index))?;
        return Ok(Fault {
            fault: run.fault,
            place,
            value: run.value,
        });
    }
    let PlanChecked::Fault(found) = check_plan(alloc, plan)? else {
        unreachable!()
    };
    place.push(Step::Key("plan"))?;
    place.extend_from_slice(&found.place)?;
    Ok(Fault {
        fault: found.fault,
        place,
        value: found.value,
    })
}
