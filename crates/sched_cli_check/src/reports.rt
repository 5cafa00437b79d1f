//! What is told of a text.
ghost use Rattle.std.specs.Prelude.{◌≡◌, ◌++◌, codes, IfOk, string_bytes};
ghost use Rattle.serde_json.specs.View.{view};
ghost use Rattle.sched_cli_check.specs.Reporting.{IsReport, Reports, ReportsPlan, ReportsJobs};
ghost use Rattle.sched_plan_hint.specs.Faults.{told_text};

use crate::jobs_faults::tell_jobs_fault;
use crate::readers::push_reader;
use sched_cli_plan::push_count;
use sched_plan::Plan;
use sched_plan_bound::most_goes;
use sched_plan_check::{PlanChecked, check_plan};
use sched_plan_hint::{ToldFault, tell_no_json, tell_plan_fault};
use sched_plan_json::ReadFault;
use sched_pool_check::{JobsChecked, check_jobs};
use sched_pool_json::JobRead;
use sched_time::NoMemory;
use serde_json::Value;
use std::alloc::Global;
use std::fmt::Write;

/// A line that tells what a text is.
#[derive(Drop)]
pub(crate) enum Report {
    /// It spells a plan or jobs.
    Read(String),
    /// It spells none, for this fault.
    Refused(ReadFault, String),
    /// It is no JSON.
    NotJson(String),
}

/// What is told of these bytes: as jobs where they are a JSON array, and else as a plan.
#[tactic(auto, using(crate::proofs::Tells::reported))]
pub(crate) fn report_bytes(alloc: Global, bytes: &[u8]) -> Result<Report, NoMemory>
    ensures { IfOk result (IsReport bytes.now) }
{
    match Value::from_slice(alloc, bytes) {
        Ok(value) => report_value(alloc, &value),
        Err(error) if error.is_memory() => Err(NoMemory),
        Err(error) => {
            let told = tell_no_json(alloc, &error)?;
            let text = fault_line(alloc, &told)?;
            Ok(Report::NotJson(text))
        }
    }
}

// What is told of this value.
#[tactic(auto, using(crate::proofs::Tells::as_jobs, crate::proofs::Tells::as_plan))]
fn report_value(alloc: Global, value: &Value) -> Result<Report, NoMemory>
    ensures { IfOk result (Reports (view value.now)) }
{
    if value.is_array() {
        report_jobs(alloc, value)
    } else {
        report_plan(alloc, value)
    }
}

// What is told of this value as a plan.
#[tactic(auto, using(crate::proofs::Tells::tells_plan))]
fn report_plan(alloc: Global, value: &Value) -> Result<Report, NoMemory>
    ensures { IfOk result (ReportsPlan (view value.now)) }
{
    let checked = check_plan(alloc, value)?;
    match &checked {
        PlanChecked::Plan(plan) => {
            let mut text = plan_line(alloc, plan)?;
            push_reader(alloc, &mut text, plan, value)?;
            Ok(Report::Read(text))
        }
        PlanChecked::Fault(found) => {
            let told = tell_plan_fault(alloc, found)?;
            let text = fault_line(alloc, &told)?;
            Ok(Report::Refused(found.fault, text))
        }
    }
}

// What is told of this value as jobs.
#[tactic(auto, using(crate::proofs::Tells::tells_jobs))]
fn report_jobs(alloc: Global, value: &Value) -> Result<Report, NoMemory>
    ensures { IfOk result (ReportsJobs (view value.now)) }
{
    let checked = check_jobs(alloc, value)?;
    match &checked {
        JobsChecked::Jobs(jobs) => {
            let text = jobs_line(alloc, jobs)?;
            Ok(Report::Read(text))
        }
        JobsChecked::Fault(found) => {
            let told = tell_jobs_fault(alloc, found)?;
            let text = fault_line(alloc, &told)?;
            Ok(Report::Refused(found.fault, text))
        }
    }
}

// The line that tells of a fault.
fn fault_line(alloc: Global, told: &ToldFault) -> Result<String, NoMemory>
    ensures { IfOk result (λ line. string_bytes line ≡ told_text told.now ++ codes "\n") }
{
    let mut line = told.text(alloc)?;
    line.push_str("\n")?;
    Ok(line)
}

// What a plan is: `plan: 8 nodes, depth 4, goes on at most 5 times`.
fn plan_line(alloc: Global, plan: &Plan) -> Result<String, NoMemory> {
    let mut line = String::from_str(alloc, "plan: ")?;
    push_count(&mut line, plan.nodes() as u64, "node")?;
    write!(line, ", depth {}", plan.depth())?;
    if let Some(most) = most_goes(plan) {
        line.push_str(", goes on at most ")?;
        push_count(&mut line, most, "time")?;
    }
    line.push_str("\n")?;
    Ok(line)
}

// What jobs are: `jobs: 3 jobs, 7 runs`.
fn jobs_line(alloc: Global, jobs: &[JobRead]) -> Result<String, NoMemory> {
    let mut runs = 0u64;
    for job in jobs {
        runs = runs.saturating_add(job.script().len() as u64);
    }
    let mut line = String::from_str(alloc, "jobs: ")?;
    push_count(&mut line, jobs.len() as u64, "job")?;
    line.push_str(", ")?;
    push_count(&mut line, runs, "run")?;
    line.push_str("\n")?;
    Ok(line)
}
