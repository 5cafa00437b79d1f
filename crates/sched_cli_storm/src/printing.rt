//! Printing storms.
ghost use Rattle.std.specs.Prelude.{◌≡◌, IfErr};
ghost use Rattle.sched_cli_plan.specs.Printing.{ReadsPlan};
ghost use Rattle.sched_cli_plan.specs.Whole.{count_of_writes};
ghost use Rattle.sched_cli_storm.specs.StormPrinting.{PrintsStorm, IsRefusal};

use crate::forms::push_report;
use crate::moments::{arrivals_of, push_source};
use crate::populations::{Populations, populated};
use crate::side_by_side::{Column, push_table};
use crate::sweep_rows::{push_sweep_csv, push_sweep_json};
use crate::sweep_table::push_sweep;
use sched_cli_plan::{PrintFault, Sink, put_all, read_value};
use sched_cli_storm_words::{Form, Limited, StormOptions, Sweep};
use sched_plan::{Plan, SharedPlan};
use sched_plan_json::read_plan;
use sched_storm::{Plans, Report, Storm, Totals};
use sched_time::NoMemory;
use std::alloc::Global;

/// Plays the storm under the plan that the bytes spell, and writes what the options ask for. Where they ask for a
/// sweep, it plays the storm with each value, and writes a line for each. Where they have several populations, the
/// further texts are the plans of those beside the first one, and it writes the totals of each side by side too. Where
/// they have further texts else, it plays the same storm under the plan of each, and writes the totals side by side;
/// where there are several limits, each plan under each. Answers whether a storm was cut.
///
/// Refused as `NotJson`, `NotAPlan`, `OutOfRange`, `TooDeep`, `TooMany` and `NoMemory` with nothing written, and as
/// `WriteFailed` with a front of the text written.
pub fn print_storm<W: Sink>(
    alloc: Global,
    bytes: &[u8],
    writer: &mut W,
    options: &StormOptions,
) -> Result<bool, PrintFault>
    ensures text { PrintsStorm bytes.now (W.taken writer.old) (W.taken writer.new) result }
    ensures counts { W.failures writer.new ≡ count_of_writes result (W.failures writer.old) }
{
    let plan = plan_in(alloc, bytes)?;
    let others = plans_in(alloc, &options.texts)?;
    let (text, is_cut) = text_of(alloc, plan, others, options)?;
    put_all(writer, text.as_bytes())?;
    Ok(is_cut)
}

/// The plan that the bytes spell.
pub(crate) fn plan_in(alloc: Global, bytes: &[u8]) -> Result<Plan, PrintFault>
    ensures { ReadsPlan bytes.now result }
{
    let value = read_value(alloc, bytes)?;
    Ok(read_plan(alloc, &value)?)
}

// The plans that texts spell.
fn plans_in(alloc: Global, texts: &[Vec<u8>]) -> Result<Vec<Plan>, PrintFault>
    ensures { IfErr result IsRefusal }
{
    let mut plans = Vec::new(alloc);
    for text in texts {
        let plan = plan_in(alloc, text)?;
        if plans.push(plan).is_err() {
            return Err(PrintFault::NoMemory);
        }
    }
    Ok(plans)
}

// What is told of the storm under this plan, or of the storms under these plans, and whether one was cut.
fn text_of(
    alloc: Global,
    plan: Plan,
    others: Vec<Plan>,
    options: &StormOptions,
) -> Result<(String, bool), NoMemory> {
    if let Some(sweep) = &options.sweep {
        let populations = Populations::new(alloc, plan, others)?;
        return swept(alloc, &populations, sweep, options);
    }
    if !options.limited.is_empty() {
        return crossed(alloc, plan, others, options);
    }
    if !options.populations.is_empty() {
        let populations = Populations::new(alloc, plan, others)?;
        return populated(alloc, &populations, options);
    }
    let report = played(alloc, options, plan)?;
    if !others.is_empty() {
        return compared(alloc, &report, others, options);
    }
    let mut text = String::new(alloc);
    push_report(alloc, &mut text, &report, options)?;
    Ok((text, report.totals.is_cut))
}

// The storm under this plan.
fn played(alloc: Global, options: &StormOptions, plan: Plan) -> Result<Report, NoMemory> {
    let plan = SharedPlan::new(alloc, plan)?;
    played_in(alloc, options, &options.storm, plan)
}

// One of the storms that are asked for, under this plan.
fn played_in(
    alloc: Global,
    options: &StormOptions,
    storm: &Storm,
    plan: SharedPlan,
) -> Result<Report, NoMemory> {
    let plans = Plans::all(plan)?;
    storm.play_populations(alloc, arrivals_of(options), plans, None)
}

// The storms along a parameter, and whether one was cut.
fn swept(
    alloc: Global,
    populations: &Populations,
    sweep: &Sweep,
    options: &StormOptions,
) -> Result<(String, bool), NoMemory> {
    let mut all = Vec::new(alloc);
    for swept in &sweep.storms {
        let report = populations.play(alloc, &swept.storm, options, None)?;
        all.push(report.totals)?;
    }
    let mut text = String::new(alloc);
    match options.form {
        Form::Csv => push_sweep_csv(&mut text, sweep, &all)?,
        Form::Json => push_sweep_json(&mut text, sweep, &all, options)?,
        Form::Bars | Form::Plain => {
            push_sweep(alloc, &mut text, sweep, &all, options.width)?;
            push_source(&mut text, options)?;
        }
    }
    Ok((text, all.iter().any(|totals| totals.is_cut)))
}

// The totals of the storm under the first plan and of those under the others, side by side.
fn compared(
    alloc: Global,
    first: &Report,
    others: Vec<Plan>,
    options: &StormOptions,
) -> Result<(String, bool), NoMemory> {
    let mut all = Vec::new(alloc);
    all.push(first.totals)?;
    for plan in others {
        let report = played(alloc, options, plan)?;
        all.push(report.totals)?;
    }
    let mut columns = Vec::new(alloc);
    for name in &options.names {
        columns.push(Column::new(alloc, name.as_str(), "")?)?;
    }
    let mut text = String::new(alloc);
    push_table(alloc, &mut text, "limit", &columns, &all)?;
    push_source(&mut text, options)?;
    Ok((text, all.iter().any(|totals| totals.is_cut)))
}

// The totals of the storms under each plan and each of several limits, side by side.
fn crossed(
    alloc: Global,
    plan: Plan,
    others: Vec<Plan>,
    options: &StormOptions,
) -> Result<(String, bool), NoMemory> {
    let mut all = Vec::new(alloc);
    push_totals(alloc, &mut all, plan, options)?;
    for plan in others {
        push_totals(alloc, &mut all, plan, options)?;
    }
    let columns = crossed_columns(alloc, options)?;
    let mut text = String::new(alloc);
    push_table(alloc, &mut text, "limit", &columns, &all)?;
    push_source(&mut text, options)?;
    Ok((text, all.iter().any(|totals| totals.is_cut)))
}

// Adds the totals of the storms under a plan and each limit.
fn push_totals(
    alloc: Global,
    all: &mut Vec<Totals>,
    plan: Plan,
    options: &StormOptions,
) -> Result<(), NoMemory> {
    let plan = SharedPlan::new(alloc, plan)?;
    for limited in &options.limited {
        let report = played_in(alloc, options, &limited.storm, plan.share()?)?;
        all.push(report.totals)?;
    }
    Ok(())
}

// A column for each plan and each limit.
fn crossed_columns(alloc: Global, options: &StormOptions) -> Result<Vec<Column>, NoMemory> {
    let mut columns = Vec::new(alloc);
    for name in &options.names {
        push_columns(alloc, &mut columns, name.as_str(), &options.limited)?;
    }
    Ok(columns)
}

// Adds the columns of a plan.
fn push_columns(
    alloc: Global,
    columns: &mut Vec<Column>,
    name: &str,
    limits: &[Limited],
) -> Result<(), NoMemory> {
    for limited in limits {
        columns.push(Column::new(alloc, name, limited.word.as_str())?)?;
    }
    Ok(())
}
