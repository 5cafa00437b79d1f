//! Storms of several populations of clients: playing them, and telling of each population.
use crate::forms::push_report;
use crate::moments::{arrivals_of, push_arrivals};
use crate::rows::{push_comma, push_members};
use crate::side_by_side::{Column, push_table};
use sched_cli_storm_words::{Form, StormOptions};
use sched_plan::{Plan, SharedPlan};
use sched_storm::{Plans, Report, Storm};
use sched_time::NoMemory;
use std::alloc::Global;
use std::fmt::Write;

/// The plans of the populations of a storm, of which there are at most four.
#[derive(Drop)]
pub(crate) struct Populations {
    first: SharedPlan,
    others: Vec<SharedPlan>,
}

impl Populations {
    /// The first population has the first plan, and those beside it have the others, in their order.
    pub(crate) fn new(
        alloc: Global,
        first: Plan,
        others: Vec<Plan>,
    ) -> Result<Populations, NoMemory> {
        let mut shared = Vec::new(alloc);
        for plan in others {
            shared.push(SharedPlan::new(alloc, plan)?)?;
        }
        Ok(Populations {
            first: SharedPlan::new(alloc, first)?,
            others: shared,
        })
    }

    /// Plays this storm of theirs, with the requests that the options have, and reports on all requests, or on those of
    /// one population, from 0.
    pub(crate) fn play(
        &self,
        alloc: Global,
        storm: &Storm,
        options: &StormOptions,
        of: Option<u64>,
    ) -> Result<Report, NoMemory> {
        let plans = Plans {
            first: self.first.share()?,
            second: self.beside(0)?,
            third: self.beside(1)?,
            fourth: self.beside(2)?,
        };
        storm.play_populations(alloc, arrivals_of(options), plans, of)
    }

    // The plan of a population beside the first one, from 0. One that there is not has that of the first.
    fn beside(&self, place: usize) -> Result<SharedPlan, NoMemory> {
        let plan = match self.others.get(place) {
            Some(plan) => plan.share()?,
            None => self.first.share()?,
        };
        Ok(plan)
    }
}

/// What is told of the storm of these populations, and whether it was cut.
pub(crate) fn populated(
    alloc: Global,
    populations: &Populations,
    options: &StormOptions,
) -> Result<(String, bool), NoMemory> {
    let report = populations.play(alloc, &options.storm, options, None)?;
    let mut text = String::new(alloc);
    match options.form {
        Form::Csv => push_report(alloc, &mut text, &report, options)?,
        Form::Json => push_objects(alloc, &mut text, &report, populations, options)?,
        Form::Bars | Form::Plain => {
            push_report(alloc, &mut text, &report, options)?;
            push_columns(alloc, &mut text, &report, populations, options)?;
        }
    }
    Ok((text, report.totals.is_cut))
}

// Adds the windows and the totals of all requests, and of those of each population, as one object, on one line.
fn push_objects(
    alloc: Global,
    text: &mut String,
    report: &Report,
    populations: &Populations,
    options: &StormOptions,
) -> Result<(), NoMemory> {
    text.push('{')?;
    push_members(text, report)?;
    text.push_str(",\"populations\":[")?;
    for (place, population) in options.populations.iter().enumerate() {
        let report = populations.play(alloc, &options.storm, options, Some(place as u64))?;
        push_comma(text, place)?;
        write!(text, "{{\"share\":{},", population.share)?;
        push_members(text, &report)?;
        text.push('}')?;
    }
    text.push(']')?;
    push_arrivals(text, options)?;
    text.push_str("}\n")?;
    Ok(())
}

// Adds the totals of all requests and of those of each population, side by side.
fn push_columns(
    alloc: Global,
    text: &mut String,
    report: &Report,
    populations: &Populations,
    options: &StormOptions,
) -> Result<(), NoMemory> {
    let mut columns = Vec::new(alloc);
    let mut all = Vec::new(alloc);
    columns.push(Column::new(alloc, "all", "100")?)?;
    all.push(report.totals)?;
    for (place, population) in options.populations.iter().enumerate() {
        let name = match options.names.get(place) {
            Some(name) => name.as_str(),
            None => "",
        };
        columns.push(Column::new(alloc, name, population.word.as_str())?)?;
        let report = populations.play(alloc, &options.storm, options, Some(place as u64))?;
        all.push(report.totals)?;
    }
    push_table(alloc, text, "share %", &columns, &all)
}
