//! A report in the form that the options ask for.
use crate::bars::push_bars;
use crate::lines::push_lines;
use crate::moments::push_source;
use crate::rows::{push_csv, push_json};
use crate::totals::push_words;
use sched_cli_storm_words::{Form, StormOptions};
use sched_storm::Report;
use sched_time::NoMemory;
use std::alloc::Global;

/// Adds what is told of the storm that has this report.
pub(crate) fn push_report(
    alloc: Global,
    text: &mut String,
    report: &Report,
    options: &StormOptions,
) -> Result<(), NoMemory> {
    match options.form {
        Form::Csv => push_csv(text, report),
        Form::Json => push_json(text, report, options),
        Form::Bars => {
            push_bars(alloc, text, report, options.width)?;
            push_source(text, options)?;
            push_words(text, &options.storm, &report.totals)
        }
        Form::Plain => {
            push_lines(alloc, text, report)?;
            push_source(text, options)?;
            push_words(text, &options.storm, &report.totals)
        }
    }
}
