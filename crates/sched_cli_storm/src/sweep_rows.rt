//! Storms along a parameter, as comma-separated values and as JSON.
use crate::moments::push_arrivals;
use crate::rows::{TOTALS, push_comma, push_totals, totals_row};
use sched_cli_storm_words::{Axis, StormOptions, Sweep};
use sched_storm::Totals;
use sched_time::NoMemory;
use std::fmt::Write;

/// Adds a line with the names of the parameter and of the totals, and a line for each storm.
pub(crate) fn push_sweep_csv(
    text: &mut String,
    sweep: &Sweep,
    all: &[Totals],
) -> Result<(), NoMemory> {
    text.push_str(sweep.name)?;
    for name in &TOTALS {
        write!(text, ",{name}")?;
    }
    text.push_str(",cut\n")?;
    for (swept, totals) in sweep.storms.iter().zip(all) {
        push_value(text, sweep.axis, swept.value)?;
        for number in &totals_row(totals) {
            match number {
                Some(number) => write!(text, ",{number}")?,
                None => text.push(',')?,
            }
        }
        text.push_str(if totals.is_cut { ",true\n" } else { ",false\n" })?;
    }
    Ok(())
}

/// Adds the values and the totals as one object, on one line.
pub(crate) fn push_sweep_json(
    text: &mut String,
    sweep: &Sweep,
    all: &[Totals],
    options: &StormOptions,
) -> Result<(), NoMemory> {
    write!(text, "{{\"parameter\":\"{}\",\"values\":[", sweep.name)?;
    for (place, swept) in sweep.storms.iter().enumerate() {
        push_comma(text, place)?;
        push_value(text, sweep.axis, swept.value)?;
    }
    text.push_str("],\"totals\":[")?;
    for (place, totals) in all.iter().enumerate() {
        push_comma(text, place)?;
        push_totals(text, totals)?;
    }
    text.push(']')?;
    push_arrivals(text, options)?;
    text.push_str("}\n")?;
    Ok(())
}

/// Adds a value as the command line has it: a share in per cent.
pub(crate) fn push_value(text: &mut String, axis: Axis, value: u64) -> Result<(), NoMemory> {
    match axis {
        Axis::Share if value % 10 > 0 => write!(text, "{}.{}", value / 10, value % 10)?,
        Axis::Share => write!(text, "{}", value / 10)?,
        _ => write!(text, "{value}")?,
    }
    Ok(())
}
