//! Windows as rows of numbers, as comma-separated values and as JSON.
use crate::moments::push_arrivals;
use sched_cli_storm_words::StormOptions;
use sched_storm::{Report, Totals, Window};
use sched_time::NoMemory;
use std::fmt::Write;

/// The numbers of a row.
pub(crate) const COLUMNS: usize = 9;

/// What each number of a row is.
pub(crate) const NAMES: [&str; 9] = [
    "from",
    "requests",
    "won",
    "retries",
    "succeeded",
    "refused",
    "shed",
    "late",
    "waiting",
];

/// The numbers of a window.
pub(crate) fn row(window: &Window) -> [u64; 9] {
    let counts = window.counts;
    [
        window.from,
        counts.requests,
        counts.won,
        counts.retries,
        counts.succeeded,
        counts.refused,
        counts.shed,
        counts.late,
        window.waiting,
    ]
}

/// What each of the totals is called, but whether the storm was cut.
pub(crate) const TOTALS: [&str; 14] = [
    "requests",
    "won",
    "lost",
    "denied",
    "open",
    "calls",
    "hundredths",
    "most_calls",
    "most_from",
    "tickets",
    "p50",
    "p99",
    "slowest",
    "recovered",
];

/// The totals, where there are such.
pub(crate) fn totals_row(totals: &Totals) -> [Option<u64>; 14] {
    [
        Some(totals.counts.requests),
        Some(totals.counts.won),
        Some(totals.lost),
        Some(totals.denied),
        Some(totals.open),
        Some(totals.calls),
        Some(totals.hundredths),
        Some(totals.most_calls),
        Some(totals.most_from),
        Some(totals.tickets),
        totals.p50,
        totals.p99,
        totals.slowest,
        totals.recovered,
    ]
}

/// Adds a line with the names of the numbers, and a line for each window.
pub(crate) fn push_csv(text: &mut String, report: &Report) -> Result<(), NoMemory> {
    for (place, name) in NAMES.iter().enumerate() {
        push_comma(text, place)?;
        text.push_str(name)?;
    }
    text.push('\n')?;
    for window in &report.windows {
        push_row(text, window)?;
        text.push('\n')?;
    }
    Ok(())
}

/// Adds the windows and the totals as one object, on one line.
pub(crate) fn push_json(
    text: &mut String,
    report: &Report,
    options: &StormOptions,
) -> Result<(), NoMemory> {
    text.push('{')?;
    push_members(text, report)?;
    push_arrivals(text, options)?;
    text.push_str("}\n")?;
    Ok(())
}

/// Adds the windows and the totals as members of an object.
pub(crate) fn push_members(text: &mut String, report: &Report) -> Result<(), NoMemory> {
    text.push_str("\"windows\":[")?;
    for (place, window) in report.windows.iter().enumerate() {
        push_comma(text, place)?;
        text.push('[')?;
        push_row(text, window)?;
        text.push(']')?;
    }
    text.push_str("],\"totals\":")?;
    push_totals(text, &report.totals)
}

// Adds the numbers of a window, with commas between them.
fn push_row(text: &mut String, window: &Window) -> Result<(), NoMemory> {
    for (place, number) in row(window).iter().enumerate() {
        push_comma(text, place)?;
        write!(text, "{number}")?;
    }
    Ok(())
}

/// Adds a comma before what does not stand first.
pub(crate) fn push_comma(text: &mut String, place: usize) -> Result<(), NoMemory> {
    if place > 0 {
        text.push(',')?;
    }
    Ok(())
}

/// Adds the totals as a JSON object.
pub(crate) fn push_totals(text: &mut String, totals: &Totals) -> Result<(), NoMemory> {
    text.push('{')?;
    for (name, number) in TOTALS.iter().zip(&totals_row(totals)) {
        match number {
            Some(number) => write!(text, "\"{name}\":{number},")?,
            None => write!(text, "\"{name}\":null,")?,
        }
    }
    text.push_str(if totals.is_cut {
        "\"cut\":true}"
    } else {
        "\"cut\":false}"
    })?;
    Ok(())
}
