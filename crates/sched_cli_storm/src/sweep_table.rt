//! Storms along a parameter, a line for each: the share of its requests that were won, its other totals, and a bar.
use crate::lines::{push_known, push_right};
use crate::sweep_rows::push_value;
use crate::totals::{push_hundredths, push_recovered, share_of};
use sched_cli_storm_words::Sweep;
use sched_storm::Totals;
use sched_time::NoMemory;
use std::alloc::Global;
use std::fmt::Write;

// The first column. No share is longer.
const SHARE: &str = "won %";

// The columns after that of the parameter. No number in them is longer.
const NAMES: [&str; 3] = ["calls for each", "slowest ms", "recovered ms"];

/// Adds a line with the names of the columns, a line for each storm with a bar of its share, and the scale of the bars.
/// With lines of at least 72 columns none is longer than that.
pub(crate) fn push_sweep(
    alloc: Global,
    text: &mut String,
    sweep: &Sweep,
    all: &[Totals],
    width: u64,
) -> Result<(), NoMemory> {
    let column = value_width(alloc, sweep)?;
    let before = width_before(column);
    let bar = (width as usize).saturating_sub(before).max(1);
    push_right(text, SHARE, SHARE.len())?;
    push_right(text, sweep.name, column)?;
    for name in &NAMES {
        push_right(text, name, name.len())?;
    }
    text.push('\n')?;
    for (swept, totals) in sweep.storms.iter().zip(all) {
        let tenths = share_of(1000, &totals.counts).unwrap_or(0);
        let mut value = String::new(alloc);
        push_value(&mut value, sweep.axis, swept.value)?;
        push_share(alloc, text, tenths)?;
        push_right(text, value.as_str(), column)?;
        push_numbers(alloc, text, totals)?;
        push_bar(text, tenths, bar)?;
        text.push('\n')?;
    }
    push_scale(text, before, bar)
}

// How wide the column of the parameter is: as its name, or as its longest value.
fn value_width(alloc: Global, sweep: &Sweep) -> Result<usize, NoMemory> {
    let mut width = sweep.name.len();
    let mut word = String::new(alloc);
    for swept in &sweep.storms {
        word.clear();
        push_value(&mut word, sweep.axis, swept.value)?;
        width = width.max(word.len());
    }
    Ok(width)
}

// How long a line is without its bar: two spaces stand before each column, and before the bar.
fn width_before(column: usize) -> usize {
    let mut width = SHARE.len().saturating_add(column).saturating_add(6);
    for name in &NAMES {
        width = width.saturating_add(2).saturating_add(name.len());
    }
    width
}

// Adds a share in per cent.
fn push_share(alloc: Global, text: &mut String, tenths: u64) -> Result<(), NoMemory> {
    let mut word = String::new(alloc);
    write!(word, "{}.{}", tenths / 10, tenths % 10)?;
    push_right(text, word.as_str(), SHARE.len())
}

// Adds what a storm comes to.
fn push_numbers(alloc: Global, text: &mut String, totals: &Totals) -> Result<(), NoMemory> {
    let mut word = String::new(alloc);
    push_hundredths(&mut word, totals.hundredths)?;
    push_right(text, word.as_str(), NAMES[0].len())?;
    word.clear();
    push_known(&mut word, totals.slowest, "-")?;
    push_right(text, word.as_str(), NAMES[1].len())?;
    word.clear();
    push_recovered(&mut word, totals)?;
    push_right(text, word.as_str(), NAMES[2].len())
}

// Adds a bar of a share.
fn push_bar(text: &mut String, tenths: u64, bar: usize) -> Result<(), NoMemory> {
    let length = tenths.saturating_mul(bar as u64).div_ceil(1000) as usize;
    if length > 0 {
        text.push_str("  ")?;
    }
    for _ in 0..length.min(bar) {
        text.push('#')?;
    }
    Ok(())
}

// Adds the scale below the bars.
fn push_scale(text: &mut String, before: usize, bar: usize) -> Result<(), NoMemory> {
    for _ in 0..before {
        text.push(' ')?;
    }
    text.push('0')?;
    for _ in 6..bar {
        text.push(' ')?;
    }
    text.push_str("100 %\n")?;
    Ok(())
}
