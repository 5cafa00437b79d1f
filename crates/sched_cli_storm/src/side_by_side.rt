//! The totals of several storms, side by side.
use crate::lines::{push_known, push_right};
use crate::totals::{push_hundredths, push_recovered};
use sched_storm::Totals;
use sched_time::NoMemory;
use std::alloc::Global;
use std::fmt::Write;

// What each line tells.
const LABELS: [&str; 13] = [
    "requests",
    "won",
    "lost",
    "denied",
    "open",
    "calls",
    "for each",
    "most calls",
    "tickets",
    "50 in 100 ms",
    "99 in 100 ms",
    "slowest ms",
    "recovered ms",
];

// As wide as the widest of these.
const LABEL: usize = 12;

/// The head of a column: the plan, and below it the limit where there are several, or the share of a population, or
/// nothing.
#[derive(Drop)]
pub(crate) struct Column {
    name: String,
    below: String,
}

impl Column {
    pub(crate) fn new(alloc: Global, name: &str, below: &str) -> Result<Column, NoMemory> {
        Ok(Column {
            name: String::from_str(alloc, name)?,
            below: String::from_str(alloc, below)?,
        })
    }

    // How wide it is.
    fn width(&self) -> usize {
        self.name.len().max(self.below.len()).max(LABEL)
    }
}

/// Adds a line with the names, one with what stands below them, of which this tells what it is, and a line for each of
/// the totals. Where nothing stands below the names there is no such line.
pub(crate) fn push_table(
    alloc: Global,
    text: &mut String,
    below: &str,
    columns: &[Column],
    all: &[Totals],
) -> Result<(), NoMemory> {
    push_left(text, "")?;
    for column in columns {
        push_right(text, column.name.as_str(), column.width())?;
    }
    text.push('\n')?;
    push_below(text, below, columns)?;
    for (place, label) in LABELS.iter().enumerate() {
        push_left(text, label)?;
        for (column, totals) in columns.iter().zip(all) {
            let cell = cell(alloc, totals, place)?;
            push_right(text, cell.as_str(), column.width())?;
        }
        text.push('\n')?;
    }
    Ok(())
}

// Adds a line with what stands below the names, if there is any.
fn push_below(text: &mut String, below: &str, columns: &[Column]) -> Result<(), NoMemory> {
    if columns.iter().all(|column| column.below.is_empty()) {
        return Ok(());
    }
    push_left(text, below)?;
    for column in columns {
        push_right(text, column.below.as_str(), column.width())?;
    }
    text.push('\n')?;
    Ok(())
}

// Adds a word at the left of the first column.
fn push_left(text: &mut String, word: &str) -> Result<(), NoMemory> {
    text.push_str(word)?;
    for _ in word.len()..LABEL {
        text.push(' ')?;
    }
    Ok(())
}

// What a line tells of these totals.
fn cell(alloc: Global, totals: &Totals, place: usize) -> Result<String, NoMemory> {
    let mut cell = String::new(alloc);
    match place {
        0 => write!(cell, "{}", totals.counts.requests)?,
        1 => write!(cell, "{}", totals.counts.won)?,
        2 => write!(cell, "{}", totals.lost)?,
        3 => write!(cell, "{}", totals.denied)?,
        4 => write!(cell, "{}", totals.open)?,
        5 => write!(cell, "{}", totals.calls)?,
        6 => push_hundredths(&mut cell, totals.hundredths)?,
        7 => write!(cell, "{}", totals.most_calls)?,
        8 => write!(cell, "{}", totals.tickets)?,
        9 => push_known(&mut cell, totals.p50, "-")?,
        10 => push_known(&mut cell, totals.p99, "-")?,
        11 => push_known(&mut cell, totals.slowest, "-")?,
        _ => push_recovered(&mut cell, totals)?,
    }
    Ok(cell)
}
