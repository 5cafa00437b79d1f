//! A line for each window, in aligned columns.
use crate::rows::{COLUMNS, NAMES, row};
use sched_storm::{Report, Window};
use sched_time::NoMemory;
use std::alloc::Global;
use std::fmt::Write;

/// Adds a line with the names of the columns, and a line with the numbers of each window.
pub(crate) fn push_lines(
    alloc: Global,
    text: &mut String,
    report: &Report,
) -> Result<(), NoMemory> {
    let widths = widths(alloc, &report.windows)?;
    for (name, width) in NAMES.iter().zip(&widths) {
        push_right(text, name, *width)?;
    }
    text.push('\n')?;
    for window in &report.windows {
        push_numbers(alloc, text, &row(window), &widths)?;
        text.push('\n')?;
    }
    Ok(())
}

// How wide each column is: as its name, or as its longest number.
fn widths(alloc: Global, windows: &[Window]) -> Result<Vec<usize>, NoMemory> {
    let mut greatest = [0u64; 9];
    for window in windows {
        let numbers = row(window);
        for place in 0..COLUMNS {
            greatest[place] = greatest[place].max(numbers[place]);
        }
    }
    let mut widths = Vec::new(alloc);
    for (name, number) in NAMES.iter().zip(&greatest) {
        widths.push(name.len().max(digits(*number)))?;
    }
    Ok(widths)
}

/// How many digits a number has.
pub(crate) fn digits(number: u64) -> usize {
    let mut digits = 1usize;
    let mut rest = number;
    while rest >= 10 {
        rest /= 10;
        digits = digits.saturating_add(1);
    }
    digits
}

/// Adds two spaces, and a word at the right of a column.
pub(crate) fn push_right(text: &mut String, word: &str, width: usize) -> Result<(), NoMemory> {
    text.push_str("  ")?;
    for _ in word.len()..width {
        text.push(' ')?;
    }
    text.push_str(word)?;
    Ok(())
}

/// Adds numbers, each at the right of its column.
pub(crate) fn push_numbers(
    alloc: Global,
    text: &mut String,
    numbers: &[u64],
    widths: &[usize],
) -> Result<(), NoMemory> {
    let mut word = String::new(alloc);
    for (number, width) in numbers.iter().zip(widths) {
        word.clear();
        write!(word, "{number}")?;
        push_right(text, word.as_str(), *width)?;
    }
    Ok(())
}

/// Adds a number where there is one, and else this word.
pub(crate) fn push_known(
    text: &mut String,
    number: Option<u64>,
    other: &str,
) -> Result<(), NoMemory> {
    match number {
        Some(number) => write!(text, "{number}")?,
        None => text.push_str(other)?,
    }
    Ok(())
}
