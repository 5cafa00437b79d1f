//! A line for each window: the share of its requests that were won, what happened in it, and a bar of its calls.
use crate::lines::{digits, push_numbers, push_right};
use crate::totals::share_of;
use sched_cli_plan::push_count;
use sched_storm::{Report, Window};
use sched_time::NoMemory;
use std::alloc::Global;
use std::fmt::Write;

// The first column.
const SHARE: &str = "won %";

// The columns between it and the bar.
const NAMES: [&str; 5] = ["from ms", "requests", "retries", "failed", "waiting"];

/// Adds a line with the names of the columns, a line for each window, and the scale of the bars. With lines of at least
/// 72 columns none is longer than that.
pub(crate) fn push_bars(
    alloc: Global,
    text: &mut String,
    report: &Report,
    width: u64,
) -> Result<(), NoMemory> {
    let widths = widths(alloc, &report.windows)?;
    let before = length_of(&widths);
    let bar = (width as usize).saturating_sub(before).max(1);
    push_right(text, SHARE, SHARE.len())?;
    for (name, width) in NAMES.iter().zip(&widths) {
        push_right(text, name, *width)?;
    }
    text.push_str("  # request, + retry\n")?;
    for window in &report.windows {
        push_share(alloc, text, window)?;
        push_numbers(alloc, text, &numbers(window), &widths)?;
        push_bar(text, window, report.totals.most_calls, bar)?;
        text.push('\n')?;
    }
    push_scale(alloc, text, report.totals.most_calls, before, bar)
}

// What happened in a window. Calls that failed were refused, shed or late.
fn numbers(window: &Window) -> [u64; 5] {
    let counts = window.counts;
    let failed = counts
        .refused
        .saturating_add(counts.shed)
        .saturating_add(counts.late);
    [
        window.from,
        counts.requests,
        counts.retries,
        failed,
        window.waiting,
    ]
}

// How wide each column is: as its name, or as its longest number.
fn widths(alloc: Global, windows: &[Window]) -> Result<Vec<usize>, NoMemory> {
    let mut greatest = [0u64; 5];
    for window in windows {
        let numbers = numbers(window);
        for place in 0..5 {
            greatest[place] = greatest[place].max(numbers[place]);
        }
    }
    let mut widths = Vec::new(alloc);
    for (name, number) in NAMES.iter().zip(&greatest) {
        widths.push(name.len().max(digits(*number)))?;
    }
    Ok(widths)
}

// How long a line is without its bar: two spaces stand before each column, and before the bar.
fn length_of(widths: &[usize]) -> usize {
    let mut length = SHARE.len().saturating_add(4);
    for width in widths {
        length = length.saturating_add(2).saturating_add(*width);
    }
    length
}

// Adds how many in 100 of the requests that began in a window were won.
fn push_share(alloc: Global, text: &mut String, window: &Window) -> Result<(), NoMemory> {
    let mut word = String::new(alloc);
    match share_of(100, &window.counts) {
        Some(share) => write!(word, "{share}")?,
        None => word.push('-')?,
    }
    push_right(text, word.as_str(), SHARE.len())
}

// Adds a bar of the calls that began, of which so many are as long as the longest bar: requests, and then retries.
fn push_bar(text: &mut String, window: &Window, most: u64, bar: usize) -> Result<(), NoMemory> {
    let requests = part_of(window.counts.requests, most, bar);
    let calls = window.counts.requests.saturating_add(window.counts.retries);
    let all = part_of(calls, most, bar);
    if all > 0 {
        text.push_str("  ")?;
    }
    for _ in 0..requests {
        text.push('#')?;
    }
    for _ in requests..all {
        text.push('+')?;
    }
    Ok(())
}

// How long a bar of so many calls is, rounded up.
fn part_of(calls: u64, most: u64, bar: usize) -> usize {
    if most == 0 {
        return 0;
    }
    let length = calls.saturating_mul(bar as u64).div_ceil(most);
    (length as usize).min(bar)
}

// Adds the scale below the bars: 0 where they begin, and the calls of the longest bar where that ends.
fn push_scale(
    alloc: Global,
    text: &mut String,
    most: u64,
    before: usize,
    bar: usize,
) -> Result<(), NoMemory> {
    for _ in 0..before {
        text.push(' ')?;
    }
    let mut word = String::new(alloc);
    push_count(&mut word, most, "call")?;
    text.push('0')?;
    for _ in word.len().saturating_add(1)..bar {
        text.push(' ')?;
    }
    text.push_str(word.as_str())?;
    text.push('\n')?;
    Ok(())
}
