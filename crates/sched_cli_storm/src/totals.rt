//! The totals of a storm, in words.
use crate::lines::push_known;
use sched_cli_plan::push_count;
use sched_storm::{Counts, Draws, Storm, Totals};
use sched_time::NoMemory;
use std::fmt::Write;

/// Adds the totals, a line for each kind.
pub(crate) fn push_words(
    text: &mut String,
    storm: &Storm,
    totals: &Totals,
) -> Result<(), NoMemory> {
    push_endings(text, storm, totals)?;
    push_calls(text, totals)?;
    match storm.parameters().draws {
        Draws::Nothing => {}
        Draws::Budget(limit) => {
            push_count(text, totals.tickets, "ticket")?;
            write!(text, " of {limit} given\n")?;
        }
        Draws::Quota(_) | Draws::Limited(_) => {
            push_count(text, totals.tickets, "ticket")?;
            text.push_str(" given\n")?;
        }
    }
    push_times(text, totals)?;
    match totals.recovered {
        Some(from) => write!(text, "recovered from {from} ms on\n")?,
        None if is_unharmed(totals) => {}
        None => text.push_str("never recovered\n")?,
    }
    if totals.is_cut {
        text.push_str("cut after ")?;
        push_count(text, totals.calls, "call")?;
        text.push('\n')?;
    }
    Ok(())
}

// Whether no request was harmed, so that there was nothing to recover from.
fn is_unharmed(totals: &Totals) -> bool {
    totals.counts.won == totals.counts.requests
}

/// Adds the moment from which on a storm has recovered.
pub(crate) fn push_recovered(text: &mut String, totals: &Totals) -> Result<(), NoMemory> {
    let other = if is_unharmed(totals) { "-" } else { "never" };
    push_known(text, totals.recovered, other)
}

/// The share of the requests that were won, in so many parts of the whole, to the nearest: all parts only where all
/// were won, and none only where none was; `None` where there are no requests.
pub(crate) fn share_of(parts: u64, counts: &Counts) -> Option<u64> {
    let (won, all) = (counts.won, counts.requests);
    let halves = won.saturating_mul(parts).saturating_mul(2);
    let nearest = halves
        .saturating_add(all)
        .checked_div(all.saturating_mul(2))?;
    if won == 0 || won == all {
        return Some(nearest);
    }
    Some(nearest.max(1).min(parts.saturating_sub(1)))
}

// How the requests ended. A limit denies first calls too.
fn push_endings(text: &mut String, storm: &Storm, totals: &Totals) -> Result<(), NoMemory> {
    let denied = match storm.parameters().draws {
        Draws::Limited(_) => "denied",
        _ => "denied a retry",
    };
    push_count(text, totals.counts.requests, "request")?;
    write!(text, ": {} won, {} lost, ", totals.counts.won, totals.lost)?;
    write!(
        text,
        "{} {denied}, {} left open\n",
        totals.denied, totals.open
    )?;
    Ok(())
}

// How many calls there were.
fn push_calls(text: &mut String, totals: &Totals) -> Result<(), NoMemory> {
    push_count(text, totals.calls, "call")?;
    text.push_str(", ")?;
    push_hundredths(text, totals.hundredths)?;
    text.push_str(" for each request\n")?;
    write!(
        text,
        "the most in a window are {}, from {} ms\n",
        totals.most_calls, totals.most_from
    )?;
    Ok(())
}

/// Adds a number of hundredths.
pub(crate) fn push_hundredths(text: &mut String, hundredths: u64) -> Result<(), NoMemory> {
    write!(
        text,
        "{}.{}{}",
        hundredths / 100,
        hundredths / 10 % 10,
        hundredths % 10
    )?;
    Ok(())
}

// How long the requests took that were won.
fn push_times(text: &mut String, totals: &Totals) -> Result<(), NoMemory> {
    if let (Some(p50), Some(p99), Some(slowest)) = (totals.p50, totals.p99, totals.slowest) {
        write!(
            text,
            "won after {p50} ms (50 in 100), {p99} ms (99 in 100), {slowest} ms (all)\n"
        )?;
    }
    Ok(())
}
