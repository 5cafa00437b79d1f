//! Storms along a parameter, as a word asks for them.
use crate::axes::Axis;
use crate::faults::StormFault;
use crate::following::Following;
use crate::numbers::number_in;
use crate::options::with_until;
use crate::several::with_draws;
use sched_storm::{Draws, Parameters, Storm};
use std::alloc::{AllocError, Global};

// The most values of a sweep.
const MAX_VALUES: u64 = 64;

const SWEEP: &str = "--sweep <NAME=VALUES>";

const NAME_WANTED: &str =
    "expected a parameter and its values, such as rate=200..1600/8; the parameters are rate, clients, together, \
     capacity, queue, patience, outage, share, reserve, budget and beside";

const VALUES_WANTED: &str =
    "expected 1 to 64 values, each greater than the one before, such as rate=200..1600/8 or rate=200,400";

const RANGE_WANTED: &str =
    "expected values in the range of the parameter; a share and a reserve are of --quota, a budget of --budget, and \
     beside of --beside";

/// A storm with a value of the parameter.
#[derive(Clone, Copy, Debug)]
pub struct Swept {
    /// The value, of a share in thousandths.
    pub value: u64,
    /// The storm with it.
    pub storm: Storm,
}

/// Storms along a parameter.
#[derive(Debug, Drop)]
pub struct Sweep {
    /// What the parameter is called.
    pub name: &'static str,
    /// The parameter.
    pub axis: Axis,
    /// A storm for each value, in the order of the values.
    pub storms: Vec<Swept>,
}

impl Sweep {
    /// Ends its storms at this moment. `None` where one has too many windows then.
    pub(crate) fn end_at(&mut self, until: u64) -> Option<()> {
        for swept in &mut self.storms {
            let storm = with_until(&swept.storm, until)?;
            swept.storm = storm;
        }
        Some(())
    }

    /// Makes the retries of its storms draw on this.
    pub(crate) fn draw_on(&mut self, draws: &Draws) {
        for swept in &mut self.storms {
            let storm = with_draws(&swept.storm, draws);
            swept.storm = storm;
        }
    }
}

/// The storms that a word asks for, with each value in the place of one of these parameters, and with what follows from
/// them.
pub(crate) fn sweep_in(
    alloc: Global,
    word: &str,
    base: &Parameters,
    following: &Following,
) -> Result<Sweep, StormFault> {
    let (name, spelt) = word.split_once('=').unwrap_or((word, ""));
    let Some((name, axis)) = Axis::named(name) else {
        return Err(StormFault::value(alloc, SWEEP, word, NAME_WANTED));
    };
    let Some(values) = values_in(alloc, axis, spelt)? else {
        return Err(StormFault::value(alloc, SWEEP, word, VALUES_WANTED));
    };
    let Some(storms) = storms_with(alloc, axis, base, following, &values)? else {
        return Err(StormFault::value(alloc, SWEEP, word, RANGE_WANTED));
    };
    Ok(Sweep { name, axis, storms })
}

// The storm with each of these values, where each is in its range.
fn storms_with(
    alloc: Global,
    axis: Axis,
    base: &Parameters,
    following: &Following,
    values: &[u64],
) -> Result<Option<Vec<Swept>>, AllocError> {
    let mut storms = Vec::new(alloc);
    for value in values {
        let value = *value;
        let Some(storm) = axis.storm_with(base, following, value) else {
            return Ok(None);
        };
        storms.push(Swept { value, storm })?;
    }
    Ok(Some(storms))
}

// The values that a word spells as FROM..TO/COUNT, or as A,B,.., each greater than the one before.
fn values_in(alloc: Global, axis: Axis, spelt: &str) -> Result<Option<Vec<u64>>, AllocError> {
    let found = match spelt.split_once("..") {
        Some((from, others)) => spread_in(alloc, axis, from, others)?,
        None => listed_in(alloc, axis, spelt)?,
    };
    match found {
        Some(values) if ascend(&values) => Ok(Some(values)),
        _ => Ok(None),
    }
}

// The values that are spelt as A,B,...
fn listed_in(alloc: Global, axis: Axis, spelt: &str) -> Result<Option<Vec<u64>>, AllocError> {
    let mut values = Vec::new(alloc);
    let mut rest = Some(spelt);
    for _ in 0..MAX_VALUES {
        let Some(left) = rest else {
            return Ok(Some(values));
        };
        let (word, others) = match left.split_once(',') {
            Some((word, others)) => (word, Some(others)),
            None => (left, None),
        };
        let Some(value) = axis.value_in(word) else {
            return Ok(None);
        };
        values.push(value)?;
        rest = others;
    }
    Ok(if rest.is_none() { Some(values) } else { None })
}

// The values that are spelt as FROM, and TO/COUNT.
fn spread_in(
    alloc: Global,
    axis: Axis,
    from: &str,
    others: &str,
) -> Result<Option<Vec<u64>>, AllocError> {
    let Some((from, to, count)) = ends_in(axis, from, others) else {
        return Ok(None);
    };
    let mut values = Vec::new(alloc);
    for index in 0..count {
        values.push(value_at(from, to, index, count))?;
    }
    Ok(Some(values))
}

// The first value, the last one and how many there are.
fn ends_in(axis: Axis, from: &str, others: &str) -> Option<(u64, u64, u64)> {
    let (to, count) = others.split_once('/')?;
    let from = axis.value_in(from)?;
    let to = axis.value_in(to)?;
    let count = number_in(count)?;
    if count < 2 || count > MAX_VALUES || from >= to {
        return None;
    }
    Some((from, to, count))
}

// The value of this index of so many, which are as far apart as whole numbers can be: to the nearest one, halves up.
fn value_at(from: u64, to: u64, index: u64, count: u64) -> u64 {
    let steps = count.saturating_sub(1);
    let doubled = to
        .saturating_sub(from)
        .saturating_mul(index)
        .saturating_mul(2)
        .saturating_add(steps);
    let added = doubled.checked_div(steps.saturating_mul(2)).unwrap_or(0);
    from.saturating_add(added)
}

// Whether each value is greater than the one before.
fn ascend(values: &[u64]) -> bool {
    let mut least = 0u64;
    for value in values {
        if *value < least {
            return false;
        }
        least = value.saturating_add(1);
    }
    true
}
