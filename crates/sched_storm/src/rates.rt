//! When requests come: at a rate that may have phases.
ghost use Rattle.std.specs.Prelude.{◌≡◌, ◌*◌, ◌<◌, ◌≤◌, ◌↔◌, IsTrue};
ghost use Rattle.sched_storm.specs.Rates.{phases_of, AreRates, AreInOrder, IsPhase};
ghost use Rattle.sched_storm.specs.Rates.{thousandths_by, arrives, IsGreatest};

use crate::storm::{MAX_EACH, MAX_MILLIS};

/// The most phases of a rate.
pub const MAX_PHASES: usize = 16;

/// A phase of the rate: from the end of the phase before it, or from 0, until this moment.
#[repr(C)]
#[derive(Clone, Copy, Debug, PartialEq, Eq)]
pub struct Phase {
    /// The first moment after it, in milliseconds: after the phase before it, and at most 3,600,000.
    pub until: u64,
    /// Requests a second in it, at most 1,000,000.
    pub rate: u64,
}

/// The phases of a storm's rate, in their order. After the last the storm's own rate holds.
#[derive(Clone, Copy, Debug, PartialEq, Eq)]
pub struct Rates {
    /// How many there are, at most 16.
    pub count: usize,
    /// The phases, of which the first `count` count.
    pub phases: [Phase; 16],
}

impl Phase {
    // Whether it can begin at this moment.
    fn is_after(&self, from: u64) -> bool
        ensures { IsTrue result ↔ IsPhase from self.now }
    {
        from < self.until && self.until <= MAX_MILLIS && self.rate <= MAX_EACH
    }
}

impl Rates {
    /// No phase.
    pub const NONE: Rates = Rates {
        count: 0,
        phases: [Phase { until: 0, rate: 0 }; 16],
    };

    /// Whether there are few, each in its range and after the one before it.
    pub(crate) fn are_in_range(&self) -> bool
        ensures { IsTrue result ↔ AreRates self.now }
    {
        self.count <= MAX_PHASES && are_in_order(&self.phases[..self.count])
    }

    /// The greatest moment by which no more than so many thousandths of a request come.
    pub(crate) fn arrives(&self, rate: u64, number: u64) -> u64
        requires rates { AreRates self.now }
        requires rate { 1 ≤ rate }
        requires number { number ≤ 1048576000 }
        ensures value { result ≡ arrives rate 0 (phases_of self.now) number }
        ensures greatest { IsGreatest rate 0 (phases_of self.now) number result }
    {
        if self.count == 0 {
            return number / rate;
        }
        arrives_in(&self.phases[..self.count], rate, number)
    }

    /// How many thousandths of a request come before a moment.
    pub(crate) fn thousandths_by(&self, rate: u64, end: u64) -> u64
        requires rates { AreRates self.now }
        requires rate { rate ≤ 1000000 }
        requires near { end ≤ 3600000 }
        ensures value { result ≡ thousandths_by rate 0 (phases_of self.now) end }
        ensures most { result ≤ 1000000 * end }
    {
        thousandths_in(&self.phases[..self.count], rate, end)
    }
}

fn are_in_order(phases: &[Phase]) -> bool
    ensures { IsTrue result ↔ AreInOrder 0 phases.now }
{
    let mut from = 0;
    for phase in phases {
        if !phase.is_after(from) {
            return false;
        }
        from = phase.until;
    }
    true
}

fn arrives_in(phases: &[Phase], rate: u64, number: u64) -> u64
    requires order { AreInOrder 0 phases.now }
    requires rate { 1 ≤ rate }
    requires number { number ≤ 1048576000 }
    ensures { result ≡ arrives rate 0 phases.now number }
{
    let mut from = 0;
    let mut left = number;
    for phase in phases {
        let here = phase.rate * (phase.until - from);
        if left < here {
            return from + left / phase.rate;
        }
        left -= here;
        from = phase.until;
    }
    from + left / rate
}

fn thousandths_in(phases: &[Phase], rate: u64, end: u64) -> u64
    requires order { AreInOrder 0 phases.now }
    requires rate { rate ≤ 1000000 }
    requires near { end ≤ 3600000 }
    ensures value { result ≡ thousandths_by rate 0 phases.now end }
    ensures most { result ≤ 1000000 * end }
{
    let mut from = 0;
    let mut sum = 0;
    for phase in phases {
        sum += phase.rate * phase.until.min(end).saturating_sub(from);
        from = phase.until;
    }
    sum + rate * end.saturating_sub(from)
}
