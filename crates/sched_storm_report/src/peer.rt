//! The peer that is called: how much of its work a replica of it can have done by when, and what it has taken.
ghost use Rattle.std.specs.Prelude.{◌≡◌, ◌-◌, ◌*◌, ◌/◌, ◌≤◌};
ghost use Rattle.sched_storm_report.specs.Peer.{IsPeer, IsSlow, work_by, can_be_done, waiting_at};

/// The units of work of a call.
pub const CALL: u64 = 100000;

/// A span of moments, in milliseconds: `from` is the first in it, and `to` the first after it.
#[derive(Clone, Copy, Debug, PartialEq, Eq)]
pub struct Span {
    pub from: u64,
    pub to: u64,
}

impl Span {
    ghost use Rattle.std.specs.Prelude.{◌≡◌};
    ghost use Rattle.sched_storm_report.specs.Peer.{is_in};

    /// Whether the moment lies in it.
    pub fn has(self, at: u64) -> bool
        ensures { result ≡ is_in self at }
    {
        self.from <= at && at < self.to
    }
}

/// A brown-out: in the span the peer works at `percent` of its capacity.
#[derive(Clone, Copy, Debug, PartialEq, Eq)]
pub struct BrownOut {
    pub span: Span,
    pub percent: u64,
}

/// What the replicas of a peer have taken: the unit at which each is done with all of it. A replica that the peer does
/// not have takes nothing.
#[derive(Clone, Copy, Debug, PartialEq, Eq)]
pub struct Busy {
    pub first: u64,
    pub second: u64,
    pub third: u64,
    pub fourth: u64,
}

impl Busy {
    ghost use Rattle.std.specs.Prelude.{◌≡◌};
    ghost use Rattle.sched_storm_report.specs.Peer.{busy_at, with_busy};

    /// No work.
    pub const NONE: Busy = Busy {
        first: 0,
        second: 0,
        third: 0,
        fourth: 0,
    };

    /// The unit at which the replica of this number, from 0, is done.
    pub fn at(&self, replica: u64) -> u64
        ensures { result ≡ busy_at replica self.now }
    {
        match replica {
            0 => self.first,
            1 => self.second,
            2 => self.third,
            _ => self.fourth,
        }
    }

    /// The replica of this number is done at this unit.
    pub fn set(&mut self, replica: u64, unit: u64)
        ensures { self.new ≡ with_busy replica unit self.old }
    {
        match replica {
            0 => self.first = unit,
            1 => self.second = unit,
            2 => self.third = unit,
            _ => self.fourth = unit,
        }
    }
}

/// A peer each of whose replicas does so many calls a second, except in a brown-out.
#[derive(Clone, Copy, Debug, PartialEq, Eq)]
pub struct Peer {
    /// Calls that a replica can do in a second, at most 1,000,000.
    pub capacity: u64,
    /// When it works slowly, at 1 to 100 per cent; it ends at 3,600,000 at the latest.
    pub slow: Option<BrownOut>,
}

impl Peer {
    /// The units of work that a replica can have done by this moment.
    pub fn can_be_done(&self, at: u64) -> u64
        requires peer { IsPeer self.now }
        requires at { at ≤ 10800000 }
        ensures value { result ≡ can_be_done self.now at }
        ensures most { result ≤ 100000000 * at }
    {
        self.capacity * work_by(self.slow, at)
    }

    /// The calls of work that stand at its replicas at this moment, those of each rounded down.
    pub fn waiting_at(&self, busy: &Busy, at: u64) -> u64
        requires peer { IsPeer self.now }
        requires at { at ≤ 10800000 }
        ensures { result ≡ waiting_at self.now busy.now at }
    {
        let done = self.can_be_done(at);
        standing(busy.first, done)
            + standing(busy.second, done)
            + standing(busy.third, done)
            + standing(busy.fourth, done)
    }
}

// The calls of work that stand at a replica, rounded down, where it is done with all at the unit `busy`.
fn standing(busy: u64, done: u64) -> u64
    ensures value { result ≡ (busy - done) / 100000 }
    ensures few { result ≤ 184467440737095 }
{
    busy.saturating_sub(done) / CALL
}

// The units that a peer of one call a second can have done by this moment.
fn work_by(slow: Option<BrownOut>, at: u64) -> u64
    requires slow { IsSlow slow }
    requires at { at ≤ 10800000 }
    ensures value { result ≡ work_by slow at }
    ensures most { result ≤ 100 * at }
{
    match slow {
        Some(BrownOut { span, percent }) => {
            let slowly = at.min(span.to).saturating_sub(span.from);
            100 * (at - slowly) + percent * slowly
        }
        None => 100 * at,
    }
}
