//! What is due of a request, and when.
ghost use Rattle.std.specs.Prelude.{◌≡◌, true, false, IfSome, ◌+◌, ◌*◌, ◌/◌, ◌%◌, ◌<◌, ◌≤◌, ◌^◌};
ghost use Rattle.sched_storm.specs.Keys.{code_of, kind_from, key_of, turn_of, bound_of};
ghost use Rattle.sched_storm.specs.Turns.{kind_after, turn_by, next_at, is_over};
ghost use Rattle.sched_storm.specs.Plays.{is_late};
ghost use Rattle.sched_storm.specs.Tickets.{asked_of, given_of};

use crate::calls::CallEnd;
use crate::storm::Storm;
use crate::tickets::Drawn;
use sched_storm_report::{Failure, Then};
use sched_time::Moment;

/// What is due of a request.
#[derive(Clone, Copy, Debug, PartialEq, Eq)]
pub(crate) enum Kind {
    /// Its first call begins.
    Begins,
    /// A retry begins.
    Retries,
    /// A call succeeds.
    Succeeds,
    /// A call fails for this reason.
    Fails(Failure),
}

impl Kind {
    /// How a call ends.
    pub(crate) fn after(how: CallEnd) -> Kind
        ensures { result ≡ kind_after how }
    {
        match how {
            CallEnd::Succeeded => Kind::Succeeds,
            CallEnd::Failed(failure) => Kind::Fails(failure),
        }
    }

    fn code(self) -> u64
        ensures value { result ≡ code_of self }
        ensures few { result < 8 }
    {
        match self {
            Kind::Begins => 0,
            Kind::Retries => 1,
            Kind::Succeeds => 2,
            Kind::Fails(Failure::Refused) => 3,
            Kind::Fails(Failure::Shed) => 4,
            Kind::Fails(Failure::Late) => 5,
        }
    }

    fn from_code(code: u64) -> Kind
        ensures { result ≡ kind_from code }
    {
        match code {
            0 => Kind::Begins,
            1 => Kind::Retries,
            2 => Kind::Succeeds,
            3 => Kind::Fails(Failure::Refused),
            4 => Kind::Fails(Failure::Shed),
            _ => Kind::Fails(Failure::Late),
        }
    }
}

/// What is due of a request at a moment.
#[derive(Clone, Copy, Debug, PartialEq, Eq)]
pub(crate) struct Turn {
    pub(crate) at: u64,
    pub(crate) request: u64,
    pub(crate) kind: Kind,
}

// How many requests there may be, and how many kinds of what may be due.
const REQUESTS: u64 = 1048576;

const KINDS: u64 = 8;

impl Turn {
    /// Its key: keys ascend by moment, and at one moment by the number of the request.
    pub(crate) fn key(self) -> u64
        requires at { self.at ≤ 7200000 }
        requires number { self.request < 1048576 }
        ensures { result ≡ key_of self }
    {
        (self.at * REQUESTS + self.request) * KINDS + self.kind.code()
    }

    /// What a key stands for.
    pub(crate) fn of(key: u64) -> Turn
        ensures { result ≡ turn_of key }
    {
        let place = key / KINDS;
        Turn {
            at: place / REQUESTS,
            request: place % REQUESTS,
            kind: Kind::from_code(key % KINDS),
        }
    }
}

/// What follows a call that failed: what is due of its request, what becomes of the request, and the tickets.
#[derive(Clone, Copy, Debug, PartialEq, Eq)]
pub(crate) struct Next {
    pub(crate) next: Option<Turn>,
    pub(crate) then: Then,
    pub(crate) drawn: Drawn,
}

/// Whether the call came late.
pub(crate) fn is_late(failure: Failure) -> bool
    ensures { result ≡ is_late failure }
{
    matches!(failure, Failure::Late)
}

/// Whether a request of which this follows is over.
pub(crate) fn is_over(then: Then) -> bool
    ensures { result ≡ is_over then }
{
    match then {
        Then::Lost | Then::Denied => true,
        Then::Waits { .. } => false,
    }
}

impl Storm {
    /// What is due of a request at a moment, where that is played.
    pub(crate) fn turn_by(&self, at: u64, request: u64, kind: Kind) -> Option<Turn>
        ensures { result ≡ turn_by self.now.until at request kind }
    {
        if at <= self.parameters().until {
            Some(Turn { at, request, kind })
        } else {
            None
        }
    }

    /// What follows a call that failed, where its policy plans a start, or is done: a ticket is drawn for a retry, or a
    /// limit has granted it, or not.
    pub(crate) fn next(
        &self,
        is_granted: bool,
        drawn: Drawn,
        turn: Turn,
        start: Option<Moment>,
    ) -> Next
        requires asked { asked_of drawn ≤ 1048576 }
        requires given { given_of drawn < 2 ^ 63 }
        ensures { result ≡ next_at self.now is_granted drawn turn.at turn.request start }
    {
        let Some(start) = start else {
            return Next {
                next: None,
                then: Then::Lost,
                drawn,
            };
        };
        let (is_granted, drawn) = self.draw(is_granted, drawn, turn.at);
        if is_granted {
            Next {
                next: self.turn_by(start.get(), turn.request, Kind::Retries),
                then: Then::Waits {
                    ticket: self.has_draws(),
                },
                drawn,
            }
        } else {
            Next {
                next: None,
                then: Then::Denied,
                drawn,
            }
        }
    }
}

/// The key of this turn, where there is one.
pub(crate) fn bound_of(turn: Option<Turn>) -> Option<u64>
    requires { IfSome turn (λ turn. (turn.at ≤ 7200000) × (turn.request < 1048576)) }
    ensures { result ≡ bound_of turn }
{
    match turn {
        Some(turn) => Some(turn.key()),
        None => None,
    }
}
