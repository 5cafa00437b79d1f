//! The tickets that retries draw on: of nothing, of a budget or of a quota.
ghost use Rattle.std.specs.Prelude.{◌≡◌, ◌≤◌, ◌<◌, ◌+◌, ◌^◌, nat_lt, if◌then◌else◌};
ghost use Rattle.sched_ticket_quota.specs.Held.{AreTerms};
ghost use Rattle.sched_ticket_quota.specs.Windows.{allowed};
ghost use Rattle.sched_storm_limit.specs.Ranges.{AreDraws};
ghost use Rattle.sched_storm.specs.Tickets.{asked_of, given_of, turned, at_moment, counted, draw_at};

use crate::storm::Storm;
use sched_storm_limit::Draws;
use sched_ticket_quota::{MAX_RESERVE, Terms};

/// The requests that were counted, and the tickets that were given: in the window of a quota that is the latest, and in
/// those before it. A budget has one window.
#[derive(Clone, Copy, Debug, PartialEq, Eq)]
pub(crate) struct Drawn {
    pub(crate) window: u64,
    pub(crate) asked_before: u64,
    pub(crate) given_before: u64,
    pub(crate) asked: u64,
    pub(crate) given: u64,
}

impl Drawn {
    /// No request, and no ticket.
    pub(crate) const NONE: Drawn = Drawn {
        window: 0,
        asked_before: 0,
        given_before: 0,
        asked: 0,
        given: 0,
    };

    /// All tickets.
    pub(crate) fn tickets(self) -> u64
        requires { given_of self < 2 ^ 64 }
        ensures { result ≡ given_of self }
    {
        self.given_before + self.given
    }

    // In a later window than the latest, nothing is asked and given yet.
    fn turned(self, window: u64) -> Drawn
        requires asked { asked_of self < 2 ^ 64 }
        requires given { given_of self < 2 ^ 64 }
        ensures { result ≡ turned window self }
    {
        if self.window < window {
            Drawn {
                window,
                asked_before: self.asked_before + self.asked,
                given_before: self.given_before + self.given,
                asked: 0,
                given: 0,
            }
        } else {
            self
        }
    }
}

impl Storm {
    /// Counts a request at this moment, where its retries draw on anything.
    pub(crate) fn count(&self, drawn: Drawn, at: u64) -> Drawn
        requires asked { asked_of drawn < 2 ^ 63 }
        requires given { given_of drawn < 2 ^ 63 }
        ensures value { result ≡ counted self.now.draws at drawn }
        ensures draws { AreDraws self.now.draws }
    {
        if !self.has_draws() {
            return drawn;
        }
        let here = self.at_moment(drawn, at);
        Drawn {
            asked: here.asked + 1,
            ..here
        }
    }

    /// Draws a ticket at this moment, where retries draw on anything, and tells whether a retry may be made. A limit
    /// has granted it, or not.
    pub(crate) fn draw(&self, is_granted: bool, drawn: Drawn, at: u64) -> (bool, Drawn)
        requires asked { asked_of drawn ≤ 1048576 }
        requires given { given_of drawn < 2 ^ 63 }
        ensures value { result ≡ draw_at self.now.draws is_granted at drawn }
        ensures draws { AreDraws self.now.draws }
    {
        let here = self.at_moment(drawn, at);
        match self.draws() {
            Draws::Nothing => (true, here),
            Draws::Budget(limit) => with_one_of(here, *limit),
            Draws::Quota(terms) => with_one_of(here, allowed(*terms, here.asked)),
            Draws::Limited(_) => {
                if is_granted {
                    (true, with_one(here))
                } else {
                    (false, here)
                }
            }
        }
    }

    // Each call of a quota is of its own moment's window.
    fn at_moment(&self, drawn: Drawn, at: u64) -> Drawn
        requires asked { asked_of drawn < 2 ^ 63 }
        requires given { given_of drawn < 2 ^ 63 }
        ensures value { result ≡ at_moment self.now.draws at drawn }
        ensures asked { asked_of result ≡ asked_of drawn }
        ensures given { given_of result ≡ given_of drawn }
        ensures draws { AreDraws self.now.draws }
    {
        match self.draws() {
            Draws::Quota(terms) => drawn.turned(at / terms.period.get()),
            Draws::Nothing | Draws::Budget(_) | Draws::Limited(_) => drawn,
        }
    }
}

// Gives a ticket of so many that the window has, where one is left.
fn with_one_of(here: Drawn, tickets: u64) -> (bool, Drawn)
    requires { here.given < 2 ^ 63 }
    ensures { result ≡ (
      nat_lt here.given tickets,
      (if nat_lt here.given tickets then record here { given = here.given + 1 } else here),
    ) }
{
    if here.given < tickets {
        (true, with_one(here))
    } else {
        (false, here)
    }
}

// Gives a ticket.
fn with_one(here: Drawn) -> Drawn
    requires { here.given < 2 ^ 63 }
    ensures { result ≡ record here { given = here.given + 1 } }
{
    Drawn {
        given: here.given + 1,
        ..here
    }
}

// The tickets that a window of so many requests may give.
fn allowed(terms: Terms, asked: u64) -> u64
    requires terms { AreTerms terms }
    requires asked { asked ≤ 1048576 }
    ensures { result ≡ allowed terms asked }
{
    (terms.reserve + terms.share * asked / 1000).min(MAX_RESERVE)
}
