//! What is counted of the moments of a storm.
ghost use Rattle.std.specs.Prelude.{◌≡◌, ◌<◌, ◌^◌};
ghost use Rattle.sched_storm_report.specs.Counts.{with_happening, with_won, score_after, AreBelow, IsBelow};

use crate::moments::{Failure, Happening, Then};

/// What began and ended in a window, or in all.
#[derive(Clone, Copy, Debug, PartialEq, Eq)]
pub struct Counts {
    /// The requests that came.
    pub requests: u64,
    /// How many of these were won in the end.
    pub won: u64,
    /// The retries that began.
    pub retries: u64,
    /// The calls that ended and succeeded.
    pub succeeded: u64,
    /// The calls that the peer refused, since it was away.
    pub refused: u64,
    /// The calls that the peer shed, since its queue was full.
    pub shed: u64,
    /// The calls that their clients gave up.
    pub late: u64,
}

impl Counts {
    /// Nothing.
    pub const NONE: Counts = Counts {
        requests: 0,
        won: 0,
        retries: 0,
        succeeded: 0,
        refused: 0,
        shed: 0,
        late: 0,
    };

    /// Counts what happened, where it happened. A request that is won is counted where it began, by `win`.
    #[inline(always)]
    pub(crate) fn count(&mut self, what: Happening)
        requires { AreBelow (2 ^ 63) self.old }
        ensures { self.new ≡ with_happening what self.old }
    {
        match what {
            Happening::Request | Happening::Refused => self.requests += 1,
            Happening::Retry => self.retries += 1,
            Happening::Won { .. } => self.succeeded += 1,
            Happening::Failed { failure, .. } => match failure {
                Failure::Refused => self.refused += 1,
                Failure::Shed => self.shed += 1,
                Failure::Late => self.late += 1,
            },
        }
    }

    /// Counts a request that was won, where it began.
    pub(crate) fn win(&mut self)
        requires { self.old.won < 2 ^ 63 }
        ensures { self.new ≡ with_won self.old }
    {
        self.won += 1;
    }
}

/// How all requests and calls stand.
#[derive(Clone, Copy, Debug, PartialEq, Eq)]
pub(crate) struct Score {
    /// What began and ended.
    pub(crate) all: Counts,
    /// The calls that began.
    pub(crate) calls: u64,
    /// The requests whose policy was done.
    pub(crate) lost: u64,
    /// The requests that got no ticket.
    pub(crate) denied: u64,
    /// The retries that were granted.
    pub(crate) granted: u64,
    /// The tickets that were given.
    pub(crate) tickets: u64,
}

impl Score {
    /// Nothing.
    pub(crate) const NONE: Score = Score {
        all: Counts::NONE,
        calls: 0,
        lost: 0,
        denied: 0,
        granted: 0,
        tickets: 0,
    };

    /// Counts what happened.
    #[inline(always)]
    pub(crate) fn count(&mut self, what: Happening)
        requires { IsBelow (2 ^ 63) self.old }
        ensures { self.new ≡ score_after what self.old }
    {
        self.all.count(what);
        match what {
            Happening::Request | Happening::Retry => self.calls += 1,
            Happening::Won { .. } => {}
            Happening::Failed { then, .. } => match then {
                Then::Lost => self.lost += 1,
                Then::Denied => self.denied += 1,
                Then::Waits { ticket } => {
                    self.granted += 1;
                    if ticket {
                        self.tickets += 1;
                    }
                }
            },
            Happening::Refused => self.denied += 1,
        }
    }
}
