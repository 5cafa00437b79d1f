//! The step of a lease.
ghost use Rattle.std.specs.Prelude.{◌≡◌, ◌<◌, ◌≤◌, IfSome, IfNone};
ghost use Rattle.sched_ticket_quota.specs.Windows.{allowed};
ghost use Rattle.sched_ticket_lease.specs.Leases.{allows, count_of, IsLease};

use sched_ticket_quota::Terms;
use sched_time::FAR;

/// The most requests of a window that count, and the most tickets of a quota's window.
const MAX_TICKETS: u64 = 4294967296;

/// What the leases of a window are taken of.
#[derive(Clone, Copy, Debug, PartialEq, Eq, Drop)]
pub enum Grants {
    /// A budget: so many tickets, whatever is asked.
    Budget(u64),
    /// A quota. How long its windows are is for the store to know.
    Quota(Terms),
}

/// What a store keeps of a budget or a quota. Of one that it doesn't know yet each number is 0.
#[repr(C)]
#[derive(Clone, Copy, Debug, PartialEq, Eq, Drop)]
pub struct Stored {
    /// The window of its last lease, by its number; 0 for good where there are no windows.
    pub window: u64,
    /// How many tickets of that window were leased.
    pub given: u64,
    /// How many requests of that window the store was told.
    pub asked: u64,
}

/// What a process asks of a store.
#[derive(Clone, Copy, Debug, PartialEq, Eq, Drop)]
pub struct Ask {
    /// What it leases tickets of.
    pub grants: Grants,
    /// The present window, by the store's clock.
    pub window: u64,
    /// The requests of that window that it has to tell.
    pub told: u64,
    /// How many tickets it wants.
    pub wanted: u64,
}

/// What a store grants: `tickets` of the window's tickets from the number `first` on, or none.
#[derive(Clone, Copy, Debug, PartialEq, Eq, Drop)]
pub struct Lease {
    /// What the store has to keep before the range is handed out.
    pub stored: Stored,
    pub first: u64,
    pub tickets: u64,
}

impl Grants {
    /// How many tickets a window of so many requests may give.
    pub fn allows(self, asked: u64) -> u64
        ensures { result ≡ allows self asked }
    {
        match self {
            Grants::Budget(limit) => limit,
            Grants::Quota(terms) => room(terms, asked.min(MAX_TICKETS)),
        }
    }
}

// How many tickets these terms allow for so many requests.
fn room(terms: Terms, asked: u64) -> u64
    requires { asked ≤ 4294967296 }
    ensures { result ≡ allowed terms asked }
{
    let shares = terms.share.saturating_mul(asked) / 1000;
    terms.reserve.saturating_add(shares).min(MAX_TICKETS)
}

impl Stored {
    /// The lease that is taken where a store keeps these numbers: the tickets that follow those given of the window, as
    /// many of those wanted as the window may give for the requests told. `None` where the store counts a later window
    /// already: it has lost its count of this one, and its numbers stay.
    pub fn lease(self, ask: Ask) -> Option<Lease>
        ensures some { IfSome result (λ l. (self.window ≤ ask.window) × IsLease self ask l) }
        ensures none { IfNone result (ask.window < self.window) }
    {
        if ask.window < self.window {
            return None;
        }
        let Stored { given, asked, .. } = self.of(ask.window);
        let asked = asked.saturating_add(ask.told).min(FAR);
        let left = ask.grants.allows(asked).saturating_sub(given);
        let tickets = ask.wanted.min(left);
        Some(Lease {
            stored: Stored {
                window: ask.window,
                given: given + tickets,
                asked,
            },
            first: given,
            tickets,
        })
    }

    // What the store has counted of this window.
    fn of(self, window: u64) -> Stored
        ensures { result ≡ count_of self window }
    {
        if self.window < window {
            Stored {
                window,
                given: 0,
                asked: 0,
            }
        } else {
            Stored { window, ..self }
        }
    }
}
