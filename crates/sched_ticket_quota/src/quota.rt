//! The quota: making it, and closing it with the pass that has all parts.
ghost use Rattle.std.specs.Prelude.{◌≡◌, ◌/◌, ◌<◌, ◌≤◌, length, true, false, IfOk, IfErr, OnOk, None};
ghost use Rattle.sched_ticket_quota.specs.Windows.{word_of};
ghost use Rattle.sched_ticket_quota.specs.View.{first_view, first_of_kind};
ghost use Rattle.sched_ticket_quota.specs.Held.{AreTerms, IsOf};
ghost use Rattle.sched_ticket_quota.specs.Calls.{RefusesTerms};
ghost use Rattle.sched_ticket_quota.specs.Whole.{IsWhole};

use crate::fault::{PassesOut, QuotaFault};
use crate::pass::Pass;
use crate::rule::Rule;
use crate::view::{Kind, Terms, View};
use atomic_table::Table;
use sched_ticket::parts::ALL_PARTS;
use sched_time::Moment;
use std::alloc::Global;
use std::marker::Model;

/// The greatest reserve, in tickets a window.
pub const MAX_RESERVE: u64 = 4294967296;

/// The greatest share, in thousandths of a ticket a request.
pub const MAX_SHARE: u64 = 1000000;

/// The shortest period, in milliseconds.
pub const MIN_PERIOD: u64 = 100;

/// The last window, which does not end: the first is that in which the quota was made, and has the number 0.
pub const LAST_WINDOW: u64 = 2999999999;

/// The numbers of a window.
pub(crate) const NUMBERS: u64 = 4294967296;

/// Of a quota that carries, half of a window's numbers are of tickets that it draws itself, and as many of those of its
/// share that the next one draws.
pub(crate) const HALF: u64 = 2147483648;

/// Shares that one word tells apart: 1,000,000 is the greatest.
pub(crate) const SHARES: u64 = 1048576;

/// Which word tells how many tickets were drawn, and which how many requests were counted. There are 32 words, so that
/// each of the two lies on a cache line of its own, and the lines beside have none.
pub(crate) const DRAWS: usize = 8;

pub(crate) const REQUESTS: usize = 24;

/// Which word tells how many tickets were handed back, beside the draws.
pub(crate) const RETURNS: usize = 9;

/// Which word has the terms, beside the requests, which each draw reads too.
pub(crate) const TERMS: usize = 25;

/// Which word tells how many requests the window before had, for a quota that carries.
pub(crate) const PAST: usize = 26;

/// What any number of threads draw tickets from, each with a pass of its own.
/// Contracts see it as its name: which quota it is, and what it was made with.
#[derive(Drop)]
pub struct Quota {
    pub(crate) table: Table<u8, View, Kind, Rule, Global>,
    pub(crate) terms: Terms,
    /// The window that it was made in, counted from moment 0.
    pub(crate) start: u64,
    /// Whether a window may draw what the one before left of its share.
    pub(crate) carries: bool,
}

impl Model for Quota {
    ghost use Rattle.sched_ticket_quota.specs.Held.{Name, IsLaidOut};

    ghost Value = { Name };

    ghost view = { λ b.
        record { table = b.table.shared.table_id; terms = b.terms; start = b.start; carries = b.carries } };

    ghost invariant = { λ b. IsLaidOut b.table.shared.table_id b.table.shared.key.terms b.terms b.start };
}

impl Quota {
    /// A quota of these terms, and its first pass. The window of `now` is open, and windows are counted from it on.
    pub fn new(alloc: Global, now: Moment, terms: Terms) -> Result<(Quota, Pass), QuotaFault>
        ensures ok { IfOk result (λ r. (r.0.terms ≡ terms) × IsOf r.0 r.1 × (r.1.has ≡ first_view terms)) }
        ensures latest { IfOk result (λ r. r.1.latest ≡ None) }
        ensures start { IfOk result (λ r. (r.0.start ≡ now / terms.period) × (r.0.carries ≡ false)) }
        ensures terms { OnOk result (AreTerms terms) }
        ensures err { IfErr result (RefusesTerms terms) }
    {
        Quota::of_kind(alloc, now, terms, false)
    }

    /// A quota that carries: in each window, what the one before left of its share may be drawn first, once. It gives
    /// at most 2147483648 tickets of a window there, and as many in the next. Else it is a quota as `new` makes it.
    pub fn carrying(alloc: Global, now: Moment, terms: Terms) -> Result<(Quota, Pass), QuotaFault>
        ensures ok { IfOk result
            (λ r. (r.0.terms ≡ terms) × IsOf r.0 r.1 × (r.1.has ≡ first_of_kind true terms)) }
        ensures latest { IfOk result (λ r. r.1.latest ≡ None) }
        ensures start { IfOk result (λ r. (r.0.start ≡ now / terms.period) × (r.0.carries ≡ true)) }
        ensures terms { OnOk result (AreTerms terms) }
        ensures err { IfErr result (RefusesTerms terms) }
    {
        Quota::of_kind(alloc, now, terms, true)
    }

    /// A quota that carries, or one that does not.
    fn of_kind(
        alloc: Global,
        now: Moment,
        terms: Terms,
        carries: bool,
    ) -> Result<(Quota, Pass), QuotaFault>
        ensures ok { IfOk result
            (λ r. (r.0.terms ≡ terms) × IsOf r.0 r.1 × (r.1.has ≡ first_of_kind carries terms)) }
        ensures latest { IfOk result (λ r. r.1.latest ≡ None) }
        ensures start { IfOk result (λ r. (r.0.start ≡ now / terms.period) × (r.0.carries ≡ carries)) }
        ensures terms { OnOk result (AreTerms terms) }
        ensures err { IfErr result (RefusesTerms terms) }
    {
        if terms.reserve > MAX_RESERVE {
            return Err(QuotaFault::ReserveTooLarge);
        }
        if terms.share > MAX_SHARE {
            return Err(QuotaFault::ShareTooLarge);
        }
        if terms.period.get() < MIN_PERIOD {
            return Err(QuotaFault::PeriodTooShort);
        }
        let start = now.get() / terms.period.get();
        let mut words = [0; 32];
        words[TERMS] = word_of(terms.reserve, terms.share);
        match Table::of_words(alloc, &words, &Kind::of(&terms, carries)) {
            Ok((table, seat)) => {
                let quota = Quota {
                    table,
                    terms,
                    start,
                    carries,
                };
                Ok((quota, Pass::of_seat(seat, ALL_PARTS, 0, start)))
            }
            Err(_) => Err(QuotaFault::NoMemory),
        }
    }

    /// The number of tickets that were given out, where this pass has all parts, as `Pass::total` tells.
    /// Otherwise another pass is alive or was dropped, and both come back as they were.
    pub fn close(self, pass: Pass) -> Result<u64, (Quota, Pass, PassesOut)>
        requires { IsOf self pass }
        ensures granted { IfOk result (λ n. n ≡ length pass.has.tickets) }
        ensures whole { OnOk result (IsWhole self.terms pass.has) }
        ensures err { IfErr result (λ r. (r.0 ≡ self) × (r.1 ≡ pass) × (pass.has.weight < 4611686018427387904)) }
    {
        match pass.total(&self) {
            Ok(granted) => Ok(granted),
            Err(pass) => Err((self, pass, PassesOut)),
        }
    }
}

/// A reserve and a share in one word.
pub(crate) fn word_of(reserve: u64, share: u64) -> u64
    requires reserve { reserve ≤ 4294967296 }
    requires share { share ≤ 1000000 }
    ensures { result ≡ word_of reserve share }
{
    reserve * SHARES + share
}
