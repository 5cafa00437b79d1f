//! The budget: making it, and closing it with the pass that stands for all.
ghost use Rattle.std.specs.Prelude.{◌≡◌, ◌+◌, ◌≤◌, true, false, length, min, IfOk, IfErr, OnOk, OnErr};
ghost use Rattle.sched_ticket.specs.View.{terms, parted_terms, first_weight, first_view, with_mark};
ghost use Rattle.sched_ticket.specs.Held.{IsOf};
ghost use Rattle.sched_ticket.specs.Calls.{RefusesLimit};
ghost use Rattle.sched_ticket.specs.Whole.{IsWhole, IsOneOfSeveral};
ghost use Rattle.sched_ticket.specs.Lists.{AreBelow};
ghost use Rattle.sched_ticket.specs.declared.view.Mark.{Mark};

use crate::fault::{PassesOut, TicketFault};
use crate::parts::ALL_PARTS;
use crate::pass::Pass;
use crate::rule::{LIMIT, MADE, Rule};
use crate::view::{Terms, View};
use atomic_table::Table;
use std::alloc::Global;
use std::marker::Model;

/// The most tickets that a budget gives out.
pub const MAX_LIMIT: u64 = 4294967296;

/// A number of tickets that any number of threads draw from, each with a pass of its own.
/// Contracts see it as its name: which budget it is, and what it was made with.
#[derive(Drop)]
pub struct Budget {
    /// How many numbers were drawn, how many passes were made, and the limit.
    pub(crate) table: Table<u8, View, Terms, Rule, Global>,
    pub(crate) terms: Terms,
}

impl Model for Budget {
    ghost use Rattle.sched_ticket.specs.Held.{Name, IsLaidOut};

    ghost Value = { Name };

    ghost view = { λ b. record { table = b.table.shared.table_id; terms = b.terms } };

    ghost invariant = { λ b. IsLaidOut b.table.shared.table_id b.table.shared.key b.terms };
}

impl Budget {
    /// A budget of `limit` tickets, and its first pass. It counts its passes, 65,536 at most.
    pub fn new(alloc: Global, limit: u64) -> Result<(Budget, Pass), TicketFault>
        ensures ok { IfOk result
            (λ r. (r.0.terms ≡ terms limit false) × IsOf r.0 r.1 × (r.1.has ≡ first_view (terms limit false))) }
        ensures limit { OnOk result (limit ≤ 4294967296) }
        ensures err { IfErr result (RefusesLimit limit) }
    {
        Budget::open(
            alloc,
            Terms {
                limit,
                rises: false,
                by_parts: false,
            },
        )
    }

    /// A budget whose limit is `limit` and may rise, and its first pass. It counts its passes, 65,536 at most, and a
    /// pass that is refused uses a number up.
    pub fn rising(alloc: Global, limit: u64) -> Result<(Budget, Pass), TicketFault>
        ensures ok { IfOk result
            (λ r. (r.0.terms ≡ terms limit true) × IsOf r.0 r.1 × (r.1.has ≡ first_view (terms limit true))) }
        ensures limit { OnOk result (limit ≤ 4294967296) }
        ensures err { IfErr result (RefusesLimit limit) }
    {
        Budget::open(
            alloc,
            Terms {
                limit,
                rises: true,
                by_parts: false,
            },
        )
    }

    /// A budget of `limit` tickets whose passes stand for parts, and its first pass, which has all 2^62. Passes are
    /// split and joined without end.
    pub fn by_parts(alloc: Global, limit: u64) -> Result<(Budget, Pass), TicketFault>
        ensures ok { IfOk result (λ r. (r.0.terms ≡ parted_terms limit false) × IsOf r.0 r.1
            × (r.1.has ≡ first_view (parted_terms limit false))) }
        ensures limit { OnOk result (limit ≤ 4294967296) }
        ensures err { IfErr result (RefusesLimit limit) }
    {
        Budget::open(
            alloc,
            Terms {
                limit,
                rises: false,
                by_parts: true,
            },
        )
    }

    /// The same with a limit that may rise. A refused draw uses no number up, so a limit that is raised by some gives
    /// as many tickets more, to refused passes too.
    pub fn rising_by_parts(alloc: Global, limit: u64) -> Result<(Budget, Pass), TicketFault>
        ensures ok { IfOk result (λ r. (r.0.terms ≡ parted_terms limit true) × IsOf r.0 r.1
            × (r.1.has ≡ first_view (parted_terms limit true))) }
        ensures limit { OnOk result (limit ≤ 4294967296) }
        ensures err { IfErr result (RefusesLimit limit) }
    {
        Budget::open(
            alloc,
            Terms {
                limit,
                rises: true,
                by_parts: true,
            },
        )
    }

    fn open(alloc: Global, about: Terms) -> Result<(Budget, Pass), TicketFault>
        ensures ok { IfOk result (λ r. (r.0.terms ≡ about) × IsOf r.0 r.1 × (r.1.has ≡ first_view about)) }
        ensures limit { OnOk result (about.limit ≤ 4294967296) }
        ensures err { IfErr result (RefusesLimit about.limit) }
    {
        if about.limit > MAX_LIMIT {
            return Err(TicketFault::LimitTooLarge);
        }
        let made = made_at_first(about);
        let mut words = [0; LIMIT + 1];
        words[MADE] = made;
        words[LIMIT] = about.limit;
        match Table::of_words(alloc, &words, &about) {
            Ok((table, seat)) => Ok((
                Budget {
                    table,
                    terms: about,
                },
                Pass::start(seat, made),
            )),
            Err(_) => Err(TicketFault::NoMemory),
        }
    }

    /// The number of tickets drawn, where this pass stands for all passes of the budget, as `Pass::total` tells.
    /// By parts that is the pass that has all 2^62. Otherwise another pass is alive or was dropped, and both come back,
    /// the pass marked as shared.
    pub fn close(self, pass: Pass) -> Result<u64, (Budget, Pass, PassesOut)>
        requires { IsOf self pass }
        ensures count { IfOk result (λ n. n ≡ length pass.has.tickets) }
        ensures whole { OnOk result (IsWhole self.terms pass.has) }
        ensures fixed { IfOk result (λ n. self.terms.rises ≡ false →
            (n ≡ min (n + length pass.has.refusals) self.terms.limit) × AreBelow pass.has.tickets n) }
        ensures err { IfErr result
            (λ r. (r.0 ≡ self) × IsOf r.0 r.1 × (r.1.has ≡ with_mark pass.has Mark.Shared)) }
        ensures several { OnErr result (IsOneOfSeveral self.terms pass.has) }
    {
        match pass.total(&self) {
            Ok(tickets) => Ok(tickets),
            Err(pass) => Err((self, pass, PassesOut)),
        }
    }
}

/// What the first pass stands for: itself, or all parts.
fn made_at_first(about: Terms) -> u64
    ensures { result ≡ first_weight about }
{
    if about.by_parts { ALL_PARTS } else { 1 }
}
