//! The pass: the right to draw tickets of a budget, and what was drawn with it.
ghost use Rattle.std.specs.Prelude.{◌≡◌, ◌+◌, ◌<◌, ◌≤◌, true, false, [], ◌∷◌, length, min, None};
ghost use Rattle.std.specs.Prelude.{IfOk, IfErr, OnOk, OnErr, IfSome, IfNone, MatchOption, MatchBool};
ghost use Rattle.sched_ticket.specs.Lists.{AreBelow};
ghost use Rattle.sched_ticket.specs.View.{draws_again, fresh_view, part_of, with_split, with_mark, joined_view};
ghost use Rattle.sched_ticket.specs.Whole.{IsWhole, IsOneOfSeveral};
ghost use Rattle.sched_ticket.specs.Steps.{IsSound, IsWithin};
ghost use Rattle.sched_ticket.specs.Held.{IsOf};
ghost use Rattle.sched_ticket.specs.Calls.{Asked, Took, TookNone, Drew, DrawRefused, MaySplit, SplitRefused};
ghost use Rattle.sched_ticket.specs.Calls.{Raised, RefusesRaise};
ghost use Rattle.sched_ticket.specs.declared.view.Mark.{Mark};

use crate::budget::{Budget, MAX_LIMIT};
use crate::fault::TicketFault;
use crate::parts::given;
use crate::rule::{
    Count, DRAWN, Draw, Find, LIMIT, Learn, Look, MADE, Merge, Part, Raise, ReadLimit, Win,
};
use crate::view::View;
use std::marker::Model;

pub(crate) type Seat = atomic_table::Seat<u8, View>;

/// The most passes that are counted of a budget.
const MAX_PASSES: u64 = 65536;

/// The right to draw tickets of one budget. Contracts see it as its budget and what it has of it.
/// A pass that is dropped keeps what it has, so its budget cannot be closed.
#[derive(Drop)]
pub struct Pass {
    pub(crate) seat: Seat,
    pub(crate) tickets: u64,
    /// How many passes, or parts, it stands for.
    pub(crate) weight: u64,
    /// How many of its splits were counted and then refused.
    pub(crate) refused_splits: u64,
    /// A draw was answered None.
    pub(crate) refused: bool,
}

impl Model for Pass {
    ghost use Rattle.sched_ticket.specs.Held.{Held, IsCounted};

    ghost Value = { Held };

    ghost view = { λ p. record { table = p.seat.table_id; has = p.seat.me.0 } };

    ghost invariant = { λ p. IsCounted p.seat.me p.tickets p.weight p.refused_splits p.refused };
}

impl Pass {
    pub(crate) fn start(seat: Seat, weight: u64) -> Pass
        requires bare { seat.me.1 ≡ [] }
        requires new { seat.me.0 ≡ fresh_view seat.me.0.terms seat.me.0.floor weight }
        requires live { (0 < weight) × (weight ≤ 4611686018427387904) }
        requires counted { seat.me.0.terms.by_parts ≡ false → weight ≡ 1 }
        requires fixed { seat.me.0.terms.rises ≡ false → seat.me.0.floor ≡ seat.me.0.terms.limit }
        ensures { (result.table ≡ seat.table_id) × (result.has ≡ seat.me.0) }
    {
        Pass {
            seat,
            tickets: 0,
            weight,
            refused_splits: 0,
            refused: false,
        }
    }

    /// How many tickets were drawn with this pass, and with those joined into it.
    pub fn count(&self) -> u64
        ensures count { result ≡ length self.now.has.tickets }
        ensures within { IsWithin self.now.has }
    {
        self.tickets
    }

    /// A ticket below the limit, or None. Then it is None for good, but of a rising budget by parts, where a pass draws
    /// again once the limit is raised. It waits for nobody.
    ///
    /// Where passes are counted it is one atomic step, after one load of the limit on a rising budget. By parts it is a
    /// load and a compare-exchange, which is made again only where another draw won a ticket first, or the load alone
    /// where none is left. A pass that is refused for good makes no step.
    pub fn draw(&mut self, budget: &Budget) -> Option<u64>
        requires { IsOf budget.now self.old }
        ensures of { IsOf budget.now self.new }
        ensures some { IfSome result (λ k. Drew self.old.has k self.new.has) }
        ensures none { IfNone result (DrawRefused self.old.has self.new.has) }
        ensures again { draws_again self.old.has.terms ≡ false → 0 < length self.old.has.refusals →
            (result ≡ None) × (self.new ≡ self.old) }
        ensures tickets { MatchOption result
            (self.new.has.tickets ≡ self.old.has.tickets) (λ k. self.new.has.tickets ≡ k ∷ self.old.has.tickets) }
    {
        if self.refused && !(budget.terms.rises && budget.terms.by_parts) {
            return None;
        }
        let limit = limit_now(budget, &mut self.seat);
        let ticket = next_below(budget, &mut self.seat, limit);
        if ticket.is_some() {
            self.tickets += 1;
        } else {
            self.refused = true;
        }
        ticket
    }

    /// A new pass without tickets and without refusal. `TooManyPasses` where 65,536 passes were counted of this budget,
    /// the first included, or where this pass was told so before; by parts only where this pass has one part, which it
    /// keeps: the first pass has 2^62, and a split gives 2^20 where there are more, or else one. The tickets of this
    /// pass stay.
    pub fn split(&mut self, budget: &Budget) -> Result<Pass, TicketFault>
        requires { IsOf budget.now self.old }
        ensures of { IsOf budget.now self.new }
        ensures ok { IfOk result (λ p. IsOf budget.now p × (p.has ≡ part_of self.old.has)) }
        ensures kept { OnOk result (MaySplit self.old.has × (self.new.has ≡ with_split self.old.has)) }
        ensures err { IfErr result
            (λ e. (e ≡ TicketFault.TooManyPasses) × SplitRefused self.old.has self.new.has) }
    {
        if budget.terms.by_parts {
            self.split_parts(budget)
        } else {
            self.split_counted(budget)
        }
    }

    /// Splits parts off, without a step on the words.
    fn split_parts(&mut self, budget: &Budget) -> Result<Pass, TicketFault>
        requires of { IsOf budget.now self.old }
        requires by_parts { budget.now.terms.by_parts ≡ true }
        ensures of { IsOf budget.now self.new }
        ensures ok { IfOk result (λ p. IsOf budget.now p × (p.has ≡ part_of self.old.has)) }
        ensures kept { OnOk result (MaySplit self.old.has × (self.new.has ≡ with_split self.old.has)) }
        ensures err { IfErr result
            (λ e. (e ≡ TicketFault.TooManyPasses) × SplitRefused self.old.has self.new.has) }
    {
        if self.weight == 1 {
            return Err(TicketFault::TooManyPasses);
        }
        let parts = given(self.weight);
        let seat = budget.table.shared.split_seat::<Part>(&mut self.seat);
        self.weight -= parts;
        Ok(Pass::start(seat, parts))
    }

    /// Splits a pass off, and counts it.
    fn split_counted(&mut self, budget: &Budget) -> Result<Pass, TicketFault>
        requires of { IsOf budget.now self.old }
        requires counted { budget.now.terms.by_parts ≡ false }
        ensures of { IsOf budget.now self.new }
        ensures ok { IfOk result (λ p. IsOf budget.now p × (p.has ≡ part_of self.old.has)) }
        ensures kept { OnOk result (MaySplit self.old.has × (self.new.has ≡ with_split self.old.has)) }
        ensures err { IfErr result
            (λ e. (e ≡ TicketFault.TooManyPasses) × SplitRefused self.old.has self.new.has) }
    {
        if self.refused_splits > 0 {
            return Err(TicketFault::TooManyPasses);
        }
        let made = budget
            .table
            .shared
            .fetch_add::<Count>(&mut self.seat, MADE, 1);
        if made >= MAX_PASSES {
            self.refused_splits = 1;
            return Err(TicketFault::TooManyPasses);
        }
        let seat = budget.table.shared.split_seat::<Part>(&mut self.seat);
        Ok(Pass::start(seat, 1))
    }

    /// One pass with what both have. It answers None for good where either did.
    pub fn join(mut self, other: Pass, budget: &Budget) -> Pass
        requires this { IsOf budget.now self }
        requires that { IsOf budget.now other }
        ensures of { IsOf budget.now result }
        ensures joined { result.has ≡ joined_view self.has other.has }
        ensures sound { IsSound result.has }
    {
        self.take_in(other, budget);
        self
    }

    /// Joins another pass into this one.
    #[inline(always)]
    pub fn take_in(&mut self, other: Pass, budget: &Budget)
        requires this { IsOf budget.now self.old }
        requires that { IsOf budget.now other }
        ensures of { IsOf budget.now self.new }
        ensures joined { self.new.has ≡ joined_view self.old.has other.has }
        ensures sound { IsSound self.new.has }
    {
        let Pass {
            seat,
            tickets,
            weight,
            refused_splits,
            refused,
        } = other;
        budget.table.shared.join_seat::<Merge>(&mut self.seat, seat);
        budget.table.shared.load::<Learn>(&mut self.seat, DRAWN);
        self.tickets += tickets;
        self.weight += weight;
        self.refused_splits += refused_splits;
        self.refused |= refused;
    }

    /// Makes the limit of a rising budget the greater of itself and `to`, and answers it. It waits for nobody.
    pub fn raise(&mut self, budget: &Budget, to: u64) -> Result<u64, TicketFault>
        requires { IsOf budget.now self.old }
        ensures of { IsOf budget.now self.new }
        ensures ok { IfOk result (λ n. Raised self.old.has to n self.new.has) }
        ensures err { IfErr result (λ e. RefusesRaise budget.now.terms.rises to e × (self.new ≡ self.old)) }
    {
        if to > MAX_LIMIT {
            return Err(TicketFault::LimitTooLarge);
        }
        if !budget.terms.rises {
            return Err(TicketFault::Fixed);
        }
        let before = budget
            .table
            .shared
            .fetch_max::<Raise>(&mut self.seat, LIMIT, to);
        Ok(before.max(to))
    }

    /// The number of tickets drawn of the budget, where this pass is the whole: it stands for all passes of the budget,
    /// and by parts has all 2^62. Otherwise it is one of several, of which another is alive or was dropped, and it
    /// comes back, marked as shared. It is one load, and waits for nobody.
    pub fn total(self, budget: &Budget) -> Result<u64, Pass>
        requires { IsOf budget.now self }
        ensures count { IfOk result (λ n. n ≡ length self.has.tickets) }
        ensures whole { OnOk result (IsWhole budget.now.terms self.has) }
        ensures fixed { IfOk result (λ n. budget.now.terms.rises ≡ false →
            (n ≡ min (n + length self.has.refusals) budget.now.terms.limit) × AreBelow self.has.tickets n) }
        ensures err { IfErr result (λ p. IsOf budget.now p × (p.has ≡ with_mark self.has Mark.Shared)) }
        ensures several { OnErr result (IsOneOfSeveral budget.now.terms self.has) }
    {
        let Pass {
            mut seat,
            tickets,
            weight,
            refused_splits,
            refused,
        } = self;
        if is_whole(budget, &mut seat, weight + refused_splits) {
            return Ok(tickets);
        }
        Err(Pass {
            seat,
            tickets,
            weight,
            refused_splits,
            refused,
        })
    }
}

/// Whether all that were made are known to the pass of this seat. It marks the seat.
fn is_whole(budget: &Budget, seat: &mut Seat, known: u64) -> bool
    requires of { (seat.old.table_id ≡ budget.now.table) × (seat.old.me.0.terms ≡ budget.now.terms) }
    requires live { 0 < seat.old.me.0.weight }
    requires known { known ≡ seat.old.me.0.weight + seat.old.me.0.refused_splits }
    ensures seat { (seat.new.table_id ≡ seat.old.table_id) × (seat.new.me.1 ≡ seat.old.me.1) }
    ensures whole { result ≡ true → IsWhole budget.now.terms seat.old.me.0 }
    ensures several { result ≡ false → IsOneOfSeveral budget.now.terms seat.old.me.0 }
    ensures mark { MatchBool result
        (seat.new.me.0 ≡ with_mark seat.old.me.0 Mark.Sole) (seat.new.me.0 ≡ with_mark seat.old.me.0 Mark.Shared) }
{
    budget.table.shared.load::<Look>(seat, MADE) == known
}

/// The limit that a draw goes by: that of a budget that keeps it, or what a rising one has now.
fn limit_now(budget: &Budget, seat: &mut Seat) -> u64
    requires of { (seat.old.table_id ≡ budget.now.table) × (seat.old.me.0.terms ≡ budget.now.terms) }
    requires live { 0 < seat.old.me.0.weight }
    requires fixed { budget.now.terms.rises ≡ false → seat.old.me.0.floor ≡ budget.now.terms.limit }
    ensures seat { (seat.new.table_id ≡ seat.old.table_id) × (seat.new.me.1 ≡ seat.old.me.1) }
    ensures limit { result ≡ seat.new.me.0.floor }
    ensures asked { Asked seat.old.me.0 seat.new.me.0 }
{
    if budget.terms.rises {
        budget.table.shared.load::<ReadLimit>(seat, LIMIT)
    } else {
        budget.terms.limit
    }
}

/// The next ticket below the limit, where one is left.
fn next_below(budget: &Budget, seat: &mut Seat, limit: u64) -> Option<u64>
    requires of { (seat.old.table_id ≡ budget.now.table) × (seat.old.me.0.terms ≡ budget.now.terms) }
    requires live { 0 < seat.old.me.0.weight }
    requires limit { limit ≡ seat.old.me.0.floor }
    requires unrefused { draws_again seat.old.me.0.terms ≡ false → seat.old.me.0.refusals ≡ [] }
    ensures seat { (seat.new.table_id ≡ seat.old.table_id) × (seat.new.me.1 ≡ seat.old.me.1) }
    ensures some { IfSome result (λ k. Took seat.old.me.0 k seat.new.me.0) }
    ensures none { IfNone result (TookNone seat.old.me.0 seat.new.me.0) }
{
    if budget.terms.by_parts {
        win(budget, seat, limit)
    } else {
        take(budget, seat, limit)
    }
}

/// Draws the next number, which is used up where it is not below the limit.
fn take(budget: &Budget, seat: &mut Seat, limit: u64) -> Option<u64>
    requires of { (seat.old.table_id ≡ budget.now.table) × (seat.old.me.0.terms ≡ budget.now.terms) }
    requires live { 0 < seat.old.me.0.weight }
    requires limit { limit ≡ seat.old.me.0.floor }
    requires counted { seat.old.me.0.terms.by_parts ≡ false }
    requires unrefused { seat.old.me.0.refusals ≡ [] }
    ensures seat { (seat.new.table_id ≡ seat.old.table_id) × (seat.new.me.1 ≡ seat.old.me.1) }
    ensures some { IfSome result (λ k. Took seat.old.me.0 k seat.new.me.0) }
    ensures none { IfNone result (TookNone seat.old.me.0 seat.new.me.0) }
{
    let number = budget.table.shared.fetch_add::<Draw>(seat, DRAWN, 1);
    if number < limit { Some(number) } else { None }
}

/// Draws the next number, where it is below the limit. A race that is lost is another pass's ticket, so there are at
/// most as many as tickets are left.
fn win(budget: &Budget, seat: &mut Seat, limit: u64) -> Option<u64>
    requires of { (seat.old.table_id ≡ budget.now.table) × (seat.old.me.0.terms ≡ budget.now.terms) }
    requires live { 0 < seat.old.me.0.weight }
    requires limit { limit ≡ seat.old.me.0.floor }
    requires by_parts { seat.old.me.0.terms.by_parts ≡ true }
    ensures seat { (seat.new.table_id ≡ seat.old.table_id) × (seat.new.me.1 ≡ seat.old.me.1) }
    ensures some { IfSome result (λ k. Took seat.old.me.0 k seat.new.me.0) }
    ensures none { IfNone result (TookNone seat.old.me.0 seat.new.me.0) }
{
    let mut drawn = budget.table.shared.load::<Find>(seat, DRAWN);
    while drawn < limit {
        let found = budget
            .table
            .shared
            .compare_exchange::<Win>(seat, DRAWN, drawn, drawn + 1);
        if found == drawn {
            return Some(drawn);
        }
        drawn = found;
    }
    None
}
