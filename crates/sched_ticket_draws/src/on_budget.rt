//! Draws on a budget of tickets.
ghost use Rattle.std.specs.Prelude.{◌≡◌, ◌<◌, ◌≤◌, ◌+◌, true, false, length, min, None};
ghost use Rattle.std.specs.Prelude.{IfOk, IfErr, OnOk, IfSome, IfNone};
ghost use Rattle.sched_ticket.specs.Held.{IsOf};
ghost use Rattle.sched_ticket.specs.Lists.{AreBelow};
ghost use Rattle.sched_ticket.specs.View.{parted_terms, first_view, draws_again, part_of, with_split, joined_view};
ghost use Rattle.sched_ticket.specs.Steps.{IsSound};
ghost use Rattle.sched_ticket.specs.Whole.{IsWhole};
ghost use Rattle.sched_ticket.specs.Calls.{Drew, DrawRefused, Raised, RefusesLimit, RefusesRaise};
ghost use Rattle.sched_ticket_draws.specs.Splits.{SplitFails};
ghost use Rattle.sched_ticket_draws.specs.Budgets.{IsPart};

use crate::draws::{Draws, Quiet};
use crate::refers::RefersTo;
use sched_ticket::{Budget, Pass, TicketFault};
use sched_time::{Millis, Moment};
use std::alloc::Global;
use std::marker::Model;
use std::sync::Arc;

/// A pass of a fixed or a rising budget, with its budget. Contracts see it as both.
#[derive(Drop)]
pub struct OnBudget<B: RefersTo<Budget>> {
    pass: Pass,
    budget: B,
}

impl<B: RefersTo<Budget>> Model for OnBudget<B> {
    ghost use Rattle.sched_ticket.specs.Held.{IsOf};
    ghost use Rattle.sched_ticket_draws.specs.Budgets.{OfBudget};

    ghost Value = { OfBudget };

    ghost view = { λ d. record { pass = d.pass; budget = B.target d.budget } };

    ghost invariant = { λ d. IsOf (B.target d.budget) d.pass };
}

impl<B: RefersTo<Budget>> OnBudget<B> {
    /// What draws on this budget with this pass of it.
    pub fn new(pass: Pass, budget: B) -> OnBudget<B>
        requires { IsOf (B.target budget) pass }
        ensures pass { result.pass ≡ pass }
        ensures budget { result.budget ≡ B.target budget }
    {
        OnBudget { pass, budget }
    }

    /// A ticket below the limit, or None where none is left. Of a budget that counts its passes, or that never rises,
    /// it is then None for good.
    pub fn ticket(&mut self) -> Option<u64>
        ensures budget { self.new.budget ≡ self.old.budget }
        ensures some { IfSome result (λ k. Drew self.old.pass.has k self.new.pass.has) }
        ensures none { IfNone result (DrawRefused self.old.pass.has self.new.pass.has) }
        ensures again { draws_again self.old.pass.has.terms ≡ false → 0 < length self.old.pass.has.refusals →
            (result ≡ None) × (self.new ≡ self.old) }
    {
        self.pass.draw(self.budget.target())
    }

    /// What draws on the same budget, and has no ticket: `TooManyPasses` where this pass has one part, or its budget as
    /// many passes as it counts, and `NoMemory` where the budget can't be shared once more. The tickets of this one
    /// stay.
    pub fn split(&mut self) -> Result<OnBudget<B>, TicketFault>
        ensures budget { self.new.budget ≡ self.old.budget }
        ensures ok { IfOk result (λ d. (d.budget ≡ self.old.budget) × (d.pass.has ≡ part_of self.old.pass.has)) }
        ensures kept { OnOk result (self.new.pass.has ≡ with_split self.old.pass.has) }
        ensures err { IfErr result (SplitFails self.old.pass.has self.new.pass.has) }
    {
        let Ok(budget) = self.budget.again() else {
            return Err(TicketFault::NoMemory);
        };
        let pass = self.pass.split(self.budget.target())?;
        Ok(OnBudget { pass, budget })
    }

    /// Joins what the other has into this one, which is then refused a ticket where either was.
    #[inline(always)]
    pub fn take_in(&mut self, other: OnBudget<B>)
        requires { other.budget ≡ self.old.budget }
        ensures budget { self.new.budget ≡ self.old.budget }
        ensures joined { self.new.pass.has ≡ joined_view self.old.pass.has other.pass.has }
        ensures sound { IsSound self.new.pass.has }
    {
        self.pass.take_in(other.pass, self.budget.target());
    }

    /// Makes the limit of a rising budget the greater of itself and `to`, and answers it.
    pub fn raise(&mut self, to: u64) -> Result<u64, TicketFault>
        ensures budget { self.new.budget ≡ self.old.budget }
        ensures ok { IfOk result (λ n. Raised self.old.pass.has to n self.new.pass.has) }
        ensures err { IfErr result (RefusesRaise self.old.budget.terms.rises to) }
        ensures unchanged { IfErr result (λ _. self.new ≡ self.old) }
    {
        self.pass.raise(self.budget.target(), to)
    }

    /// The number of tickets drawn, where this pass stands for all passes of the budget, which ends with it. Otherwise
    /// it is one of several, of which another is alive or was dropped, and comes back, marked as shared.
    pub fn close(self) -> Result<u64, OnBudget<B>>
        ensures count { IfOk result (λ n. n ≡ length self.pass.has.tickets) }
        ensures whole { OnOk result (IsWhole self.budget.terms self.pass.has) }
        ensures fixed { IfOk result (λ n. self.budget.terms.rises ≡ false →
            (n ≡ min (n + length self.pass.has.refusals) self.budget.terms.limit)
            × AreBelow self.pass.has.tickets n) }
        ensures err { IfErr result (IsPart self) }
    {
        let OnBudget { pass, budget } = self;
        match pass.total(budget.target()) {
            Ok(tickets) => Ok(tickets),
            Err(pass) => Err(OnBudget { pass, budget }),
        }
    }

    /// The pass, with all its tickets, and the budget.
    pub fn into_parts(self) -> (Pass, B)
        ensures pass { result.0 ≡ self.pass }
        ensures budget { B.target result.1 ≡ self.budget }
        ensures of { IsOf self.budget result.0 }
    {
        let OnBudget { pass, budget } = self;
        (pass, budget)
    }
}

impl OnBudget<Arc<Budget>> {
    /// What draws on a new budget of `limit` tickets by parts.
    pub fn fixed(alloc: Global, limit: u64) -> Result<OnBudget<Arc<Budget>>, TicketFault>
        ensures ok { IfOk result
            (λ d. (d.budget.terms ≡ parted_terms limit false) × (d.pass.has ≡ first_view (parted_terms limit false))) }
        ensures limit { OnOk result (limit ≤ 4294967296) }
        ensures err { IfErr result (RefusesLimit limit) }
    {
        let (budget, pass) = Budget::by_parts(alloc, limit)?;
        match Arc::new(alloc, budget) {
            Ok(budget) => Ok(OnBudget { pass, budget }),
            Err(_) => Err(TicketFault::NoMemory),
        }
    }

    /// What draws on a new budget by parts whose limit is `limit` and may rise.
    pub fn rising(alloc: Global, limit: u64) -> Result<OnBudget<Arc<Budget>>, TicketFault>
        ensures ok { IfOk result
            (λ d. (d.budget.terms ≡ parted_terms limit true) × (d.pass.has ≡ first_view (parted_terms limit true))) }
        ensures limit { OnOk result (limit ≤ 4294967296) }
        ensures err { IfErr result (RefusesLimit limit) }
    {
        let (budget, pass) = Budget::rising_by_parts(alloc, limit)?;
        match Arc::new(alloc, budget) {
            Ok(budget) => Ok(OnBudget { pass, budget }),
            Err(_) => Err(TicketFault::NoMemory),
        }
    }
}

impl<B: RefersTo<Budget>> Draws for OnBudget<B> {
    ghost use Rattle.sched_ticket_draws.specs.Budgets.{budget_grants, budget_lawful};

    ghost grants = { budget_grants };

    ghost lawful = { budget_lawful };

    fn admit(&mut self, _now: Moment) -> bool {
        true
    }

    fn draw(&mut self, _now: Moment) -> bool {
        match self.pass.draw(self.budget.target()) {
            Some(_) => true,
            None => false,
        }
    }

    fn succeeded(&mut self, _now: Moment) {}

    fn failed(&mut self, _now: Moment, _code: Millis) {}

    fn ended(&mut self, _unused: bool) {}

    fn granted(&self) -> u64 {
        self.pass.count()
    }
}

impl<B: RefersTo<Budget>> Quiet for OnBudget<B> {
    ghost use Rattle.sched_ticket_draws.specs.Budgets.{budget_quiet};

    ghost quiet = { budget_quiet };
}
