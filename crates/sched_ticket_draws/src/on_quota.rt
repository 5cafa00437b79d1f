//! Draws on a quota.
ghost use Rattle.std.specs.Prelude.{◌≡◌, ◌/◌, ◌<◌, ◌≤◌, ◌+◌, ◌∷◌, length, Some, None, IfOk, IfErr, OnOk, OnErr};
ghost use Rattle.sched_ticket_quota.specs.Windows.{word_of};
ghost use Rattle.sched_ticket_quota.specs.View.{first_of_kind, part_of, without_part, with_change};
ghost use Rattle.sched_ticket_quota.specs.Steps.{IsSound};
ghost use Rattle.sched_ticket_quota.specs.Held.{IsOf, AreTerms};
ghost use Rattle.sched_ticket_quota.specs.Whole.{IsWhole};
ghost use Rattle.sched_ticket_quota.specs.Calls.{RefusesTerms, Deposited, DepositedOf, Drew, DrawRefused, Told};
ghost use Rattle.sched_ticket_quota.specs.Calls.{RefusesChange, Hands, NotHanded, Joined};
ghost use Rattle.sched_ticket_draws.specs.Splits.{QuotaSplitFails};
ghost use Rattle.sched_ticket_draws.specs.Quotas.{IsPart};

use crate::draws::{Draws, Quiet};
use crate::refers::RefersTo;
use sched_ticket_quota::{NotBack, Pass, Quota, QuotaFault, Refusal, Terms, Usage, WeightTooLarge};
use sched_time::{Millis, Moment};
use std::alloc::Global;
use std::marker::Model;
use std::sync::Arc;

/// A pass of a quota, with its quota. Contracts see it as both.
#[derive(Drop)]
pub struct OnQuota<Q: RefersTo<Quota>> {
    pass: Pass,
    quota: Q,
}

impl<Q: RefersTo<Quota>> Model for OnQuota<Q> {
    ghost use Rattle.sched_ticket_quota.specs.Held.{IsOf};
    ghost use Rattle.sched_ticket_draws.specs.Quotas.{OfQuota};

    ghost Value = { OfQuota };

    ghost view = { λ d. record { pass = d.pass; quota = Q.target d.quota } };

    ghost invariant = { λ d. IsOf (Q.target d.quota) d.pass };
}

impl<Q: RefersTo<Quota>> OnQuota<Q> {
    /// What draws on this quota with this pass of it.
    pub fn new(pass: Pass, quota: Q) -> OnQuota<Q>
        requires { IsOf (Q.target quota) pass }
        ensures pass { result.pass ≡ pass }
        ensures quota { result.quota ≡ Q.target quota }
    {
        OnQuota { pass, quota }
    }

    /// Counts a request at the moment `now`, as `Pass::deposit` does: once, before its first run.
    pub fn deposit(&mut self, now: Moment)
        ensures quota { self.new.quota ≡ self.old.quota }
        ensures counted { Deposited self.old.quota now self.old.pass.has self.new.pass.has }
        ensures tickets { self.new.pass.has.tickets ≡ self.old.pass.has.tickets }
        ensures latest { self.new.pass.latest ≡ self.old.pass.latest }
    {
        self.pass.deposit(self.quota.target(), now);
    }

    /// Counts so many requests at once at the moment `now`, as `Pass::deposit_of` does. `WeightTooLarge` where they are
    /// more than the pass has parts.
    pub fn deposit_of(&mut self, now: Moment, requests: u64) -> Result<(), WeightTooLarge>
        ensures quota { self.new.quota ≡ self.old.quota }
        ensures counted { OnOk result
            (DepositedOf self.old.quota now requests self.old.pass.has self.new.pass.has) }
        ensures light { OnOk result (requests ≤ self.old.pass.has.weight) }
        ensures err { IfErr result (λ _. (self.old.pass.has.weight < requests) × (self.new ≡ self.old)) }
        ensures tickets { self.new.pass.has.tickets ≡ self.old.pass.has.tickets }
        ensures latest { self.new.pass.latest ≡ self.old.pass.latest }
    {
        self.pass.deposit_of(self.quota.target(), now, requests)
    }

    /// A ticket of the window of `now`, or of the latest one where that is later. `WindowOut` where so many were given
    /// there as its requests allow, with the moment at which the next window begins, and `RacesLost` where other draws
    /// came first 64 times in this call. What was refused may draw again.
    pub fn ticket(&mut self, now: Moment) -> Result<u64, Refusal>
        ensures quota { self.new.quota ≡ self.old.quota }
        ensures ok { IfOk result (λ t. Drew self.old.quota now self.old.pass.has t self.new.pass.has) }
        ensures err { IfErr result (λ why. DrawRefused self.old.quota now self.old.pass.has why self.new.pass.has) }
        ensures gained { IfOk result (λ t. self.new.pass.has.tickets ≡ t ∷ self.old.pass.has.tickets) }
        ensures latest { IfOk result (λ t. self.new.pass.latest ≡ Some t) }
        ensures kept { IfErr result (λ _. self.new.pass.has.tickets ≡ self.old.pass.has.tickets) }
        ensures still { OnErr result (self.new.pass.latest ≡ self.old.pass.latest) }
    {
        self.pass.draw(self.quota.target(), now)
    }

    /// Hands the latest ticket back that was drawn with this pass, or with one joined into it since, as
    /// `Pass::hand_back` does. One less is granted then.
    pub fn hand_back(&mut self) -> Result<(), NotBack>
        ensures quota { self.new.quota ≡ self.old.quota }
        ensures ok { OnOk result (Hands self.old.pass self.new.pass) }
        ensures granted { OnOk result
            (length self.old.pass.has.tickets ≡ length self.new.pass.has.tickets + 1) }
        ensures err { IfErr result (λ why. NotHanded self.old.pass why self.new.pass) }
    {
        self.pass.hand_back(self.quota.target())
    }

    /// Sets the reserve and the share of the quota, as `Pass::set_terms` does: each draw goes by them from now on, with
    /// any pass. The period stays. Terms that no quota is made with are refused, and nothing changes.
    pub fn set_terms(&mut self, reserve: u64, share: u64) -> Result<(), QuotaFault>
        ensures quota { self.new.quota ≡ self.old.quota }
        ensures ok { OnOk result ((reserve ≤ 4294967296) × (share ≤ 1000000)) }
        ensures changed { OnOk result
            (self.new.pass.has ≡ with_change self.old.pass.has (word_of reserve share)) }
        ensures latest { self.new.pass.latest ≡ self.old.pass.latest }
        ensures err { IfErr result (λ e. RefusesChange reserve share e × (self.new ≡ self.old)) }
    {
        self.pass.set_terms(self.quota.target(), reserve, share)
    }

    /// What was asked of the window of `now`, or of the latest one where that is later, what it has given and what it
    /// has left, and when the next window begins.
    pub fn seen(&mut self, now: Moment) -> Usage
        ensures quota { self.new.quota ≡ self.old.quota }
        ensures told { Told self.old.quota now self.old.pass.has self.new.pass.has result }
        ensures latest { self.new.pass.latest ≡ self.old.pass.latest }
    {
        self.pass.seen(self.quota.target(), now)
    }

    /// What draws on the same quota, and has no ticket: `TooManyPasses` where this pass has one part, and `NoMemory`
    /// where the quota can't be shared once more. The tickets of this one stay.
    pub fn split(&mut self) -> Result<OnQuota<Q>, QuotaFault>
        ensures quota { self.new.quota ≡ self.old.quota }
        ensures ok { IfOk result (λ d. (d.quota ≡ self.old.quota) × (d.pass.has ≡ part_of self.old.pass.has)) }
        ensures none { IfOk result (λ d. d.pass.latest ≡ None) }
        ensures kept { OnOk result
            ((1 < self.old.pass.has.weight) × (self.new.pass.has ≡ without_part self.old.pass.has)) }
        ensures latest { self.new.pass.latest ≡ self.old.pass.latest }
        ensures err { IfErr result (QuotaSplitFails self.old.pass.has) }
        ensures unchanged { IfErr result (λ _. self.new ≡ self.old) }
    {
        let Ok(quota) = self.quota.again() else {
            return Err(QuotaFault::NoMemory);
        };
        let pass = self.pass.split(self.quota.target())?;
        Ok(OnQuota { pass, quota })
    }

    /// Joins what the other has into this one, which may then hand back the latest ticket of the other, where that may,
    /// or else its own.
    #[inline(always)]
    pub fn take_in(&mut self, other: OnQuota<Q>)
        requires { other.quota ≡ self.old.quota }
        ensures quota { self.new.quota ≡ self.old.quota }
        ensures joined { Joined self.old.pass other.pass self.new.pass }
        ensures sound { IsSound self.new.pass.has }
    {
        self.pass.take_in(other.pass, self.quota.target());
    }

    /// The number of tickets given out, where this pass has all parts of the quota, which ends with it. Otherwise it is
    /// one of several, of which another is alive or was dropped, and comes back as it was.
    pub fn close(self) -> Result<u64, OnQuota<Q>>
        ensures count { IfOk result (λ n. n ≡ length self.pass.has.tickets) }
        ensures whole { OnOk result (IsWhole self.quota.terms self.pass.has) }
        ensures err { IfErr result (IsPart self) }
    {
        let OnQuota { pass, quota } = self;
        match pass.total(quota.target()) {
            Ok(tickets) => Ok(tickets),
            Err(pass) => Err(OnQuota { pass, quota }),
        }
    }

    /// The pass, with all its tickets, and the quota.
    pub fn into_parts(self) -> (Pass, Q)
        ensures pass { result.0 ≡ self.pass }
        ensures quota { Q.target result.1 ≡ self.quota }
        ensures of { IsOf self.quota result.0 }
    {
        let OnQuota { pass, quota } = self;
        (pass, quota)
    }
}

impl OnQuota<Arc<Quota>> {
    /// What draws on a new quota of these terms, that carries or does not. The window of `now` is open, and windows are
    /// counted from it on.
    pub fn of_terms(
        alloc: Global,
        now: Moment,
        terms: Terms,
        carries: bool,
    ) -> Result<OnQuota<Arc<Quota>>, QuotaFault>
        ensures ok { IfOk result (λ d. (d.quota.terms ≡ terms) × (d.pass.has ≡ first_of_kind carries terms)) }
        ensures latest { IfOk result (λ d. d.pass.latest ≡ None) }
        ensures start { IfOk result (λ d. (d.quota.start ≡ now / terms.period) × (d.quota.carries ≡ carries)) }
        ensures terms { OnOk result (AreTerms terms) }
        ensures err { IfErr result (RefusesTerms terms) }
    {
        let made = if carries {
            Quota::carrying(alloc, now, terms)
        } else {
            Quota::new(alloc, now, terms)
        };
        let (quota, pass) = made?;
        match Arc::new(alloc, quota) {
            Ok(quota) => Ok(OnQuota { pass, quota }),
            Err(_) => Err(QuotaFault::NoMemory),
        }
    }
}

impl<Q: RefersTo<Quota>> Draws for OnQuota<Q> {
    ghost use Rattle.sched_ticket_draws.specs.Quotas.{quota_grants, quota_lawful};

    ghost grants = { quota_grants };

    ghost lawful = { quota_lawful };

    fn admit(&mut self, now: Moment) -> bool {
        self.pass.deposit(self.quota.target(), now);
        true
    }

    fn draw(&mut self, now: Moment) -> bool {
        match self.pass.draw(self.quota.target(), now) {
            Ok(_) => true,
            Err(_) => false,
        }
    }

    fn succeeded(&mut self, _now: Moment) {}

    fn failed(&mut self, _now: Moment, _code: Millis) {}

    fn ended(&mut self, _unused: bool) {}

    fn granted(&self) -> u64 {
        self.pass.granted()
    }
}

impl<Q: RefersTo<Quota>> Quiet for OnQuota<Q> {
    ghost use Rattle.sched_ticket_draws.specs.Quotas.{quota_quiet};

    ghost quiet = { quota_quiet };
}
