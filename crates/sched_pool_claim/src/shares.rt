//! A worker's share: the right to claim jobs, and those that it claimed and has not closed.
ghost use Rattle.std.specs.Prelude.{◌≡◌, ℕ, ◌<◌, ◌≤◌, [], ◌∷◌, length, vec_len, vec_capacity, false, None, All, IfSome};
ghost use Rattle.std.specs.Prelude.{IfNone, MatchOption, remove, slice_index_or};
ghost use Rattle.sched_ticket.specs.Lists.{times};
ghost use Rattle.sched_pool_claim.specs.Portion.{IsShareOf, Took, TookNone};

use crate::claims::Claimed;
use sched_ticket::Pass;
use std::marker::Model;

/// One worker's right to claim jobs. Contracts see it as its pass, whose tickets are the jobs that it claimed, and
/// those of them that are still active.
#[derive(Drop)]
pub struct Share {
    pub(crate) pass: Pass,
    /// The jobs claimed and not closed, in the order claimed, with room for all jobs.
    active: Vec<usize>,
}

impl Model for Share {
    ghost use Rattle.std.specs.Prelude.{vec_capacity};
    ghost use Rattle.sched_pool_claim.specs.Portion.{Portion, IsPortion};

    ghost Value = { Portion };

    ghost view = { λ s. record { pass = s.pass; active = s.active.items } };

    ghost invariant = { λ s. IsPortion s.pass s.active.items (vec_capacity s.active) };
}

impl Share {
    pub(crate) fn start(pass: Pass, active: Vec<usize>) -> Share
        requires kept { pass.has.terms.rises ≡ false }
        requires room { pass.has.terms.limit ≤ vec_capacity active }
        requires none { (active.items ≡ []) × (pass.has.tickets ≡ []) }
        ensures { (result.pass ≡ pass) × (result.active ≡ []) }
    {
        Share { pass, active }
    }

    /// The next job, or `None`, and then `None` for good: every job is claimed. It waits for nobody.
    pub fn claim<J: Claimed>(&mut self, jobs: &J) -> Option<usize>
        requires { IsShareOf (J.claims jobs.now) self.old }
        ensures of { IsShareOf (J.claims jobs.now) self.new }
        ensures some { IfSome result (λ job. Took self.old job self.new) }
        ensures tickets { MatchOption result (self.new.pass.has.tickets ≡ self.old.pass.has.tickets)
            (λ job. (self.new.pass.has.tickets ≡ job ∷ self.old.pass.has.tickets)
            × (length self.old.pass.has.tickets ≤ job) × (job < self.old.pass.has.terms.limit)) }
        ensures none { IfNone result (TookNone self.old self.new) }
        ensures again { 0 < length self.old.pass.has.refusals → (result ≡ None) × (self.new ≡ self.old) }
    {
        let claims = jobs.claims()?;
        let job = self.pass.draw(&claims.budget)? as usize;
        self.active.push_reserved(job);
        Some(job)
    }

    /// The jobs that it claimed and has not closed, in the order claimed.
    pub fn active(&self) -> &[usize]
        ensures active { result.now ≡ self.now.active }
        ensures below { All (λ job. job < self.now.pass.has.terms.limit) self.now.active }
    {
        &self.active
    }

    /// Closes the active job at this place, which is the job answered. It stays claimed.
    pub fn close(&mut self, at: usize) -> usize
        requires { at < length self.old.active }
        ensures job { result ≡ slice_index_or self.old.active at result }
        ensures active { self.new.active ≡ remove self.old.active at }
        ensures pass { self.new.pass ≡ self.old.pass }
    {
        self.active.remove(at)
    }

    pub(crate) fn into_pass(self) -> Pass
        ensures pass { result ≡ self.pass }
        ensures once { (job : ℕ) → times job result.has.tickets ≤ 1 }
    {
        let Share { pass, active: _ } = self;
        pass
    }
}
