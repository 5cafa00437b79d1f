//! The board: jobs under locks, with watchers and cancels beside the workers.
ghost use Rattle.std.specs.Prelude.{◌≡◌, ◌+◌, ◌<◌, ◌≤◌, ◌↔◌, ℕ, length, None, IsTrue, IsSome, IfOk, IfErr, OnOk};
ghost use Rattle.std.specs.Prelude.{IfSome};
ghost use Rattle.sched_task_law.specs.Past.{nothing_yet};
ghost use Rattle.sched_pool_job.specs.Jobs.{IsSeen};
ghost use Rattle.sched_pool.specs.Boards.{Boarded, RefusesAdd, RefusesShares, SharedOut};

use crate::faults::{AddFault, AddRefused, ShareFault};
use sched_effect::Effect;
use sched_pool_claim::{Claimed, Claims, Share};
use sched_pool_job::{Job, Seen};
use sched_retry::Retry;
use sched_task::Task;
use sched_ticket::{Budget, Naming};
use sched_ticket_draws::OnBudget;
use std::alloc::Global;
use std::marker::Model;
use std::sync::{Mutex, Wait};

/// The most jobs of a board.
pub const MAX_JOBS: usize = 4096;

/// The most workers of a board.
pub const MAX_WORKERS: usize = 16;

/// Retries that draw on one budget, each under a lock of its own. Contracts see it as the number of its jobs, and the
/// name of their claims once they were shared out.
#[derive(Drop)]
pub struct Board<'a, X: Effect, N: Naming> {
    pub(crate) jobs: Vec<Mutex<Job<'a, X, N>>>,
    pub(crate) budget: &'a Budget,
    pub(crate) claims: Option<Claims>,
}

impl<'a, X: Effect, N: Naming> Model for Board<'a, X, N> {
    ghost use Rattle.std.specs.Prelude.{vec_len};
    ghost use Rattle.sched_pool.specs.Boards.{Boarded, IsBoard};

    ghost Value = { Boarded };

    ghost view = { λ b. record { jobs = vec_len b.jobs; claims = b.claims } };

    ghost invariant = { λ b. IsBoard N.budget b.budget.now (vec_len b.jobs) b.claims };
}

impl<'a, X: Effect, N: Naming> Claimed for Board<'a, X, N> {
    ghost claims = { λ b. b.claims };

    fn claims(&self) -> Option<&Claims> {
        self.claims.as_ref()
    }
}

impl<'a, X: Effect, N: Naming> Board<'a, X, N> {
    /// A board of no jobs. It takes no memory.
    pub fn new(alloc: Global, budget: &'a Budget) -> Board<'a, X, N>
        requires { budget.now ≡ N.budget }
        ensures { result ≡ record { jobs = 0; claims = None } }
    {
        Board {
            jobs: Vec::new(alloc),
            budget,
            claims: None,
        }
    }

    /// How many jobs it has. They are numbered from 0 on.
    pub fn len(&self) -> usize
        ensures len { result ≡ self.now.jobs }
        ensures few { result ≤ 4096 }
    {
        self.jobs.len()
    }

    /// Adds a retry that was not polled and whose pass has no ticket yet, and answers its number. A refusal hands it
    /// back and leaves the board as it was: `Sealed` where the jobs were shared out, `BoardFull` where there are 4,096
    /// jobs, `NoMemory` where a growth was refused.
    pub fn add(&mut self, retry: Retry<X, OnBudget<&'a Budget>>) -> Result<usize, AddRefused<'a, X>>
        requires of { retry.drawing.budget ≡ N.budget }
        requires had { retry.had ≡ 0 }
        requires new { retry.past ≡ nothing_yet retry.past.driver None }
        ensures number { IfOk result (λ job. job ≡ self.old.jobs) }
        ensures open { OnOk result ((self.old.claims ≡ None) × (self.old.jobs < 4096)) }
        ensures added { OnOk result (self.new ≡ record self.old { jobs = self.old.jobs + 1 }) }
        ensures err { IfErr result (λ refused. RefusesAdd self.old refused.fault × (refused.retry ≡ retry.entry)) }
        ensures unchanged { IfErr result (λ _. self.new ≡ self.old) }
    {
        let fault = if self.claims.is_some() {
            AddFault::Sealed
        } else if self.jobs.len() >= MAX_JOBS {
            AddFault::BoardFull
        } else if self.jobs.reserve(1).is_err() {
            AddFault::NoMemory
        } else {
            let number = self.jobs.len();
            // For the proof alone: by the law that this look tells, a retry that was not polled has no ending to take.
            let _ = retry.over();
            self.jobs.push_reserved(Mutex::new(Job::new(retry)));
            return Ok(number);
        };
        Err(AddRefused { retry, fault })
    }

    /// What the job with this number shows while its lock is held, or `None` where there is no such job.
    pub fn watch(&self, rt: &impl Wait, job: usize) -> Option<Seen>
        ensures there { IsSome result ↔ (job < self.now.jobs) }
        ensures law { IfSome result IsSeen }
    {
        let job = self.jobs.get(job)?;
        let seen = job.lock(rt).seen();
        Some(seen)
    }

    /// Cancels the job with this number, as `Retry::cancel` does. `false` where there is no such job.
    pub fn cancel(&self, rt: &impl Wait, job: usize) -> bool
        ensures { IsTrue result ↔ (job < self.now.jobs) }
    {
        match self.jobs.get(job) {
            Some(job) => {
                job.lock(rt).cancel();
                true
            }
            None => false,
        }
    }

    /// Shares the jobs out to so many workers, 1 to 16, and takes no further job. A refusal leaves the board as it was:
    /// `BadWorkers` for another number, `Sealed` where the jobs were shared out before, `NoMemory` where a growth was
    /// refused.
    pub fn shares(&mut self, alloc: Global, workers: usize) -> Result<Vec<Share>, ShareFault>
        ensures ok { IfOk result (λ shares. SharedOut self.old workers shares.items self.new) }
        ensures err { IfErr result (λ fault. RefusesShares self.old workers fault × (self.new ≡ self.old)) }
    {
        if workers < 1 || workers > MAX_WORKERS {
            return Err(ShareFault::BadWorkers);
        }
        if self.claims.is_some() {
            return Err(ShareFault::Sealed);
        }
        let Ok((claims, shares)) = Claims::share_out(alloc, self.jobs.len(), workers) else {
            return Err(ShareFault::NoMemory);
        };
        self.claims = Some(claims);
        Ok(shares)
    }
}
