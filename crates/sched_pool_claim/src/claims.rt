//! The jobs that are to be claimed, and making and taking back their shares.
ghost use Rattle.std.specs.Prelude.{◌≡◌, ℕ, ◌<◌, ◌≤◌, false, length, vec_len, All, Option, Some, IfOk, IfSome};
ghost use Rattle.std.specs.Prelude.{option_copied};
ghost use Rattle.sched_ticket.specs.Lists.{times, once_below};
ghost use Rattle.sched_ticket.specs.View.{terms};
ghost use Rattle.sched_ticket.specs.Held.{Name, IsOf};
ghost use Rattle.sched_pool_claim.specs.Portion.{IsNewOf, IsPartOf, IsUnused, claims_of, refusals_of};

use crate::shares::Share;
use sched_ticket::{Budget, Pass};
use sched_time::NoMemory;
use std::alloc::Global;
use std::marker::Model;

/// A number of jobs, numbered from 0 on, that shares claim. Contracts see it as the name of its budget, whose limit is
/// the number of jobs.
#[derive(Drop)]
pub struct Claims {
    pub(crate) budget: Budget,
}

impl Model for Claims {
    ghost use Rattle.std.specs.Prelude.{◌≡◌, false};
    ghost use Rattle.sched_ticket.specs.Held.{Name};

    ghost Value = { Name };

    ghost view = { λ c. c.budget };

    ghost invariant = { λ c. c.budget.terms.rises ≡ false };
}

/// What has jobs to claim, once they were shared out.
pub trait Claimed {
    // The name of its claims.
    ghost claims: { Self → Option Name };

    /// Its claims, or `None` before its jobs were shared out.
    fn claims(&self) -> Option<&Claims>
        ensures { option_copied result ≡ claims self.now };
}

impl Claimed for Claims {
    ghost claims = { λ c. Some c };

    fn claims(&self) -> Option<&Claims> {
        Some(self)
    }
}

impl Claims {
    /// So many jobs, and a share of them for each of one or more workers, with room for all jobs.
    pub fn share_out(
        alloc: Global,
        jobs: usize,
        workers: usize,
    ) -> Result<(Claims, Vec<Share>), NoMemory>
        requires jobs { jobs ≤ 4294967296 }
        requires workers { 0 < workers }
        ensures jobs { IfOk result (λ r. r.0.terms ≡ terms jobs false) }
        ensures shares { IfOk result (λ r. All (IsNewOf r.0) r.1.items) }
        ensures workers { IfOk result (λ r. vec_len r.1 ≡ workers) }
    {
        let Ok((budget, pass)) = Budget::new(alloc, jobs as u64) else {
            return Err(NoMemory);
        };
        let shares = split_off(alloc, &budget, pass, jobs, workers)?;
        Ok((Claims { budget }, shares))
    }

    /// Takes shares back: no job was claimed twice over all of them. Where they are all that were made, it answers how
    /// many jobs were claimed, which are those below that number, and all jobs where a share was answered `None`.
    pub fn settle(self, shares: Vec<Share>) -> Option<u64>
        requires { All (IsPartOf self) shares.items }
        ensures once { (job : ℕ) → claims_of job shares.items ≤ 1 }
        ensures below { IfSome result (λ n. (job : ℕ) → claims_of job shares.items ≡ once_below job n) }
        ensures all { IfSome result (λ n. 0 < refusals_of shares.items → n ≡ self.terms.limit) }
    {
        let Claims { budget } = self;
        let pass = join_all(&budget, shares)?;
        budget.close(pass).ok()
    }
}

/// A share for each worker.
fn split_off(
    alloc: Global,
    budget: &Budget,
    mut pass: Pass,
    jobs: usize,
    workers: usize,
) -> Result<Vec<Share>, NoMemory>
    requires jobs { budget.now.terms ≡ terms jobs false }
    requires pass { IsUnused budget.now pass }
    requires workers { 0 < workers }
    ensures shares { IfOk result (λ v. All (IsNewOf budget.now) v.items) }
    ensures workers { IfOk result (λ v. vec_len v ≡ workers) }
{
    let mut shares = Vec::new(alloc);
    for _ in 1..workers {
        let Ok(part) = pass.split(budget) else {
            return Err(NoMemory);
        };
        shares.push(Share::start(part, Vec::with_capacity(alloc, jobs)?))?;
    }
    shares.push(Share::start(pass, Vec::with_capacity(alloc, jobs)?))?;
    Ok(shares)
}

/// One pass with what all shares claimed, or `None` where there is no share.
fn join_all(budget: &Budget, mut shares: Vec<Share>) -> Option<Pass>
    requires { All (IsPartOf budget.now) shares.items }
    ensures of { IfSome result (IsOf budget.now) }
    ensures claims { IfSome result (λ p. (job : ℕ) → times job p.has.tickets ≡ claims_of job shares.items) }
    ensures refusals { IfSome result (λ p. length p.has.refusals ≡ refusals_of shares.items) }
    ensures once { (job : ℕ) → claims_of job shares.items ≤ 1 }
{
    let mut pass = shares.pop()?.into_pass();
    while let Some(share) = shares.pop() {
        pass = pass.join(share.into_pass(), budget);
    }
    Some(pass)
}
