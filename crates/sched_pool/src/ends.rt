//! Taking a board back.
ghost use Rattle.std.specs.Prelude.{◌≡◌, ◌≤◌, [], vec_len, vec_capacity, IfOk, IfErr};
ghost use Rattle.sched_ticket.specs.Held.{IsOf};
ghost use Rattle.sched_pool.specs.Ends.{IsEnd};

use crate::boards::Board;
use sched_effect::Effect;
use sched_pool_job::Job;
use sched_retry::RetryEnd;
use sched_ticket::{Budget, Naming, Pass};
use std::alloc::Global;
use std::sync::Mutex;

/// A board that was taken back.
#[derive(Drop)]
pub struct PoolEnd<X: Effect> {
    /// The jobs, in the order of their numbers.
    pub jobs: Vec<RetryEnd<X>>,
    /// One pass for all jobs, and for the pass that was handed in.
    pub pass: Pass,
    /// How many tickets the jobs were granted.
    pub granted: u64,
}

impl<'a, X: Effect, N: Naming> Board<'a, X, N> {
    /// Takes all jobs back and joins their passes with this one. Where memory is refused, the board and the pass come
    /// back as they were.
    pub fn finish(self, alloc: Global, pass: Pass) -> Result<PoolEnd<X>, (Board<'a, X, N>, Pass)>
        requires { IsOf N.budget pass }
        ensures end { IfOk result (λ e. IsEnd N.budget self.entry.jobs pass e.jobs.items e.pass e.granted) }
        ensures err { IfErr result (λ r. (r.0 ≡ self.entry) × (r.1 ≡ pass)) }
    {
        let Ok(ends) = Vec::with_capacity(alloc, self.jobs.len()) else {
            return Err((self, pass));
        };
        let Board {
            jobs,
            budget,
            claims: _,
        } = self;
        let end = take_back(jobs, budget, pass, ends);
        Ok(end)
    }
}

// Takes the jobs back in order, into a list that has room for them.
fn take_back<X: Effect, N: Naming>(
    jobs: Vec<Mutex<Job<'_, X, N>>>,
    budget: &Budget,
    mut pass: Pass,
    mut ends: Vec<RetryEnd<X>>,
) -> PoolEnd<X>
    requires name { budget.now ≡ N.budget }
    requires of { IsOf N.budget pass }
    requires room { vec_len jobs ≤ vec_capacity ends }
    requires none { ends.items ≡ [] }
    ensures { IsEnd N.budget (vec_len jobs.entry) pass result.jobs.items result.pass result.granted }
{
    let handed_in = pass.count();
    for job in jobs {
        let (end, mine) = job.into_inner().into_end();
        pass = pass.join(mine, budget);
        ends.push_reserved(end);
    }
    let granted = pass.count() - handed_in;
    PoolEnd {
        jobs: ends,
        pass,
        granted,
    }
}
