//! Pools on threads of their own.
ghost use Rattle.std.specs.Prelude.{◌≡◌};
ghost use Rattle.sched_pool.specs.Held.{IsOf};

use super::*;
use sched_pool::Gate;
use std::alloc::AllocGlobal;
use std::marker::Brand;
use std::random::RandomSource;
use std::sync::Wait;
use std::thread::Threads;

// So many jobs, each of which wants three tickets, run on so many threads until all are over. Answers how many tickets
// they were granted.
fn runs_all<R, N: Naming + Send + Sync, Q: Gate + Sync>(
    rt: &R,
    budget: &Budget,
    mut pass: Pass,
    jobs: usize,
    threads: usize,
    gate: &Q,
) -> (Pass, u64)
where
    R: Threads + Wait + RandomSource + AllocGlobal + Abort + Sync,
    requires name { budget.now ≡ N.budget }
    requires of { IsOf budget.now pass }
    ensures { IsOf budget.entry.now result.0 }
{
    let alloc = rt.alloc();
    let board: Board<Scripted, N> = board_of(rt, alloc, budget, &mut pass, jobs, 3);
    let stations = stations(rt, alloc, threads);
    let end = board
        .run(rt, pass, stations, gate, 100_000_000)
        .ok()
        .expect(rt, "all jobs are over");
    assert_eq!(rt; end.jobs.len(), jobs);
    (end.pass, end.granted)
}

/// How many tickets a pool of so many jobs, on so many threads, draws on a budget of its own.
pub(super) fn total<R, Q: Gate + Sync>(rt: &R, limit: u64, size: (usize, usize), gate: &Q) -> u64
where
    R: Threads + Wait + RandomSource + AllocGlobal + Abort + Sync,
{
    let (budget, pass) = Budget::new(rt.alloc(), limit).expect(rt, "the limit is in range");
    let (pass, granted) = runs_all::<_, Brand, _>(rt, &budget, pass, size.0, size.1, gate);
    assert_eq!(rt; budget.close(pass).ok(), Some(granted));
    granted
}
