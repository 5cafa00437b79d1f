//! Two jobs on one thread, of which one is cancelled: each call leads to the job with its number.
ghost use Rattle.std.specs.Prelude.{◌≡◌};
ghost use Rattle.sched_pool.specs.Held.{IsOf};
ghost use Rattle.sched_pool.specs.Portion.{IsShareOf};

use super::watchers::one_share;
use super::*;
use sched_pool::{Finish, How, OpenGate, RetryEnd, Seen, Share};
use std::alloc::AllocGlobal;
use std::marker::Brand;
use std::random::RandomSource;
use std::sync::Wait;

// The worker ends where all jobs are over.
fn works<R, N: Naming>(rt: &R, board: &Board<'_, Scripted, N>, share: &mut Share)
where
    R: Wait + RandomSource + AllocGlobal + Abort,
    requires { IsShareOf board.now.claims share.old }
    ensures { IsShareOf board.now.claims share.new }
{
    let worked = board.work(rt, share, &mut station(rt, 64), &OpenGate, 1000);
    assert_eq!(rt; worked.finish, Finish::AllOver);
}

// The job with this number is over so, and has made so many steps with so many tickets.
fn shows<N: Naming>(
    rt: &(impl Abort + Wait),
    board: &Board<'_, Scripted, N>,
    job: usize,
    how: How,
    counts: (usize, u64),
) {
    let want = Seen {
        over: Some(how),
        due: None,
        events: counts.0,
        granted: counts.1,
    };
    assert_eq!(rt; board.watch(rt, job), Some(want));
}

// The jobs ended so.
fn are_ended(rt: &impl Abort, jobs: &[RetryEnd<Scripted>], want: &[How]) {
    assert_eq!(rt; jobs.len(), want.len());
    for (job, how) in jobs.iter().zip(want) {
        assert_eq!(rt; job.how(), Some(*how));
    }
}

// Takes a board back whose jobs ended so.
fn taken_back<N: Naming>(
    rt: &impl Abort,
    alloc: Global,
    board: Board<'_, Scripted, N>,
    pass: Pass,
    want: &[How],
) -> Pass
    requires { IsOf N.budget pass }
    ensures { IsOf N.budget result }
{
    let end = board.finish(alloc, pass).ok().expect(rt, "there is memory");
    are_ended(rt, &end.jobs, want);
    end.pass
}

// The first of two jobs is cancelled before the work.
fn cancels_one<R, N: Naming>(rt: &R, budget: &Budget, mut pass: Pass) -> Pass
where
    R: Wait + RandomSource + AllocGlobal + Abort,
    requires name { budget.now ≡ N.budget }
    requires of { IsOf budget.now pass }
    ensures { IsOf budget.entry.now result }
{
    let alloc = rt.alloc();
    let mut board: Board<Scripted, N> = board_of(rt, alloc, budget, &mut pass, 2, 2);
    assert!(rt; board.cancel(rt, 0));
    let mut share = one_share(rt, alloc, &mut board);
    works(rt, &board, &mut share);
    shows(rt, &board, 0, How::Cancelled, (0, 0));
    shows(rt, &board, 1, How::ScheduleDone, (3, 2));
    let ends = [How::Cancelled, How::ScheduleDone];
    taken_back(rt, alloc, board, pass, &ends)
}

#[test]
fn cancelled_before_the_work(rt: HostRuntime) {
    let (budget, pass) = Budget::new(rt.alloc(), 10).expect(&rt, "the limit is in range");
    let pass = cancels_one::<_, Brand>(&rt, &budget, pass);
    assert_eq!(rt; budget.close(pass).ok(), Some(2));
}
