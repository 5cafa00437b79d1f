//! A job that is watched and cancelled while a worker polls it.
ghost use Rattle.std.specs.Prelude.{◌≡◌, []};
ghost use Rattle.sched_pool.specs.Held.{IsOf};
ghost use Rattle.sched_pool.specs.Portion.{IsShareOf};

use super::*;
use futures::task::{Context, Poll};
use sched_pool::{Code, Finish, Gate, How, NoMemory, Share};
use std::alloc::AllocGlobal;
use std::marker::Brand;
use std::random::RandomSource;
use std::sync::Wait;
use std::sync::atomic::{AtomicBool, Ordering};
use std::thread::{Threads, join};

// An effect whose run never ends.
#[derive(Drop)]
struct Stuck {
    runs: Vec<Ran>,
}

impl Effect for Stuck {
    type Item = Code;

    type Fault = Code;

    ghost finished = { λ stuck. stuck.runs.items };

    ghost fresh = { λ stuck. stuck.runs.items ≡ [] };

    ghost unused = { λ stuck new. new };

    fn poll_run(&mut self, _cx: &mut Context<'_>) -> Poll<Result<Result<Code, Code>, NoMemory>> {
        Poll::Pending
    }

    fn runs(&self) -> &[Ran] {
        &self.runs
    }
}

// Notes that a job was polled.
#[derive(Drop)]
struct Noting {
    polled: AtomicBool,
}

impl Gate for Noting {
    fn ready(&self, _job: usize) -> bool {
        true
    }

    fn polled(&self, _job: usize) {
        self.polled.store(true, Ordering::SeqCst);
    }
}

// Reads the job until it is over. Tells whether each sight was of an open job or a cancelled one, without an event.
fn reads<N: Naming>(rt: &impl Wait, board: &Board<'_, Stuck, N>) -> bool {
    for _ in 0..100_000_000u32 {
        let Some(seen) = board.watch(rt, 0) else {
            return false;
        };
        if seen.events > 0 || seen.granted > 0 {
            return false;
        }
        if let Some(how) = seen.over {
            return how == How::Cancelled;
        }
    }
    false
}

// Reads the job until it was polled, cancels it, and reads it again. Tells whether it was seen as it must be.
fn cancels_once_polled<N: Naming>(
    rt: &impl Wait,
    board: &Board<'_, Stuck, N>,
    gate: &Noting,
) -> bool {
    let mut open = true;
    for _ in 0..100_000_000u32 {
        match board.watch(rt, 0) {
            Some(seen) => open &= seen.over.is_none() && seen.events == 0 && seen.granted == 0,
            None => return false,
        }
        if gate.polled.load(Ordering::SeqCst) {
            break;
        }
    }
    let polled = gate.polled.load(Ordering::SeqCst);
    let cancelled = board.cancel(rt, 0);
    let seen = board.watch(rt, 0);
    open && polled
        && cancelled
        && seen.is_some_and(|seen| seen.over == Some(How::Cancelled) && seen.events == 0)
}

// One thread reads the job, while this one cancels it.
fn one_reads<R, N: Naming + Send + Sync>(rt: &R, board: &Board<'_, Stuck, N>, gate: &Noting) -> bool
where
    R: Threads + Wait + Abort + Sync,
{
    let (seen, cancelled) = join(
        rt,
        move || reads(rt, board),
        || cancels_once_polled(rt, board, gate),
    );
    seen && cancelled
}

// The one share of a board.
pub(super) fn one_share<X: Effect, N: Naming>(
    rt: &impl Abort,
    alloc: Global,
    board: &mut Board<'_, X, N>,
) -> Share
    ensures { IsShareOf board.new.claims result }
{
    let mut shares = board.shares(alloc, 1).expect(rt, "it is open");
    shares.pop().expect(rt, "one share")
}

// A board of one job, whose run never ends.
fn stuck_board<'a, N: Naming>(
    rt: &impl Abort,
    alloc: Global,
    budget: &'a Budget,
    pass: &mut Pass,
) -> Board<'a, Stuck, N>
    requires name { budget.now ≡ N.budget }
    requires of { IsOf budget.now pass.old }
    ensures { IsOf budget.now pass.new }
{
    let mut board = Board::new(alloc, budget);
    let stuck = Stuck {
        runs: Vec::new(alloc),
    };
    let retry = retrying(rt, alloc, budget, pass, stuck, Plan::forever());
    assert!(rt; board.add(retry).is_ok());
    board
}

// A worker polls the job, while one thread watches it and another cancels it. Tells how far it got, and what they saw.
fn works_watched<R, N: Naming + Send + Sync>(
    rt: &R,
    board: &Board<'_, Stuck, N>,
    mut share: Share,
) -> (Finish, bool)
where
    R: Threads + Wait + RandomSource + AllocGlobal + Abort + Sync,
    requires { IsShareOf board.now.claims share }
{
    let mut station = station(rt, 1);
    let gate = Noting {
        polled: AtomicBool::new(false),
    };
    let noting = &gate;
    let (finish, seen) = join(
        rt,
        move || -> Finish
            requires { IsShareOf board.now.claims share }
        {
            board
                .work(rt, &mut share, &mut station, noting, 100_000_000)
                .finish
        },
        || one_reads(rt, board, noting),
    );
    (finish, seen)
}

// Takes a board back whose one job was cancelled.
fn cancelled<N: Naming>(
    rt: &impl Abort,
    alloc: Global,
    board: Board<'_, Stuck, N>,
    pass: Pass,
) -> Pass
    requires { IsOf N.budget pass }
    ensures { IsOf N.budget result }
{
    let end = board.finish(alloc, pass).ok().expect(rt, "there is memory");
    assert_eq!(rt; end.jobs.len(), 1);
    assert_eq!(rt; end.jobs[0].how(), Some(How::Cancelled));
    end.pass
}

// A board whose job is watched and cancelled while a worker polls it.
fn watches<R, N: Naming + Send + Sync>(rt: &R, budget: &Budget, mut pass: Pass) -> Pass
where
    R: Threads + Wait + RandomSource + AllocGlobal + Abort + Sync,
    requires name { budget.now ≡ N.budget }
    requires of { IsOf budget.now pass }
    ensures { IsOf budget.entry.now result }
{
    let alloc = rt.alloc();
    let mut board: Board<Stuck, N> = stuck_board(rt, alloc, budget, &mut pass);
    let share = one_share(rt, alloc, &mut board);
    let worked = works_watched(rt, &board, share);
    assert_eq!(rt; worked, (Finish::AllOver, true));
    cancelled(rt, alloc, board, pass)
}

#[test]
fn a_watched_job_is_cancelled(rt: HostRuntime) {
    let (budget, pass) = Budget::new(rt.alloc(), 10).expect(&rt, "the limit is in range");
    let pass = watches::<_, Brand>(&rt, &budget, pass);
    assert_eq!(rt; budget.close(pass).ok(), Some(0));
}
