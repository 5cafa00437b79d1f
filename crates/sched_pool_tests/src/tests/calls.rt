//! A board of effects of the test's own: pending for some polls, with items and faults that are no codes.
ghost use Rattle.std.specs.Prelude.{◌≡◌, []};
ghost use Rattle.sched_pool.specs.Held.{IsOf};

use super::*;
use futures::task::{Context, Poll};
use sched_pool::{Coded, Ending, NoMemory, OpenGate, RetryEnd};
use std::alloc::AllocGlobal;
use std::marker::Brand;
use std::random::RandomSource;
use std::sync::Wait;
use std::thread::Threads;

// What a call is answered with.
#[derive(Drop)]
struct Reply {
    status: u32,
    body: &'static str,
}

impl Coded for Reply {
    ghost coded = { λ reply. reply.status };

    fn code(&self) -> Millis {
        Millis::from(self.status)
    }
}

// Why a call was not answered.
#[derive(Drop)]
struct Outage {
    after: Millis,
    reason: &'static str,
}

impl Coded for Outage {
    ghost coded = { λ outage. outage.after };

    fn code(&self) -> Millis {
        self.after
    }
}

// A call that is pending at every other poll, and fails so often before it is answered.
#[derive(Drop)]
struct Call {
    asked: bool,
    outages: u32,
    runs: Vec<Ran>,
}

impl Effect for Call {
    type Item = Reply;

    type Fault = Outage;

    ghost finished = { λ call. call.runs.items };

    ghost fresh = { λ call. call.runs.items ≡ [] };

    ghost unused = { λ call new. new };

    fn poll_run(&mut self, _cx: &mut Context<'_>) -> Poll<Result<Result<Reply, Outage>, NoMemory>> {
        if !self.asked {
            self.asked = true;
            return Poll::Pending;
        }
        self.asked = false;
        if self.outages > 0 {
            let after = Millis::from(7);
            if self.runs.push(Ran::Lost(after)).is_err() {
                return Poll::Ready(Err(NoMemory));
            }
            self.outages -= 1;
            return Poll::Ready(Ok(Err(Outage {
                after,
                reason: "timed out",
            })));
        }
        if self.runs.push(Ran::Won(Millis::from(200))).is_err() {
            return Poll::Ready(Err(NoMemory));
        }
        Poll::Ready(Ok(Ok(Reply {
            status: 200,
            body: "fresh",
        })))
    }

    fn runs(&self) -> &[Ran] {
        &self.runs
    }
}

// Adds a retry of a call that fails so often, by a plan of two recurrences.
fn adds<'a, N: Naming>(
    rt: &impl Abort,
    alloc: Global,
    budget: &'a Budget,
    pass: &mut Pass,
    board: &mut Board<'a, Call, N>,
    outages: u32,
)
    requires name { budget.now ≡ N.budget }
    requires of { IsOf budget.now pass.old }
    ensures { IsOf budget.now pass.new }
{
    let call = Call {
        asked: false,
        outages,
        runs: Vec::new(alloc),
    };
    let retry = retrying(rt, alloc, budget, pass, call, Plan::recurs(2));
    assert!(rt; board.add(retry).is_ok());
}

// The body of the reply, or the reason of the last outage.
fn told(end: &RetryEnd<Call>) -> &'static str {
    match end.ending() {
        Some(Ending::Won(reply)) => reply.body,
        Some(Ending::ScheduleDone(Err(outage))) => outage.reason,
        _ => "",
    }
}

// Asserts what is told of the calls.
fn are_told(rt: &impl Abort, ends: &[RetryEnd<Call>], want: &[&str]) {
    assert_eq!(rt; ends.len(), want.len());
    for (end, want) in ends.iter().zip(want) {
        assert_eq!(rt; told(end), *want);
    }
}

// Two calls on a thread each: one is answered at its third run, and one fails three times.
fn calls_two<R, N: Naming + Send + Sync>(rt: &R, budget: &Budget, mut pass: Pass) -> Pass
where
    R: Threads + Wait + RandomSource + AllocGlobal + Abort + Sync,
    requires name { budget.now ≡ N.budget }
    requires of { IsOf budget.now pass }
    ensures { IsOf budget.entry.now result }
{
    let alloc = rt.alloc();
    let mut board: Board<Call, N> = Board::new(alloc, budget);
    adds(rt, alloc, budget, &mut pass, &mut board, 2);
    adds(rt, alloc, budget, &mut pass, &mut board, 3);
    let stations = stations(rt, alloc, 2);
    let end = board
        .run(rt, pass, stations, &OpenGate, 100_000_000)
        .ok()
        .expect(rt, "all jobs are over");
    are_told(rt, &end.jobs, &["fresh", "timed out"]);
    assert_eq!(rt; end.granted, 4);
    end.pass
}

#[test]
fn calls_are_answered_or_fail(rt: HostRuntime) {
    let (budget, pass) = Budget::new(rt.alloc(), 10).expect(&rt, "the limit is in range");
    let pass = calls_two::<_, Brand>(&rt, &budget, pass);
    assert_eq!(rt; budget.close(pass).ok(), Some(4));
}
