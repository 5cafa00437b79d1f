ghost use Rattle.std.specs.Prelude.{◌≡◌, [], IfOk, IfSome};
ghost use Rattle.sched_ticket.specs.Held.{IsOf};

use super::*;
use futures::executor::block_on;
use futures::task::Poll;
use futures::test::MockTask;
use sched_driver::Driver;
use sched_plan::{Plan, PlanFault};
use sched_ticket::{Budget, Pass};
use sched_time::{Millis, Moment, Tick};
use std::alloc::{AllocGlobal, Global};
use std::process::Abort;
use std::random::RandomSource;
use std::sync::Wait;

mod answers;
mod closures;
mod draws;
mod guide;
mod limits;
mod polls;
mod values;

fn moment(rt: &impl Abort, at: u64) -> Moment {
    Moment::new(at).expect(rt, "the moment is in range")
}

fn millis(rt: &impl Abort, number: u64) -> Millis {
    Millis::new(number).expect(rt, "the number is in range")
}

// How a run with this outcome went.
fn ran_of(rt: &impl Abort, outcome: &Result<u64, u64>) -> Ran {
    match outcome {
        Ok(code) => Ran::Won(millis(rt, *code)),
        Err(code) => Ran::Lost(millis(rt, *code)),
    }
}

// An effect whose runs succeed and fail with these codes.
fn scripted(rt: &impl Abort, alloc: Global, outcomes: &[Result<u64, u64>]) -> Scripted
    ensures { result.runs ≡ [] }
{
    let mut script = Vec::new(alloc);
    for outcome in outcomes {
        let pushed = script.push(ran_of(rt, outcome));
        assert!(rt; pushed.is_ok(), "there is memory");
    }
    Scripted::new(script).expect(rt, "the script has an outcome")
}

// A driver of the plan before its first event.
fn driver(rt: &impl Abort, alloc: Global, plan: Result<Plan, PlanFault>) -> Driver
    ensures { result.journal ≡ [] }
{
    let plan = plan.expect(rt, "the plan is built");
    Driver::new(alloc, plan).expect(rt, "there is memory")
}

// A budget of so many tickets, and its first pass.
fn budget(rt: &impl Abort, alloc: Global, limit: u64) -> (Budget, Pass)
    ensures of { IsOf result.0 result.1 }
    ensures fresh { result.1.has.tickets ≡ [] }
{
    Budget::new(alloc, limit).expect(rt, "the limit is in range")
}

// Polls the task by hand at this moment, and tells whether it is over.
fn poll<R, T: Task>(rt: &R, task: &mut T, at: u64) -> bool
where
    R: RandomSource + AllocGlobal + Abort,
{
    let tick = Tick {
        now: moment(rt, at),
        words: [2147483648; 4],
    };
    let alloc = rt.alloc();
    let mock = MockTask::new(rt).expect(rt, "there is memory");
    match mock.enter(|cx| task.poll_at(alloc, &tick, cx)) {
        Poll::Ready(()) => true,
        Poll::Pending => false,
    }
}

// The task, over, by a future with a virtual clock from 0.
fn finish<R, T: Task>(rt: &R, task: T) -> T
where
    R: Wait + RandomSource + AllocGlobal + Abort,
{
    let clock = VirtualClock::at(moment(rt, 0));
    let timed = Timed::new(rt.alloc(), task, clock, MidWords);
    block_on(rt, timed).expect(rt, "there is memory")
}

fn assert_moments(rt: &impl Abort, begun: &[Moment], want: &[u64]) {
    assert_eq!(rt; begun.len(), want.len());
    for (begin, at) in begun.iter().zip(want) {
        assert_eq!(rt; begin.get(), *at);
    }
}
