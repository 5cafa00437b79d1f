//! A run is polled once in each poll of its task.
ghost use Rattle.std.specs.Prelude.{◌≡◌, [], None};

use super::*;
use futures::task::Context;
use std::sync::Arc;
use std::sync::atomic::{AtomicU64, Ordering};

// An effect whose run never ends. It counts its polls.
#[derive(Drop)]
struct Stuck {
    polls: Arc<AtomicU64, Global>,
    runs: Vec<Ran>,
}

impl Stuck {
    fn new(rt: &impl Abort, alloc: Global, polls: &Arc<AtomicU64, Global>) -> Stuck
        ensures { result.runs.items ≡ [] }
    {
        Stuck {
            polls: Arc::try_clone(polls).expect(rt, "there is memory"),
            runs: Vec::new(alloc),
        }
    }
}

impl Effect for Stuck {
    type Item = Code;

    type Fault = Code;

    ghost finished = { λ stuck. stuck.runs.items };

    ghost fresh = { λ stuck. stuck.runs.items ≡ [] };

    ghost unused = { λ stuck new. new };

    fn poll_run(&mut self, _cx: &mut Context<'_>) -> Poll<Result<Result<Code, Code>, NoMemory>> {
        self.polls.fetch_add(1, Ordering::SeqCst);
        Poll::Pending
    }

    fn runs(&self) -> &[Ran] {
        &self.runs
    }
}

// A fallback that is not asked here.
#[derive(Drop)]
struct Barren;

impl Fallback<Stuck> for Barren {
    ghost asked = { λ _. None };

    ghost answered = { λ _. None };

    fn poll_fallback(
        &mut self,
        _fault: &Code,
        _output: &Val,
        _cx: &mut Context<'_>,
    ) -> Poll<Result<Result<Code, Code>, NoMemory>> {
        Poll::Ready(Err(NoMemory))
    }

    fn asked(&self) -> Option<(Millis, &Val)> {
        None
    }

    fn answered(&self) -> Option<Ran> {
        None
    }
}

// A number of polls, of none so far.
fn counter(rt: &impl Abort, alloc: Global) -> Arc<AtomicU64, Global> {
    Arc::new(alloc, AtomicU64::new(0)).expect(rt, "there is memory")
}

// Three polls of the task, each of which polls the effect that counts here, and once.
fn each_once<R, T: Task>(rt: &R, mut task: T, polls: &AtomicU64)
where
    R: RandomSource + AllocGlobal + Abort,
{
    for at in [1, 2, 3] {
        assert!(rt; !poll(rt, &mut task, at), "it goes on at {at}");
        assert_eq!(rt; polls.load(Ordering::SeqCst), at);
    }
}

#[test]
fn retry_polls_once(rt: HostRuntime) {
    let alloc = rt.alloc();
    let polls = counter(&rt, alloc);
    let stuck = Stuck::new(&rt, alloc, &polls);
    let driver = driver(&rt, alloc, Plan::forever());
    let retry = Retry::new(alloc, stuck, driver, Unlimited::new());
    each_once(&rt, retry, &polls);
}

#[test]
fn retry_or_polls_once(rt: HostRuntime) {
    let alloc = rt.alloc();
    let polls = counter(&rt, alloc);
    let stuck = Stuck::new(&rt, alloc, &polls);
    let driver = driver(&rt, alloc, Plan::forever());
    let retry = RetryOr::new(alloc, stuck, driver, Unlimited::new(), Barren);
    each_once(&rt, retry, &polls);
}

#[test]
fn repeat_polls_once(rt: HostRuntime) {
    let alloc = rt.alloc();
    let polls = counter(&rt, alloc);
    let stuck = Stuck::new(&rt, alloc, &polls);
    let repeat = Repeat::new(alloc, stuck, driver(&rt, alloc, Plan::forever()));
    each_once(&rt, repeat, &polls);
}

// The same of a future, whose task is a repeat.
#[test]
fn timed_polls_once(rt: HostRuntime) {
    let alloc = rt.alloc();
    let polls = counter(&rt, alloc);
    let stuck = Stuck::new(&rt, alloc, &polls);
    let repeat = Repeat::new(alloc, stuck, driver(&rt, alloc, Plan::forever()));
    let clock = VirtualClock::at(moment(&rt, 0));
    three_polls(&rt, Timed::new(alloc, repeat, clock, MidWords), &polls);
}

// Three polls of the future, each of which polls its effect once.
fn three_polls<R, F: Future + Drop>(rt: &R, future: F, polls: &AtomicU64)
where
    R: RandomSource + AllocGlobal + Abort,
    requires { F.can_poll future }
{
    let mut future = future;
    future_polls(rt, &mut future, polls, 1);
    future_polls(rt, &mut future, polls, 2);
    future_polls(rt, &mut future, polls, 3);
}

// A poll of the future leaves it pending, and the polls of its effect are then so many.
fn future_polls<R, F: Future>(rt: &R, future: &mut F, polls: &AtomicU64, want: u64)
where
    R: RandomSource + AllocGlobal + Abort,
    requires { F.can_poll future.old }
    ensures { F.can_poll future.new }
{
    let mock = MockTask::new(rt).expect(rt, "there is memory");
    match mock.poll(future) {
        Poll::Pending => assert_eq!(rt; polls.load(Ordering::SeqCst), want),
        Poll::Ready(_) => panic!(rt; "under way"),
    }
}
