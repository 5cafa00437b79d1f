//! Polls retries by hand: `bench retry [WHAT] [PLAN] [ROUNDS]`, by default one round of `retry` of `pair`.
//!
//! WHAT is `retry`, a thousand retries of an effect that fails each time, `step`, a thousand steps of its driver alone,
//! or `wait`, a thousand polls of a retry that waits. PLAN is `pair` or `spaced`. It prints a count.
ghost use Rattle.std.specs.Prelude.{◌≡◌, [], IfSome};

use futures::task::{Context, Doorbell, Poll, Queue};
use sched_driver::Driver;
use sched_plan::{Plan, PlanFault, Val};
use sched_run::{Draws, OnBudget, Ran, Retry, Scripted, Task};
use sched_ticket::Budget;
use sched_time::{FAR, Millis, Moment, Tick};
use std::alloc::{AllocGlobal, Global};
use std::random::RandomSource;
use std::rt::Runtime;
use std::sync::Wait;
use std::{env, io};

// How many polls or steps a round has.
const ROUND: u64 = 1000;

pub fn bench<R: Runtime + RandomSource + Wait + AllocGlobal>(rt: &R) -> io::Result<()> {
    let mut words = env::args(rt)?.skip(2);
    let what = words.next();
    let what = match &what {
        Some(word) => word.as_str(),
        None => "retry",
    };
    let plan = words.next();
    let plan = match &plan {
        Some(word) => word.as_str(),
        None => "pair",
    };
    let rounds = words
        .next()
        .and_then(|word| word.as_str().parse().ok())
        .unwrap_or(1);
    let Some(queue) = queue_of_one(rt) else {
        return println!(rt; "no memory");
    };
    let Some(mut cx) = queue.next(rt) else {
        return println!(rt; "no memory");
    };
    let count = run(rt.alloc(), what, plan, rounds, &mut cx);
    cx.cancel();
    match count {
        Some(count) => println!(rt; "{what} of {plan}: {count} in {rounds} rounds"),
        None => println!(rt; "no memory"),
    }
}

// A queue with one task, by whose context all is polled.
fn queue_of_one<R: Runtime + RandomSource + AllocGlobal>(rt: &R) -> Option<Queue> {
    let queue = Queue::new(rt, Doorbell::spinning()).ok()?;
    queue.add().ok()?.schedule();
    Some(queue)
}

// So many rounds; it answers what they counted.
fn run(alloc: Global, what: &str, plan: &str, rounds: u64, cx: &mut Context<'_>) -> Option<u64> {
    let mut count: u64 = 0;
    for _ in 0..rounds {
        count = count.saturating_add(round(alloc, what, plan, cx)?);
    }
    Some(count)
}

// One round, with a driver of its own.
fn round(alloc: Global, what: &str, plan: &str, cx: &mut Context<'_>) -> Option<u64> {
    let driver = driver(alloc, plan)?;
    match what {
        "retry" => retry(alloc, driver, cx),
        "step" => step(alloc, driver),
        _ => wait(alloc, driver, cx),
    }
}

// A driver of the plan of this name, which goes on 1 ms after each event.
fn driver(alloc: Global, plan: &str) -> Option<Driver>
    ensures { IfSome result (λ driver. driver.journal ≡ []) }
{
    Driver::new(alloc, plan_named(alloc, plan).ok()?).ok()
}

fn plan_named(alloc: Global, plan: &str) -> Result<Plan, PlanFault> {
    match plan {
        "pair" => Plan::meet(alloc, Plan::recurs(FAR)?, Plan::spaced(1)?),
        _ => Plan::spaced(1),
    }
}

// An effect that fails each time.
fn failing(alloc: Global) -> Option<Scripted>
    ensures { IfSome result (λ effect. effect.runs ≡ []) }
{
    Scripted::new([Ran::Lost(Millis::from(7))].to_vec(alloc).ok()?)
}

fn tick(millis: u64) -> Option<Tick> {
    Some(Tick {
        now: Moment::new(millis)?,
        words: [0; 4],
    })
}

// Retries, each polled when its moment has come; it answers how many were granted.
fn retry(alloc: Global, driver: Driver, cx: &mut Context<'_>) -> Option<u64>
    requires { driver.journal ≡ [] }
{
    let (budget, pass) = Budget::new(alloc, ROUND).ok()?;
    retry_by(alloc, driver, OnBudget::new(pass, &budget), cx)
}

// The same, by what draws their tickets.
fn retry_by<D: Draws>(
    alloc: Global,
    driver: Driver,
    drawing: D,
    cx: &mut Context<'_>,
) -> Option<u64>
    requires { driver.journal ≡ [] }
{
    let mut retry = Retry::new(alloc, failing(alloc)?, driver, drawing);
    for turn in 0..ROUND {
        let _ = retry.poll_at(alloc, &tick(turn)?, cx);
    }
    Some(retry.granted())
}

// Steps of the driver alone, at the same moments with the same input; it answers how many it took.
fn step(alloc: Global, mut driver: Driver) -> Option<u64> {
    let mut count: u64 = 0;
    for turn in 0..ROUND {
        if driver
            .next(alloc, tick(turn)?, Val::from(Millis::from(7)))
            .is_ok()
        {
            count = count.saturating_add(1);
        }
    }
    Some(count)
}

// Polls of a retry before its moment has come; it answers how many were pending.
fn wait(alloc: Global, driver: Driver, cx: &mut Context<'_>) -> Option<u64>
    requires { driver.journal ≡ [] }
{
    let (budget, pass) = Budget::new(alloc, 1).ok()?;
    wait_by(alloc, driver, OnBudget::new(pass, &budget), cx)
}

// The same, by what draws its tickets.
fn wait_by<D: Draws>(alloc: Global, driver: Driver, drawing: D, cx: &mut Context<'_>) -> Option<u64>
    requires { driver.journal ≡ [] }
{
    let retry = Retry::new(alloc, failing(alloc)?, driver, drawing);
    Some(poll_early(alloc, retry, &tick(0)?, cx))
}

// Polls of a task, all at one moment; it answers how many were pending.
fn poll_early<T: Task>(alloc: Global, mut task: T, now: &Tick, cx: &mut Context<'_>) -> u64 {
    let mut count: u64 = 0;
    for _ in 0..ROUND {
        match task.poll_at(alloc, now, cx) {
            Poll::Pending => count = count.saturating_add(1),
            Poll::Ready(()) => {}
        }
    }
    count
}
