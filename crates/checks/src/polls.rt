//! Checks polls that are refused memory: polls a retry, a retry with a fallback, a repeat and a retry of calls by hand,
//! and prints what each shows after each poll.
//!
//! A script runs it with each growth refused in turn; status 5 says that something else than a poll was refused memory.

ghost use Rattle.std.specs.Prelude.{◌≡◌, [], IfSome, is_some};

mod counted;
mod shown;
mod spare;

use counted::Counted;
use futures::task::{Context, Doorbell, Poll, Queue};
use sched_driver::Driver;
use sched_plan::Plan;
use sched_run::{
    Call, Draws, Effect, Fallback, How, OnBudget, Ran, Repeat, Retry, RetryOr, Scripted, Task,
};
use sched_ticket::Budget;
use sched_time::{Millis, Moment, Tick};
use shown::Shown;
use spare::Spare;
use std::alloc::Global;

/// A queue with one task, by whose context all is polled.
pub fn queue_of_one(rt: &HostRuntime) -> Option<Queue> {
    let queue = Queue::new(rt, Doorbell::spinning()).ok()?;
    queue.add().ok()?.schedule();
    Some(queue)
}

/// Polls the tasks; `None` says that something else than a poll was refused memory.
pub fn run(rt: &HostRuntime, cx: &mut Context<'_>) -> Option<()> {
    poll_retry(rt, cx)?;
    poll_retry_or(rt, cx)?;
    poll_repeat(rt, cx)?;
    poll_call(rt, cx)
}

// Polls the task eight times, and drops it.
fn poll_task<T: Task + Shown>(
    rt: &HostRuntime,
    name: &str,
    mut task: T,
    cx: &mut Context<'_>,
) -> Option<()> {
    poll_all(rt, name, &mut task, cx)
}

// Polls the task eight times, and prints what it shows after each poll.
fn poll_all<T: Task + Shown>(
    rt: &HostRuntime,
    name: &str,
    task: &mut T,
    cx: &mut Context<'_>,
) -> Option<()> {
    for turn in 0..8 {
        let ready = poll(rt.alloc(), task, turn, cx)?;
        show_driver(rt, name, turn, task.driver(), task.granted())?;
        show_runs(rt, task.begun(), task.runs(), ready, task.over())?;
    }
    Some(())
}

// A retry of five failures and a success.
fn poll_retry(rt: &HostRuntime, cx: &mut Context<'_>) -> Option<()> {
    let script = [lost(), lost(), lost(), lost(), lost(), won()];
    let effect = scripted(rt.alloc(), &script)?;
    retries(rt, "retry", effect, cx)
}

// A retry of calls, of which five fail and the sixth succeeds.
fn poll_call(rt: &HostRuntime, cx: &mut Context<'_>) -> Option<()> {
    let effect = Call::new(rt.alloc(), Counted::new(5));
    retries(rt, "call", effect, cx)
}

// A retry of this effect, nine times at most, by a budget of its own.
fn retries<X: Effect>(rt: &HostRuntime, name: &str, effect: X, cx: &mut Context<'_>) -> Option<()>
    requires { X.fresh effect }
{
    let (budget, pass) = Budget::new(rt.alloc(), 9).ok()?;
    retries_by(rt, name, effect, OnBudget::new(pass, &budget), cx)
}

// The same, by what draws its tickets.
fn retries_by<X: Effect, D: Draws>(
    rt: &HostRuntime,
    name: &str,
    effect: X,
    drawing: D,
    cx: &mut Context<'_>,
) -> Option<()>
    requires { X.fresh effect }
{
    let driver = spaced(rt.alloc(), 9)?;
    let retry = Retry::new(rt.alloc(), effect, driver, drawing);
    poll_task(rt, name, retry, cx)
}

// A retry that fails until its schedule is done, and then asks its fallback.
fn poll_retry_or(rt: &HostRuntime, cx: &mut Context<'_>) -> Option<()> {
    let (budget, pass) = Budget::new(rt.alloc(), 9).ok()?;
    falls_back(rt, OnBudget::new(pass, &budget), cx)
}

// The same, by what draws its tickets.
fn falls_back<D: Draws>(rt: &HostRuntime, drawing: D, cx: &mut Context<'_>) -> Option<()> {
    let effect = scripted(rt.alloc(), &[lost()])?;
    let both = (effect, Spare::new(rt.alloc()));
    retries_or(rt, both, drawing, cx)
}

// A retry of this effect with this fallback, four times at most.
fn retries_or<X: Effect, D: Draws, F: Fallback<X>>(
    rt: &HostRuntime,
    both: (X, F),
    drawing: D,
    cx: &mut Context<'_>,
) -> Option<()>
    requires { X.fresh both.0 }
{
    let driver = spaced(rt.alloc(), 4)?;
    let retry = RetryOr::new(rt.alloc(), both.0, driver, drawing, both.1);
    poll_task(rt, "retry_or", retry, cx)
}

// A repeat that succeeds until its schedule is done.
fn poll_repeat(rt: &HostRuntime, cx: &mut Context<'_>) -> Option<()> {
    let effect = scripted(rt.alloc(), &[won()])?;
    repeats(rt, effect, cx)
}

// A repeat of this effect, five times at most.
fn repeats<X: Effect>(rt: &HostRuntime, effect: X, cx: &mut Context<'_>) -> Option<()>
    requires { X.fresh effect }
{
    let driver = spaced(rt.alloc(), 5)?;
    let repeat = Repeat::new(rt.alloc(), effect, driver);
    poll_task(rt, "repeat", repeat, cx)
}

fn lost() -> Ran {
    Ran::Lost(Millis::from(7))
}

fn won() -> Ran {
    Ran::Won(Millis::from(1))
}

// An effect with these outcomes.
fn scripted(alloc: Global, script: &[Ran]) -> Option<Scripted>
    ensures { IfSome result (λ effect. effect.runs ≡ []) }
{
    Scripted::new(script.to_vec(alloc).ok()?)
}

// A driver of so many recurrences, 100 ms apart; each output takes memory.
fn spaced(alloc: Global, count: u64) -> Option<Driver>
    ensures { IfSome result (λ driver. driver.journal ≡ []) }
{
    let recurs = Plan::recurs(count).ok()?;
    let spaced = Plan::spaced(100).ok()?;
    let plan = Plan::meet(alloc, recurs, spaced).ok()?;
    Driver::new(alloc, plan).ok()
}

// Polls the task so many times 100 ms from the first moment on, and answers whether it is over.
fn poll<T: Task>(alloc: Global, task: &mut T, turn: u64, cx: &mut Context<'_>) -> Option<bool>
    ensures over { IfSome result (λ ready. ready ≡ is_some (T.ended task.new)) }
{
    let now = Moment::new(turn.saturating_mul(100))?;
    let words = [2147483648; 4];
    match task.poll_at(alloc, &Tick { now, words }, cx) {
        Poll::Ready(()) => Some(true),
        Poll::Pending => Some(false),
    }
}

// What a task shows of its driver and its tickets.
fn show_driver(
    rt: &HostRuntime,
    name: &str,
    turn: u64,
    driver: &Driver,
    granted: u64,
) -> Option<()> {
    let events = driver.journal().len();
    let last = match driver.last() {
        Some(output) => Some(output.text(rt.alloc()).ok()?),
        None => None,
    };
    let next = driver.next_start().map(|start| start.get());
    print!(rt;
        "{name}; poll {turn}; {events} events, last {last:?}, next {next:?}, {granted} granted; "
    ).ok()
}

// What it shows of its runs and of how it ended.
fn show_runs(
    rt: &HostRuntime,
    begun: &[Moment],
    runs: &[Ran],
    ready: bool,
    over: Option<How>,
) -> Option<()> {
    let begun = begun.len();
    let runs = runs.len();
    println!(rt; "{begun} begun, {runs} finished; ready {ready}, over {over:?}").ok()
}
