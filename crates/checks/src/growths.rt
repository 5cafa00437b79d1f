//! Checks growths that are refused: makes calls that ask for memory, and prints what is there before and after each.
//!
//! Where a call is refused, it prints the fault with what is there then, and makes the same call again. A script runs
//! it with each growth refused in turn; status 5 says that something else than such a call was refused memory.

ghost use Rattle.std.specs.Prelude.{◌≡◌, ◌+◌, length, IfSome, IfNone};

use sched_driver::{DriveFault, Driver};
use sched_plan::{Fold, Plan, PlanFault, Val};
use sched_ticket::Budget;
use sched_time::{Moment, Tick};
use std::alloc::Global;

/// Makes the calls; `None` says that something else than such a call was refused memory.
pub fn run(rt: &HostRuntime) -> Option<()> {
    make_budget(rt)?;
    step_drivers(rt)
}

// Makes a budget of two tickets, draws one of them and closes the budget.
fn make_budget(rt: &HostRuntime) -> Option<()> {
    println!(rt; "no budget").ok()?;
    let (budget, mut pass) = match Budget::new(rt.alloc(), 2) {
        Ok(made) => made,
        Err(fault) => {
            println!(rt; "{fault:?}: no budget").ok()?;
            Budget::new(rt.alloc(), 2).ok()?
        }
    };
    let ticket = pass.draw(&budget);
    let count = budget.close(pass).ok()?;
    println!(rt; "ticket {ticket:?} of a budget that closed at {count}").ok()
}

// Steps a driver of each plan.
fn step_drivers(rt: &HostRuntime) -> Option<()> {
    let alloc = rt.alloc();
    step_driver(rt, spaced(alloc).ok()?, 6)?;
    step_driver(rt, crossed(alloc).ok()?, 7)?;
    step_driver(rt, gathered(alloc).ok()?, 10)
}

// Four recurrences, 100 ms apart.
fn spaced(alloc: Global) -> Result<Plan, PlanFault> {
    Plan::meet(alloc, Plan::recurs(4)?, Plan::spaced(100)?)
}

// One recurrence, then one and two more beside a delay: at its second event the outer sequence crosses over, and at its
// third the inner one. Each output is a pair.
fn crossed(alloc: Global) -> Result<Plan, PlanFault> {
    let inner = Plan::follow(alloc, Plan::recurs(1)?, Plan::recurs(2)?)?;
    let later = Plan::meet(alloc, inner, Plan::spaced(100)?)?;
    let first = Plan::meet(alloc, Plan::recurs(1)?, Plan::identity()?)?;
    Plan::follow(alloc, first, later)
}

// The list of the outputs so far.
fn gathered(alloc: Global) -> Result<Plan, PlanFault> {
    Plan::gather(alloc, Fold::List, Plan::recurs(8)?)
}

// Steps a driver of the plan so many times, 100 ms apart.
fn step_driver(rt: &HostRuntime, plan: Plan, events: u64) -> Option<()> {
    let mut driver = Driver::new(rt.alloc(), plan).ok()?;
    show(rt, &driver)?;
    for event in 0..events {
        let now = Moment::new(event.saturating_mul(100))?;
        if let Some(fault) = refusal(rt, &mut driver, now) {
            print!(rt; "{fault:?}: ").ok()?;
            show(rt, &driver)?;
            refusal(rt, &mut driver, now).is_none().then_some(())?;
        }
        show(rt, &driver)?;
    }
    Some(())
}

// Gives the driver an event at this moment, and answers why it was refused, if it was.
fn refusal(rt: &HostRuntime, driver: &mut Driver, now: Moment) -> Option<DriveFault>
    ensures unchanged { IfSome result (λ _. driver.new ≡ driver.old) }
    ensures one_more { IfNone result (length driver.new.journal ≡ length driver.old.journal + 1) }
{
    let words = [2147483648; 4];
    driver
        .next(rt.alloc(), Tick { now, words }, Val::unit())
        .err()
}

// One line of what the driver shows.
fn show(rt: &HostRuntime, driver: &Driver) -> Option<()> {
    let alloc = rt.alloc();
    let events = driver.journal().len();
    let state = driver.state().view(alloc).ok()?.text(alloc).ok()?;
    let last = match driver.last() {
        Some(output) => Some(output.text(alloc).ok()?),
        None => None,
    };
    let next = driver.next_start().map(|start| start.get());
    println!(rt; "{events} events, last {last:?}, next {next:?}, state {state}").ok()
}
