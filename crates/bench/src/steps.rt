//! Steps a schedule in place: `bench steps [PLAN] [EVENTS] [driver|stepper]`, where PLAN is `pair`, `fixed`, `tree`,
//! `crossed`, `exponential`, `retry` or `rounds`, by default `pair` with 1,000 events. With `driver` a driver steps it,
//! which keeps a journal, and with `stepper` one that keeps none. It prints where the run ended.
ghost use Rattle.std.specs.Prelude.{ℕ, ◌≤◌, IfOk};

use sched_driver::Driver;
use sched_driver_stepper::Stepper;
use sched_plan::{Fold, Plan, PlanFault, Val};
use sched_step::initial;
use sched_time::{FAR, Moment, NoMemory, Tick};
use std::alloc::{AllocGlobal, Global};
use std::rt::Runtime;
use std::{env, io};

// How many events a journal holds.
const JOURNAL: u64 = 65536;

pub fn bench<R: Runtime + AllocGlobal>(rt: &R) -> io::Result<()> {
    let mut words = env::args(rt)?.skip(2);
    let name = words.next();
    let name = match &name {
        Some(name) => name.as_str(),
        None => "pair",
    };
    let events = words
        .next()
        .and_then(|word| word.as_str().parse().ok())
        .unwrap_or(1000);
    let Ok(plan) = plan_named(rt.alloc(), name) else {
        return println!(rt; "no plan");
    };
    let ended = match &words.next() {
        Some(by) if by.as_str() == "stepper" => stepped_of(rt.alloc(), &plan, events),
        Some(_) => driven_of(rt.alloc(), &plan, events),
        None => run_of(rt.alloc(), &plan, events),
    };
    match ended {
        Ok(now) => println!(rt; "{name}: {events} events, at {now}", now = now.get()),
        Err(_) => println!(rt; "no memory"),
    }
}

/// The plan of this name; where there is none, a full tree of 128 leaves.
fn plan_named(alloc: Global, name: &str) -> Result<Plan, PlanFault> {
    match name {
        "pair" => Plan::meet(alloc, Plan::recurs(FAR)?, Plan::spaced(1)?),
        "fixed" => Plan::fixed(3),
        "crossed" => crossed(alloc),
        "exponential" => Plan::exponential(1, 1),
        "retry" => retry(alloc),
        "rounds" => rounds(alloc),
        _ => tree(alloc, 7, true),
    }
}

/// A plan of 127 nodes that is done at its first event, and then a single leaf.
fn crossed(alloc: Global) -> Result<Plan, PlanFault> {
    Plan::follow(alloc, tree(alloc, 6, false)?, Plan::spaced(1)?)
}

/// Eight nodes: an exponential back-off, each wait a little longer, capped and jittered, within a time and so many
/// times, with the waits as output.
fn retry(alloc: Global) -> Result<Plan, PlanFault> {
    let both = Plan::meet(alloc, Plan::recurs(FAR)?, waits(alloc)?)?;
    Plan::second(alloc, both)
}

/// The back-off, capped and jittered, within a time.
fn waits(alloc: Global) -> Result<Plan, PlanFault> {
    let longer = Plan::add(alloc, 5, Plan::exponential(100, 2)?)?;
    let capped = Plan::cap(alloc, 1000, longer)?;
    Plan::within(alloc, FAR, Plan::jitter(alloc, 0, 800, 1200, capped)?)
}

/// Rounds of sixteen events, each with the list of the outputs so far.
fn rounds(alloc: Global) -> Result<Plan, PlanFault> {
    Plan::renew(
        alloc,
        16,
        Plan::gather(alloc, Fold::List, Plan::spaced(1)?)?,
    )
}

/// A full tree of meets; the leaf at each end goes on a millisecond later each time, or is done at once.
fn tree(alloc: Global, depth: u32, goes_on: bool) -> Result<Plan, PlanFault> {
    if depth == 0 {
        return if goes_on {
            Plan::spaced(1)
        } else {
            Plan::recurs(0)
        };
    }
    Plan::meet(
        alloc,
        tree(alloc, depth - 1, goes_on)?,
        tree(alloc, depth - 1, goes_on)?,
    )
}

/// Steps the plan so many times, each time at the start planned before. It answers the start planned last.
fn run_of(alloc: Global, plan: &Plan, events: u64) -> Result<Moment, NoMemory> {
    let mut state = initial(alloc, plan)?;
    let input = Val::unit();
    let mut now = Moment::new(0).unwrap();
    for _ in 0..events {
        let words = [0; 4];
        let answer = state.advance(alloc, plan, &Tick { now, words }, &input)?;
        if let Some(start) = answer.decision.start() {
            now = start;
        }
    }
    Ok(now)
}

/// The same by drivers, of which each takes as many events as its journal holds.
fn driven_of(alloc: Global, plan: &Plan, events: u64) -> Result<Moment, NoMemory> {
    let mut now = Moment::new(0).unwrap();
    for _ in 0..events / JOURNAL {
        now = drive(alloc, plan, now, JOURNAL)?;
    }
    drive(alloc, plan, now, events % JOURNAL)
}

/// So many events of a new driver, from this moment on.
fn drive(alloc: Global, plan: &Plan, from: Moment, events: u64) -> Result<Moment, NoMemory> {
    let mut driver = Driver::new(alloc, plan.copy(alloc)?)?;
    let mut now = from;
    for _ in 0..events {
        let words = [0; 4];
        let Ok(decision) = driver.next(alloc, Tick { now, words }, Val::unit()) else {
            return Err(NoMemory);
        };
        if let Some(start) = decision.start() {
            now = start;
        }
    }
    Ok(now)
}

/// The same by one stepper, which keeps no event.
fn stepped_of(alloc: Global, plan: &Plan, events: u64) -> Result<Moment, NoMemory> {
    let mut stepper = Stepper::new(alloc, plan.copy(alloc)?)?;
    let input = Val::unit();
    let mut now = Moment::new(0).unwrap();
    for _ in 0..events {
        let words = [0; 4];
        let Ok(decision) = stepper.next(alloc, &Tick { now, words }, &input) else {
            return Err(NoMemory);
        };
        if let Some(start) = decision.start() {
            now = start;
        }
    }
    Ok(now)
}
