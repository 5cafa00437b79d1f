//! Drivers at work. Tests answer nothing and end by `expect` in helpers, which take values as they are: so they hold
//! few.
use sched_driver::{DriveFault, Driver, Event};
use sched_plan::{Plan, Val};
use sched_time::{Decision, Interval, Moment, Tick};
use std::alloc::Global;
use std::process::Abort;

mod cells;
mod drivers;
mod steppers;

// Three recurrences, 100 milliseconds apart.
fn spaced_recurs(rt: &impl Abort, alloc: Global) -> Plan {
    let recurs = Plan::recurs(3).expect(rt, "it is in range");
    let spaced = Plan::spaced(100).expect(rt, "it is in range");
    Plan::meet(alloc, recurs, spaced).expect(rt, "it is small")
}

fn forever(rt: &impl Abort) -> Plan {
    Plan::forever().expect(rt, "it is small")
}

// A copy of the plan, which is the same.
fn copied(rt: &impl Abort, alloc: Global, plan: &Plan) -> Plan {
    let copy = plan.copy(alloc).expect(rt, "there is memory");
    assert!(rt; copy.same(plan));
    copy
}

// A new driver of this plan.
fn driver_of(rt: &impl Abort, alloc: Global, plan: Plan) -> Driver {
    Driver::new(alloc, plan).expect(rt, "there is memory")
}

fn moment(rt: &impl Abort, at: u64) -> Moment {
    Moment::new(at).expect(rt, "the moment is in range")
}

// The decision to go on at this moment.
fn go(rt: &impl Abort, at: u64) -> Result<Decision, DriveFault> {
    Ok(Decision::Go(Interval::after(moment(rt, at))))
}

// One more event at this moment, without input.
fn next(
    rt: &impl Abort,
    alloc: Global,
    driver: &mut Driver,
    at: u64,
) -> Result<Decision, DriveFault> {
    let tick = Tick {
        now: moment(rt, at),
        words: [2147483648; 4],
    };
    driver.next(alloc, tick, Val::unit())
}

// Asserts that such an event leads on to this start.
fn goes(rt: &impl Abort, alloc: Global, driver: &mut Driver, at: u64, start: u64) {
    assert_eq!(rt; next(rt, alloc, driver, at), go(rt, start));
}

// Asserts that such an event is refused with this fault.
fn refuses(rt: &impl Abort, alloc: Global, driver: &mut Driver, at: u64, fault: DriveFault) {
    assert_eq!(rt; next(rt, alloc, driver, at), Err(fault));
}

// Asserts that no output was given, and no start planned.
fn assert_fresh(rt: &impl Abort, driver: &Driver) {
    assert!(rt; driver.last().is_none());
    assert!(rt; driver.next_start().is_none());
}

// What a driver shows beside its plan.
#[derive(Clone, Copy)]
struct Shown<'a> {
    moments: &'a [u64],
    last: &'a str,
    next_start: Option<u64>,
    view: &'a str,
}

fn assert_shows(rt: &impl Abort, alloc: Global, driver: &Driver, want: &Shown<'_>) {
    assert_moments(rt, driver.journal(), want.moments);
    assert_eq!(rt; driver.next_start().map(Moment::get), want.next_start);
    assert_last(rt, alloc, driver, want.last);
    let view = driver.state().view(alloc).expect(rt, "there is memory");
    assert_text(rt, alloc, &view, want.view);
}

// Asserts the text of the output last given.
fn assert_last(rt: &impl Abort, alloc: Global, driver: &Driver, want: &str) {
    let last = driver.last().expect(rt, "an output was given");
    assert_text(rt, alloc, last, want);
}

fn assert_text(rt: &impl Abort, alloc: Global, value: &Val, want: &str) {
    let text = value.text(alloc).expect(rt, "there is memory");
    assert_eq!(rt; text.as_str(), want);
}

fn assert_moments(rt: &impl Abort, journal: &[Event], want: &[u64]) {
    assert_eq!(rt; journal.len(), want.len());
    for (event, at) in journal.iter().zip(want) {
        assert_eq!(rt; event.now.get(), *at);
    }
}

// Asserts that the driver's plan is this one.
fn assert_plan(rt: &impl Abort, driver: &Driver, plan: &Plan) {
    assert!(rt; driver.plan().same(plan));
}
