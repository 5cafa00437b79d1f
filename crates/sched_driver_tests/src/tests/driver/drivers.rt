use super::*;
use sched_driver::MAX_EVENTS;

// Drives a new driver of three recurrences 100 milliseconds apart to its third start.
fn drive(rt: &impl Abort, alloc: Global, driver: &mut Driver) {
    assert_fresh(rt, driver);
    goes(rt, alloc, driver, 50, 150);
    let floor = moment(rt, 50);
    refuses(rt, alloc, driver, 49, DriveFault::Backwards { floor });
    let once = Shown {
        moments: &[50],
        last: "(0, 0)",
        next_start: Some(150),
        view: "(1, 1)",
    };
    assert_shows(rt, alloc, driver, &once);
    goes(rt, alloc, driver, 150, 250);
}

// What such a driver shows then, and after it was reset.
fn reset(rt: &impl Abort, alloc: Global, driver: &mut Driver) {
    let twice = Shown {
        moments: &[50, 150],
        last: "(1, 1)",
        next_start: Some(250),
        view: "(2, 2)",
    };
    assert_shows(rt, alloc, driver, &twice);
    assert_last_copies(rt, alloc, driver);
    driver.reset();
    assert_fresh(rt, driver);
    goes(rt, alloc, driver, 10, 110);
}

// Asserts that a copy of the last output is the same.
fn assert_last_copies(rt: &impl Abort, alloc: Global, driver: &Driver) {
    let last = driver.last().expect(rt, "an output was given");
    let copy = last.copy(alloc).expect(rt, "there is memory");
    assert!(rt; last.same(&copy));
}

// Asserts what it shows after that, and that its plan is still that one.
fn assert_reset(rt: &impl Abort, alloc: Global, driver: &Driver) {
    let again = Shown {
        moments: &[10],
        last: "(0, 0)",
        next_start: Some(110),
        view: "(1, 1)",
    };
    assert_shows(rt, alloc, driver, &again);
    assert_plan(rt, driver, &spaced_recurs(rt, alloc));
}

fn all_of_it(rt: &impl Abort, alloc: Global, mut driver: Driver) {
    drive(rt, alloc, &mut driver);
    reset(rt, alloc, &mut driver);
    assert_reset(rt, alloc, &driver);
}

#[test]
fn driver_steps_its_plan_and_begins_again(rt: HostRuntime) {
    let alloc = rt.alloc();
    let plan = copied(&rt, alloc, &spaced_recurs(&rt, alloc));
    all_of_it(&rt, alloc, driver_of(&rt, alloc, plan));
}

// Asserts what the full journal of a driver of `forever` refuses.
fn assert_full(rt: &impl Abort, alloc: Global, driver: &mut Driver) {
    refuses(rt, alloc, driver, 5, DriveFault::JournalFull);
    let floor = moment(rt, 5);
    refuses(rt, alloc, driver, 4, DriveFault::Backwards { floor });
    assert_eq!(rt; driver.journal().len(), 65536);
    assert_last(rt, alloc, driver, "65535");
}

// Fills the journal of such a driver, and resets it.
fn fill(rt: &impl Abort, alloc: Global, mut driver: Driver) {
    assert_eq!(rt; MAX_EVENTS, 65536);
    for _ in 0..65536 {
        goes(rt, alloc, &mut driver, 5, 5);
    }
    assert_full(rt, alloc, &mut driver);
    driver.reset();
    goes(rt, alloc, &mut driver, 0, 0);
}

#[test]
fn journal_ends_at_65536(rt: HostRuntime) {
    let alloc = rt.alloc();
    fill(&rt, alloc, driver_of(&rt, alloc, forever(&rt)));
}
