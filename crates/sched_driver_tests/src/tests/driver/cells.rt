use super::*;
use sched_driver::DriverCell;
use std::sync::Wait;
use std::thread;

fn cell_of(rt: &impl Abort, alloc: Global, plan: Plan) -> DriverCell {
    DriverCell::new(driver_of(rt, alloc, plan))
}

// Asserts that one more event at this moment, through the cell, leads on to this start.
fn steps(rt: &(impl Abort + Wait), alloc: Global, cell: &DriverCell, at: u64, start: u64) {
    goes(rt, alloc, &mut cell.enter(rt), at, start);
}

// Asserts that the driver has this plan, and events at these moments.
fn assert_is(rt: &impl Abort, driver: &Driver, plan: &Plan, moments: &[u64]) {
    assert_plan(rt, driver, plan);
    assert_moments(rt, driver.journal(), moments);
}

// Such a driver in its cell, and out of it.
fn assert_holds(rt: &(impl Abort + Wait), cell: DriverCell, plan: &Plan, moments: &[u64]) {
    assert_is(rt, &cell.enter(rt), plan, moments);
    assert_is(rt, &cell.into_driver(), plan, moments);
}

// Events of both by turns.
fn by_turns(rt: &(impl Abort + Wait), alloc: Global, one: &DriverCell, other: &DriverCell) {
    steps(rt, alloc, one, 50, 150);
    steps(rt, alloc, other, 7, 7);
    steps(rt, alloc, one, 150, 250);
    steps(rt, alloc, other, 8, 8);
    steps(rt, alloc, other, 9, 9);
}

#[test]
fn two_cells_by_turns_keep_apart(rt: HostRuntime) {
    let alloc = rt.alloc();
    let one = cell_of(&rt, alloc, spaced_recurs(&rt, alloc));
    let other = cell_of(&rt, alloc, forever(&rt));
    by_turns(&rt, alloc, &one, &other);
    assert_holds(&rt, one, &spaced_recurs(&rt, alloc), &[50, 150]);
    assert_holds(&rt, other, &forever(&rt), &[7, 8, 9]);
}

// Makes 100 events at 5, and tells whether all were taken.
fn hundred(rt: &(impl Abort + Wait), alloc: Global, cell: &DriverCell) -> bool {
    let mut taken = true;
    for _ in 0..100 {
        taken &= next(rt, alloc, &mut cell.enter(rt), 5).is_ok();
    }
    taken
}

// Asserts that the driver of `forever` in this cell shows 200 events at 5.
fn assert_two_hundred(rt: &impl Abort, alloc: Global, cell: DriverCell) {
    let all = Shown {
        moments: &[5; 200],
        last: "199",
        next_start: Some(5),
        view: "200",
    };
    assert_shows(rt, alloc, &cell.into_driver(), &all);
}

#[test]
fn two_threads_share_a_cell(rt: HostRuntime) {
    let alloc = rt.alloc();
    let cell = cell_of(&rt, alloc, forever(&rt));
    let both = thread::join(
        &rt,
        || hundred(&rt, alloc, &cell),
        || hundred(&rt, alloc, &cell),
    );
    assert!(rt; both == (true, true));
    assert_two_hundred(&rt, alloc, cell);
}
