//! Values: each of their calls, once.
use sched_plan::{Val, ValShape};
use sched_time::Millis;
use std::alloc::Global;
use std::process::Abort;

fn number(rt: &impl Abort, number: u64) -> Val {
    Val::num(number).expect(rt, "the number is in range")
}

// `(3, [7])`
fn pair(rt: &impl Abort, alloc: Global) -> Val {
    let mut items = Vec::new(alloc);
    items.push(number(rt, 7)).expect(rt, "there is memory");
    let pair = Val::pair(alloc, number(rt, 3), Val::list(items));
    pair.expect(rt, "there is memory")
}

fn has_text(rt: &impl Abort, alloc: Global, value: &Val, want: &str) {
    let text = value.text(alloc).expect(rt, "there is memory");
    assert_eq!(rt; text.as_str(), want);
}

#[test]
fn copy_of_a_pair(rt: HostRuntime) {
    let alloc = rt.alloc();
    let pair = pair(&rt, alloc);
    let copy = pair.copy(alloc).expect(&rt, "there is memory");
    assert!(rt; copy.same(&pair));
    has_text(&rt, alloc, &copy, "(3, [7])");
}

#[test]
fn parts_of_a_pair(rt: HostRuntime) {
    let alloc = rt.alloc();
    let first = pair(&rt, alloc).into_first();
    assert_eq!(rt; first.as_num().map(Millis::get), Some(3));
    has_text(&rt, alloc, &pair(&rt, alloc).into_second(), "[7]");
}

// Whether the value is a pair of 3 and something.
fn is_pair(value: &Val) -> bool {
    match value.shape() {
        ValShape::Pair(both) => both.0.as_num().map(Millis::get) == Some(3),
        _ => false,
    }
}

#[test]
fn shape_of_a_pair(rt: HostRuntime) {
    assert!(rt; is_pair(&pair(&rt, rt.alloc())));
}
