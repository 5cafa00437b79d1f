//! A quota of several threads, window by window.
ghost use Rattle.std.specs.Prelude.{◌≤◌, All};
ghost use Rattle.sched_ticket_quota.specs.Held.{IsOf};

use super::quotas::{at, closes, made, part_of, terms};
use sched_ticket_quota::{Pass, Quota};
use sched_time::Moment;
use std::alloc::Global;
use std::process::Abort;
use std::thread::{Threads, map_vec};

const MANY: u64 = 1000000;

fn deposit_times(quota: &Quota, mut pass: Pass, now: Moment, requests: u64) -> Pass
    requires { IsOf quota.now pass }
    ensures { IsOf quota.now result }
{
    for _ in 0..requests {
        pass.deposit(quota, now);
    }
    pass
}

// Counts so many requests, and draws until nothing is left. A draw that lost its races is tried again.
fn draw_all(
    rt: &impl Abort,
    alloc: Global,
    quota: &Quota,
    pass: Pass,
    now: Moment,
    requests: u64,
) -> (Pass, Vec<u64>)
    requires { IsOf quota.now pass }
    ensures { IsOf quota.now result.0 }
{
    let mut pass = deposit_times(quota, pass, now, requests);
    let mut drawn = Vec::new(alloc);
    for _ in 0..MANY {
        if let Ok(ticket) = pass.draw(quota, now) {
            drawn.push(ticket).expect(rt, "there is memory");
        } else if pass.seen(quota, now).left == 0 {
            break;
        }
    }
    (pass, drawn)
}

// So many passes that are split off this one.
fn split_off(
    rt: &impl Abort,
    alloc: Global,
    quota: &Quota,
    pass: &mut Pass,
    workers: u64,
) -> Vec<Pass>
    requires { IsOf quota.now pass.old }
    ensures of { IsOf quota.now pass.new }
    ensures passes { All (IsOf quota.now) result.items }
{
    let mut passes = Vec::new(alloc);
    for _ in 0..workers {
        let part = part_of(rt, quota, pass);
        passes.push(part).expect(rt, "there is memory");
    }
    passes
}

fn draw_beside<R: Abort + Threads + Sync>(
    rt: &R,
    alloc: Global,
    quota: &Quota,
    passes: Vec<Pass>,
    now: Moment,
    requests: u64,
) -> Vec<(Pass, Vec<u64>)>
    requires { All (IsOf quota.now) passes.items }
    ensures { All (λ t. IsOf quota.now t.0) result.items }
{
    map_vec(
        rt,
        passes,
        &|pass: Pass| { draw_all(rt, alloc, quota, pass, now, requests) },
    )
    .expect(rt, "there is memory")
}

// One pass, and all tickets from the least on.
fn join_all(
    rt: &impl Abort,
    alloc: Global,
    quota: &Quota,
    mut pass: Pass,
    mut done: Vec<(Pass, Vec<u64>)>,
) -> (Pass, Vec<u64>)
    requires pass { IsOf quota.now pass }
    requires done { All (λ t. IsOf quota.now t.0) done.items }
    ensures { IsOf quota.now result.0 }
{
    let mut all = Vec::new(alloc);
    while let Some(next) = done.pop() {
        let (other, drawn) = next;
        pass = pass.join(other, quota);
        all.extend_from_slice(drawn.as_slice())
            .expect(rt, "there is memory");
    }
    all.sort().expect(rt, "there is memory");
    (pass, all)
}

// So many threads draw what a window has, each after so many requests.
fn drained<R: Abort + Threads + Sync>(
    rt: &R,
    alloc: Global,
    quota: &Quota,
    mut pass: Pass,
    now: Moment,
    of: (u64, u64),
) -> (Pass, Vec<u64>)
    requires { IsOf quota.now pass }
    ensures { IsOf quota.now result.0 }
{
    let (workers, requests) = of;
    let passes = split_off(rt, alloc, quota, &mut pass, workers);
    let done = draw_beside(rt, alloc, quota, passes, now, requests);
    join_all(rt, alloc, quota, pass, done)
}

const WINDOWS: u64 = 1000;

// Whether each ticket is of this window.
fn are_of(tickets: &[u64], window: u64) -> bool {
    for ticket in tickets {
        if *ticket / 4294967296 != window {
            return false;
        }
    }
    true
}

// Eight threads in a window, and then this one, which finds what a thread left before the others' requests came:
// whether they draw 3 of the reserve, and 10 of 8 * 5 requests.
fn window_fills<R: Abort + Threads + Sync>(
    rt: &R,
    alloc: Global,
    quota: &Quota,
    pass: Pass,
    window: u64,
) -> (Pass, bool)
    requires of { IsOf quota.now pass }
    requires window { window ≤ 1000 }
    ensures { IsOf quota.now result.0 }
{
    let now = at(window * 100);
    let (pass, all) = drained(rt, alloc, quota, pass, now, (8, 5));
    let (pass, rest) = draw_all(rt, alloc, quota, pass, now, 0);
    let full = all.len().wrapping_add(rest.len()) == 13 && are_of(all.as_slice(), window);
    (pass, full)
}

// Whether so each window fills.
fn windows_fill<R: Abort + Threads + Sync>(
    rt: &R,
    alloc: Global,
    quota: &Quota,
    mut pass: Pass,
) -> (Pass, bool)
    requires { IsOf quota.now pass }
    ensures { IsOf quota.now result.0 }
{
    let mut each = true;
    for window in 0..WINDOWS {
        let (back, full) = window_fills(rt, alloc, quota, pass, window);
        pass = back;
        each &= full;
    }
    (pass, each)
}

#[test]
fn eight_threads_over_windows(rt: HostRuntime) {
    let (quota, pass) = made(&rt, Quota::new(rt.alloc(), at(0), terms(3, 250, 100)));
    let (pass, full) = windows_fill(&rt, rt.alloc(), &quota, pass);
    assert!(rt; full);
    closes(&rt, quota, pass, 13000);
}
