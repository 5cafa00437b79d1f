//! Quotas: a million splits, and the texts of faults.
ghost use Rattle.std.specs.Prelude.{◌≤◌, IfOk};
ghost use Rattle.sched_ticket_quota.specs.Held.{IsOf};

use sched_ticket_quota::{
    NotBack, Pass, PassesOut, Quota, QuotaFault, Refusal, Terms, WeightTooLarge,
};
use sched_time::{Millis, Moment};
use std::alloc::Global;
use std::fmt::Display;
use std::process::Abort;

pub(super) fn at(millis: u64) -> Moment
    requires { millis ≤ 4611686018427387903 }
{
    match Moment::new(millis) {
        Some(moment) => moment,
        None => unreachable!(),
    }
}

pub(super) fn terms(reserve: u64, share: u64, period: u32) -> Terms {
    Terms {
        reserve,
        share,
        period: Millis::from(period),
    }
}

// The quota that was made, and its first pass.
pub(super) fn made(rt: &impl Abort, made: Result<(Quota, Pass), QuotaFault>) -> (Quota, Pass)
    requires { IfOk made (λ r. IsOf r.0 r.1) }
    ensures { IsOf result.0 result.1 }
{
    made.expect(rt, "there is memory")
}

// Another pass, split off this one.
pub(super) fn part_of(rt: &impl Abort, quota: &Quota, pass: &mut Pass) -> Pass
    requires { IsOf quota.now pass.old }
    ensures of { IsOf quota.now pass.new }
    ensures part { IsOf quota.now result }
{
    pass.split(quota).expect(rt, "a part is left")
}

// Asserts that the pass has all parts, with so many tickets.
pub(super) fn closes(rt: &impl Abort, quota: Quota, pass: Pass, granted: u64)
    requires { IsOf quota pass }
{
    let tickets = quota.close(pass).ok();
    assert_eq!(rt; tickets, Some(granted));
}

// Asserts the text of a fault.
fn says(rt: &impl Abort, alloc: Global, fault: &impl Display, want: &str) {
    let text = fault.to_string(alloc).expect(rt, "there is memory");
    assert_eq!(rt; text.as_str(), want);
}

const QUOTA_FAULTS: [(QuotaFault, &str); 5] = [
    (
        QuotaFault::ReserveTooLarge,
        "the reserve is more than 4294967296 tickets a window",
    ),
    (
        QuotaFault::ShareTooLarge,
        "the share is more than 1000 tickets a request",
    ),
    (
        QuotaFault::PeriodTooShort,
        "the window is shorter than 100 ms",
    ),
    (QuotaFault::NoMemory, "no memory"),
    (QuotaFault::TooManyPasses, "the pass has no part to give"),
];

#[test]
fn faults_say_why(rt: HostRuntime) {
    let alloc = rt.alloc();
    for (fault, text) in &QUOTA_FAULTS {
        says(&rt, alloc, fault, text);
    }
    let out = "another pass of the quota is alive or was dropped";
    says(&rt, alloc, &PassesOut, out);
    let window = Refusal::WindowOut(at(0));
    says(&rt, alloc, &window, "the tickets of the window are out");
    let races = "64 races with other draws were lost";
    says(&rt, alloc, &Refusal::RacesLost, races);
    let weight = "the requests are more than the pass has parts";
    says(&rt, alloc, &WeightTooLarge, weight);
    let none = "the pass has no ticket to hand back";
    says(&rt, alloc, &NotBack::NoTicket, none);
    let races = "64 races with other tickets were lost";
    says(&rt, alloc, &NotBack::RacesLost, races);
}

const SPLITS: u64 = 1000000;

// The pass after so many splits, with a request in each part, which is joined again.
fn split_and_join(rt: &impl Abort, quota: &Quota, mut pass: Pass) -> Pass
    requires { IsOf quota.now pass }
    ensures { IsOf quota.now result }
{
    for _ in 0..SPLITS {
        let mut part = part_of(rt, quota, &mut pass);
        part.deposit(quota, at(0));
        pass = pass.join(part, quota);
    }
    pass
}

// Asserts how many requests the quota counted.
fn has_counted(rt: &impl Abort, quota: &Quota, pass: &mut Pass, requests: u64)
    requires { IsOf quota.now pass.old }
    ensures { IsOf quota.now pass.new }
{
    let usage = pass.seen(quota, at(0));
    assert_eq!(rt; usage.asked, requests);
}

#[test]
fn a_million_splits(rt: HostRuntime) {
    let (quota, pass) = made(&rt, Quota::new(rt.alloc(), at(0), terms(0, 1, 1000)));
    let mut pass = split_and_join(&rt, &quota, pass);
    has_counted(&rt, &quota, &mut pass, 1000000);
    closes(&rt, quota, pass, 0);
}
