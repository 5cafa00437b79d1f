//! Calls one quota from several threads: `bench quota [CALL] [THREADS] [CALLS]`, where CALL is `granted`, `refused` or
//! `deposit`, by default with 2 threads and 1,000 deposits each. It prints what was given and asked.
ghost use Rattle.std.specs.Prelude.{◌≡◌, ◌≤◌, All, IfOk};
ghost use Rattle.sched_ticket_quota.specs.Held.{IsOf};

use sched_ticket_quota::{Pass, Quota, QuotaFault, Terms, Usage};
use sched_time::{Millis, Moment};
use std::alloc::{AllocError, AllocGlobal, Global};
use std::rt::Runtime;
use std::thread::{Threads, map_vec};
use std::{env, io};

/// What each thread calls again and again.
#[derive(Clone, Copy, PartialEq, Eq, Drop)]
enum Call {
    /// A draw of a quota that has tickets.
    Granted,
    /// A draw of a quota that has none.
    Refused,
    /// A deposit.
    Deposit,
}

pub fn bench<R: Runtime + Threads + AllocGlobal + Sync>(rt: &R) -> io::Result<()> {
    let mut words = env::args(rt)?.skip(2);
    let call = match words.next() {
        Some(word) if word.as_str() == "granted" => Call::Granted,
        Some(word) if word.as_str() == "refused" => Call::Refused,
        _ => Call::Deposit,
    };
    let threads = words
        .next()
        .and_then(|word| word.as_str().parse().ok())
        .unwrap_or(2);
    let calls = words
        .next()
        .and_then(|word| word.as_str().parse().ok())
        .unwrap_or(1000);
    match called(rt, rt.alloc(), call, threads, calls) {
        Ok(usage) => println!(rt;
            "{threads} threads, {calls} calls each: {} tickets for {} requests",
            usage.given, usage.asked
        ),
        Err(fault) => println!(rt; "{fault}"),
    }
}

/// Each thread makes so many calls; where there is one alone, it is this one. It answers what the quota gave.
fn called<R: Threads + Sync>(
    rt: &R,
    alloc: Global,
    call: Call,
    threads: u64,
    calls: u64,
) -> Result<Usage, QuotaFault> {
    let terms = Terms {
        reserve: if call == Call::Refused { 0 } else { 4294967296 },
        share: 0,
        period: Millis::from(1000),
    };
    let now = Moment::new(500).ok_or(QuotaFault::PeriodTooShort)?;
    let (quota, mut first) = Quota::new(alloc, now, terms)?;
    if threads == 1 {
        let mut pass = call_times(&quota, first, now, call, calls);
        return Ok(pass.seen(&quota, now));
    }
    let passes = split_off(alloc, &quota, &mut first, threads)?;
    let Ok(_passes) = call_each(rt, &quota, passes, now, call, calls) else {
        return Err(QuotaFault::NoMemory);
    };
    Ok(first.seen(&quota, now))
}

/// One pass for each thread.
fn split_off(
    alloc: Global,
    quota: &Quota,
    first: &mut Pass,
    threads: u64,
) -> Result<Vec<Pass>, QuotaFault>
    requires { IsOf quota.now first.old }
    ensures of { IsOf quota.now first.new }
    ensures passes { IfOk result (λ v. All (IsOf quota.now) v.items) }
{
    let mut passes = Vec::new(alloc);
    for _ in 0..threads {
        let part = first.split(quota)?;
        if passes.push(part).is_err() {
            return Err(QuotaFault::NoMemory);
        }
    }
    Ok(passes)
}

/// Each pass calls in a thread of its own.
fn call_each<R: Threads + Sync>(
    rt: &R,
    quota: &Quota,
    passes: Vec<Pass>,
    now: Moment,
    call: Call,
    calls: u64,
) -> Result<Vec<Pass>, AllocError>
    requires { All (IsOf quota.now) passes.items }
    ensures { IfOk result (λ v. All (IsOf quota.now) v.items) }
{
    map_vec(
        rt,
        passes,
        &|pass: Pass| call_times(quota, pass, now, call, calls),
    )
}

/// Makes so many calls with this pass.
fn call_times(quota: &Quota, pass: Pass, now: Moment, call: Call, calls: u64) -> Pass
    requires { IsOf quota.now pass }
    ensures { IsOf quota.now result }
{
    if call == Call::Deposit {
        deposit_times(quota, pass, now, calls)
    } else {
        draw_times(quota, pass, now, calls)
    }
}

fn deposit_times(quota: &Quota, mut pass: Pass, now: Moment, calls: u64) -> Pass
    requires { IsOf quota.now pass }
    ensures { IsOf quota.now result }
{
    for _ in 0..calls {
        pass.deposit(quota, now);
    }
    pass
}

fn draw_times(quota: &Quota, mut pass: Pass, now: Moment, calls: u64) -> Pass
    requires { IsOf quota.now pass }
    ensures { IsOf quota.now result }
{
    for _ in 0..calls {
        let _ticket = pass.draw(quota, now);
    }
    pass
}
