//! Draws of one limit with one thread: `bench limit [KIND] [DRAWS]`, of a bucket and 1,000 draws where nothing is said.
//! The other kinds are `flight`, whose request ends and comes again at each draw, `breaker`, which is asked and told of
//! a success, `throttle` likewise, and `add`, a bare atomic add. It prints what was granted.
use sched_limit::{Breaker, Bucket, InFlight, Throttle};
use sched_limit_request::{Asks, OnLimit, OnThrottle};
use sched_time::{Millis, Moment, NoMemory};
use std::alloc::{AllocGlobal, Global};
use std::rt::Runtime;
use std::sync::atomic::{AtomicU64, Ordering};
use std::{env, io};

pub fn bench<R: Runtime + AllocGlobal>(rt: &R) -> io::Result<()> {
    let mut words = env::args(rt)?.skip(2);
    let kind = words.next();
    let draws = words
        .next()
        .and_then(|word| word.as_str().parse().ok())
        .unwrap_or(1000);
    let granted = match kind {
        Some(kind) => granted(rt.alloc(), kind.as_str(), draws),
        None => buckets(rt.alloc(), start(), draws),
    };
    match granted {
        Ok(granted) => println!(rt; "{draws} draws: {granted} granted"),
        Err(fault) => println!(rt; "{fault:?}"),
    }
}

/// How many of so many draws of this kind are granted.
fn granted(alloc: Global, kind: &str, draws: u64) -> Result<u64, NoMemory> {
    let now = start();
    if kind == "flight" {
        flights(alloc, now, draws)
    } else if kind == "breaker" {
        breakers(alloc, now, draws)
    } else if kind == "throttle" {
        throttles(alloc, now, draws)
    } else if kind == "add" {
        Ok(adds(draws))
    } else {
        buckets(alloc, now, draws)
    }
}

fn start() -> Moment {
    match Moment::new(0) {
        Some(moment) => moment,
        None => unreachable!(),
    }
}

/// A bare atomic add at each turn.
fn adds(draws: u64) -> u64 {
    let count = AtomicU64::new(0);
    for _ in 0..draws {
        count.fetch_add(1, Ordering::SeqCst);
    }
    count.load(Ordering::SeqCst)
}

/// Draws of a bucket that has tokens enough.
fn buckets(alloc: Global, now: Moment, draws: u64) -> Result<u64, NoMemory> {
    let bucket = Bucket {
        capacity: 1099511627776,
        floor: 0,
        debit: 0,
        credit: 0,
        refund: false,
    };
    let mut on = OnLimit::new(alloc, bucket)?;
    let mut granted: u64 = 0;
    if on.admit(now, 0).is_err() {
        return Ok(0);
    }
    for _ in 0..draws {
        if on.draw(now, 1, 0).is_ok() {
            granted = granted.wrapping_add(1);
        }
    }
    Ok(granted)
}

/// A request comes, retries once and is over.
fn flights(alloc: Global, now: Moment, draws: u64) -> Result<u64, NoMemory> {
    let mut on = OnLimit::new(alloc, InFlight::envoy(20, 3))?;
    let mut granted: u64 = 0;
    for _ in 0..draws {
        on.ended();
        if on.admit(now, 0).is_ok() && on.draw(now, 0, 0).is_ok() {
            granted = granted.wrapping_add(1);
        }
    }
    Ok(granted)
}

/// A request asks a breaker, and succeeds.
fn breakers(alloc: Global, now: Moment, draws: u64) -> Result<u64, NoMemory> {
    let Some(breaker) = Breaker::new(now, 5, 1, Millis::from(1000), [30000; 64], 0) else {
        return Ok(0);
    };
    let mut on = OnLimit::new(alloc, breaker)?;
    succeeding(&mut on, now, draws)
}

/// A request asks a throttle, and succeeds.
fn throttles(alloc: Global, now: Moment, draws: u64) -> Result<u64, NoMemory> {
    let mut on = OnThrottle::new(alloc, Throttle::google(now))?;
    succeeding(&mut on, now, draws)
}

/// A request is admitted, and draws so often, succeeding each time.
fn succeeding<A: Asks>(on: &mut A, now: Moment, draws: u64) -> Result<u64, NoMemory> {
    let mut granted: u64 = 0;
    if on.admit(now, 0).is_err() {
        return Ok(0);
    }
    for _ in 0..draws {
        if on.draw(now, 0, 0).is_ok() {
            on.succeeded(now);
            granted = granted.wrapping_add(1);
        }
    }
    Ok(granted)
}
