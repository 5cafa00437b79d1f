//! Calls a closure by `retry_call`: `bench call [WHAT] [ON] [CALLS]`, by default 1,000 granted retries on a budget.
//!
//! WHAT is `call`, a closure called with no retry, `success`, calls that succeed at once, each with a retry of its own,
//! `granted`, one whose retries are granted, with no wait, or `refused`, calls that fail and are refused a retry. ON is
//! `nothing`, `budget` or `quota`. It prints a count.
ghost use Rattle.std.specs.Prelude.{◌≡◌, [], IfOk};
ghost use Rattle.sched_driver_stepper.specs.Standing.{standing_after};

use sched_run::{
    Budget, Draws, Machine, MidWords, Millis, Moment, NoMemory, OnBudget, OnQuota, Plan, Quiet,
    Quota, SharedPlan, Stepper, Terms, Unlimited, VirtualClock, retry_call,
};
use std::alloc::{AllocGlobal, Global};
use std::rt::Runtime;
use std::sync::Wait;
use std::{env, io};

/// What is done again and again.
#[derive(Clone, Copy, PartialEq, Eq, Drop)]
enum What {
    /// The closure alone, which succeeds.
    Call,
    /// A call that succeeds at once.
    Success,
    /// A retry of one call.
    Granted,
    /// A call that fails, and whose retry is refused.
    Refused,
}

pub fn bench<R: Runtime + Wait + AllocGlobal>(rt: &R) -> io::Result<()> {
    let mut words = env::args(rt)?.skip(2);
    let what = match words.next() {
        Some(word) if word.as_str() == "call" => What::Call,
        Some(word) if word.as_str() == "success" => What::Success,
        Some(word) if word.as_str() == "refused" => What::Refused,
        _ => What::Granted,
    };
    let on = words.next();
    let on = match &on {
        Some(word) => word.as_str(),
        None => "budget",
    };
    let calls = words
        .next()
        .and_then(|word| word.as_str().parse().ok())
        .unwrap_or(1000);
    match counted(rt, what, on, calls) {
        Some(count) => println!(rt; "{count} of {calls} on {on}"),
        None => println!(rt; "no memory"),
    }
}

// So many of what is done; it answers what they gave.
fn counted<R: Wait + AllocGlobal>(rt: &R, what: What, on: &str, calls: u64) -> Option<u64> {
    let alloc = rt.alloc();
    if what == What::Call {
        return Some(call_alone(calls));
    }
    let plan = SharedPlan::new(alloc, Plan::forever().ok()?).ok()?;
    let limit = if what == What::Refused { 0 } else { 4294967296 };
    match on {
        "budget" => {
            let (budget, pass) = Budget::by_parts(alloc, limit).ok()?;
            let pass = OnBudget::new(pass, &budget);
            Some(calls_by(rt, what, &plan, pass, calls))
        }
        "quota" => {
            let terms = Terms {
                reserve: limit,
                share: 0,
                period: Millis::from(1000),
            };
            let (quota, pass) = Quota::new(alloc, Moment::new(0)?, terms).ok()?;
            let pass = OnQuota::new(pass, &quota);
            Some(calls_by(rt, what, &plan, pass, calls))
        }
        _ => Some(calls_by(rt, what, &plan, Unlimited::new(), calls)),
    }
}

// The closure alone, so often; it answers the sum of what it gave.
fn call_alone(calls: u64) -> u64 {
    let mut state: u64 = 1;
    let mut sum: u64 = 0;
    for _ in 0..calls {
        if let Ok(given) = attempt(&mut state, 0) {
            sum = sum.wrapping_add(given);
        }
    }
    sum
}

// An attempt: it succeeds where none is to fail any more. What it gives is not known before it is made.
fn attempt(state: &mut u64, left: u64) -> Result<u64, u64> {
    *state = state
        .wrapping_mul(6364136223846793005)
        .wrapping_add(1442695040888963407);
    if left == 0 { Ok(*state) } else { Err(*state) }
}

// What draws with a pass that can be split.
trait Splits: Quiet {
    // One that draws on the same, with a pass of its own.
    fn part(&mut self) -> Result<Self, NoMemory>;
}

impl<'a> Splits for OnBudget<&'a Budget> {
    fn part(&mut self) -> Result<Self, NoMemory> {
        self.split().map_err(|_| NoMemory)
    }
}

impl<'a> Splits for OnQuota<&'a Quota> {
    fn part(&mut self) -> Result<Self, NoMemory> {
        self.split().map_err(|_| NoMemory)
    }
}

impl Splits for Unlimited {
    fn part(&mut self) -> Result<Self, NoMemory> {
        Ok(Unlimited::new())
    }
}

// Calls of this kind, with retries of this plan; it answers how many retries were granted, and for calls that succeed
// at once the sum of what they gave.
fn calls_by<R: Wait + AllocGlobal, D: Splits>(
    rt: &R,
    what: What,
    plan: &SharedPlan,
    mut pass: D,
    calls: u64,
) -> u64 {
    let mut state: u64 = 1;
    if what == What::Granted {
        return one_call(rt, plan, &mut pass, &mut state, calls);
    }
    let failures = if what == What::Refused { 1 } else { 0 };
    let mut sum: u64 = 0;
    for _ in 0..calls {
        sum = sum.wrapping_add(one_call(rt, plan, &mut pass, &mut state, failures));
    }
    sum
}

// One call, which fails so often and then succeeds, with a retry of its own; it answers how many retries were granted,
// and what the call gave where there was none.
fn one_call<R: Wait + AllocGlobal, D: Splits>(
    rt: &R,
    plan: &SharedPlan,
    pass: &mut D,
    state: &mut u64,
    failures: u64,
) -> u64 {
    let mut clock = VirtualClock::at(Moment::new(0).unwrap());
    let mut left = failures;
    let (ending, retry) = retry_call(
        rt,
        &mut |alloc| begun(alloc, plan, pass),
        &mut clock,
        &mut MidWords,
        || {
            let given = attempt(state, left);
            left = left.saturating_sub(1);
            given
        },
    );
    match retry {
        Some(retry) => granted(retry),
        None => match ending.into_result() {
            Ok(given) => given,
            Err(given) => given,
        },
    }
}

// How many retries there were, told apart from the calls that succeed at once.
#[cold]
#[inline(never)]
fn granted<D: Draws>(retry: Machine<Stepper, D>) -> u64 {
    retry.granted()
}

// What a retry is made of: what steps the plan, and a pass of its own.
fn begun<D: Splits>(
    alloc: Global,
    plan: &SharedPlan,
    pass: &mut D,
) -> Result<(Stepper, D), NoMemory>
    ensures { IfOk result (λ made. made.0 ≡ standing_after made.0.plan []) }
{
    Ok((Stepper::of_shared(alloc, plan.share()?)?, pass.part()?))
}
