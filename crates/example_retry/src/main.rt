//! `example_retry FILE` prints a file, and waits for one that is not there yet: it tries again after 100, 200, 400 and
//! 800 milliseconds, each made up to a fifth shorter or longer. If it never reads the file, it ends in the last error.
#![tactic(auto)]

ghost use Rattle.std.specs.Prelude.{◌≡◌, [], IfOk};
ghost use Rattle.sched_run.specs.Standing.{standing_after};

use anyhow::{Context, Result};
use sched_run::{
    Budget, CallEnding, NoMemory, OnBudget, Plan, PlanFault, SharedPlan, Stepper, SystemClock,
    SystemWords, Tagged, retry_call,
};
use std::alloc::{AllocGlobal, Global};
use std::random::RandomSource;
use std::rt::{Files, Runtime};
use std::sync::Wait;
use std::{env, fs, io};

// What is retried: to read this file.
fn read_once<R: Files + AllocGlobal>(
    rt: &R,
    path: &str,
) -> Result<Tagged<String>, Tagged<io::Error>> {
    match fs::read_to_string(rt, path) {
        Ok(text) => Ok(Tagged::by(text, |text| text.len() as u64)),
        Err(error) => Err(Tagged::by(error, |_| 0)),
    }
}

// Four more tries, each after twice the time, which is made up to a fifth shorter or longer.
fn back_off(alloc: Global) -> Result<Plan, PlanFault> {
    let doubled = Plan::exponential(100, 2)?;
    let jittered = Plan::jitter(alloc, 0, 800, 1200, doubled)?;
    Plan::meet(alloc, Plan::recurs(4)?, jittered)
}

// What the retry is made of at the first failure: what steps the plan, and a pass of its own.
fn begun<'a>(
    alloc: Global,
    plan: &SharedPlan,
    pass: &mut OnBudget<&'a Budget>,
) -> Result<(Stepper, OnBudget<&'a Budget>), NoMemory>
    ensures { IfOk result (λ made. made.0 ≡ standing_after made.0.plan []) }
{
    let part = pass.split().map_err(|_| NoMemory)?;
    Ok((Stepper::of_shared(alloc, plan.share()?)?, part))
}

// The text of the file, once it can be read.
fn read<R: Runtime + RandomSource + AllocGlobal + Wait>(rt: &R, path: &str) -> Result<String> {
    let alloc = rt.alloc();
    let mut clock = SystemClock::new(rt)?;
    let mut words = SystemWords::new(rt)?;
    let plan = SharedPlan::new(alloc, back_off(alloc)?)?;
    let (budget, pass) = Budget::by_parts(alloc, 10)?;
    let mut pass = OnBudget::new(pass, &budget);
    let (ending, retry) = retry_call(
        rt,
        &mut |alloc| begun(alloc, &plan, &mut pass),
        &mut clock,
        &mut words,
        || read_once(rt, path),
    );
    let retries = match retry {
        Some(retry) => retry.granted(),
        None => 0,
    };
    told(rt, retries, ending)
}

// What came of it, after a line that tells how many retries there were.
fn told<R: Eprint>(
    rt: &R,
    retries: u64,
    ending: CallEnding<Tagged<String>, Tagged<io::Error>>,
) -> Result<String> {
    eprintln!(rt; "{retries} retries")?;
    match ending {
        CallEnding::Won(text) => Ok(text.value),
        CallEnding::ScheduleDone(fault) => Err(fault.value.into()),
        CallEnding::BudgetRefused(fault) => Err(fault.value.into()),
        CallEnding::DeadlinePassed(fault) => Err(fault.value.into()),
        CallEnding::Broken(_, fault) => Err(fault.value.into()),
    }
}

fn main(rt: HostRuntime) -> Result<()> {
    let mut words = env::args(&rt)?;
    let path = words.nth(1).context("usage: example_retry FILE")?;
    let text = read(&rt, path.as_str())?;
    print!(rt; "{text}")?;
    Ok(())
}
