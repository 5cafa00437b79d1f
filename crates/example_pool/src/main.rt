//! `example_pool` makes 200 calls to a service on four threads, while a fifth prints on standard error how many are
//! over. The service turns every third call away; those are retried, with a ticket of one budget for each retry. Which
//! calls are retried varies from run to run, but there are always 99 retries in all.
#![tactic(auto)]

ghost use Rattle.std.specs.Prelude.{◌≡◌};
ghost use Rattle.sched_pool.specs.Held.{IsOf};

use anyhow::{Context, Result, bail};
use sched_pool::{
    Action, Board, Budget, Call, Driver, Naming, OnBudget, OpenGate, Pass, Plan, PlanFault, Retry,
    Station, SystemClock, SystemWords,
};
use std::alloc::{AllocGlobal, Global};
use std::io;
use std::marker::Brand;
use std::random::RandomSource;
use std::rt::{Clock, Runtime};
use std::sync::atomic::{AtomicU64, Ordering};
use std::sync::{Arc, Wait};
use std::thread::{self, Threads};
use std::time::Duration;

const JOBS: u64 = 200;

// The service counts the calls that were made, and those that it answered.
#[derive(Drop)]
struct Service {
    calls: AtomicU64,
    answered: AtomicU64,
}

// What is retried: a call to the service, which takes 2 milliseconds.
#[derive(Drop)]
struct Ask<'a, R> {
    rt: &'a R,
    service: &'a Service,
}

impl<'a, R: Clock> Action for Ask<'a, R> {
    type Item = u64;

    type Fault = u64;

    fn run(&mut self) -> Result<u64, u64> {
        thread::sleep(self.rt, Duration::from_millis(2));
        let number = self.service.calls.fetch_add(1, Ordering::SeqCst);
        if number % 3 == 2 {
            return Err(number);
        }
        self.service.answered.fetch_add(1, Ordering::SeqCst);
        Ok(number)
    }
}

fn back_off(alloc: Global) -> Result<Plan, PlanFault> {
    let capped = Plan::cap(alloc, 80, Plan::exponential(10, 2)?)?;
    Plan::jitter(alloc, 0, 500, 1500, capped)
}

// Prints how many calls are over, every 50 milliseconds, until all are or half a minute has passed.
fn watch<R: Clock + Eprint>(rt: &R, service: &Service) -> io::Result<()> {
    for _ in 0..600 {
        let over = service.answered.load(Ordering::SeqCst);
        eprintln!(rt; "{over} of {JOBS} are over")?;
        if over == JOBS {
            break;
        }
        thread::sleep(rt, Duration::from_millis(50));
    }
    Ok(())
}

// Runs the calls on four threads, by a budget that `N` names, and answers how many retries were granted.
fn run<R, N: Naming + Send + Sync>(
    rt: &R,
    service: &Service,
    budget: Budget,
    mut pass: Pass,
) -> Result<u64>
where
    R: Runtime + RandomSource + AllocGlobal + Wait + Threads + Sync,
    requires name { budget ≡ N.budget }
    requires of { IsOf budget pass }
{
    let alloc = rt.alloc();
    let mut board: Board<'_, Call<Ask<'_, R>>, N> = Board::new(alloc, &budget);
    for _ in 0..JOBS {
        let own = pass.split(&budget)?;
        let driver = Driver::new(alloc, back_off(alloc)?)?;
        let call = Call::new(alloc, Ask { rt, service });
        let retry = Retry::new(alloc, call, driver, OnBudget::new(own, &budget));
        board.add(retry).map_err(|refused| refused.fault)?;
    }
    let mut stations = Vec::new(alloc);
    for _ in 0..4 {
        let station = Station::new(SystemClock::new(rt)?, SystemWords::new(rt)?, 50);
        stations.push(station.context("the hold is out of range")?)?;
    }
    match board.run(rt, pass, stations, &OpenGate, u64::MAX) {
        Ok(end) => Ok(end.granted),
        Err(_) => bail!("the board stopped"),
    }
}

fn main(rt: HostRuntime) -> Result<()> {
    let service = Service {
        calls: AtomicU64::new(0),
        answered: AtomicU64::new(0),
    };
    let service = Arc::new(rt.alloc(), service)?;
    let (own, theirs) = (rt.clone()?, Arc::try_clone(&service)?);
    let watcher = thread::spawn(&rt, move || watch(&own, &theirs))?;
    let (budget, pass) = Budget::new(rt.alloc(), 100)?;
    let granted = run::<_, Brand>(&rt, &service, budget, pass)?;
    watcher.join(&rt)?;
    println!(rt; "{JOBS} calls were answered after {granted} retries")?;
    Ok(())
}
