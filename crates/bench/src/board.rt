//! Runs a board of 64 jobs whose effect computes for some 20 microseconds at each poll: `bench board [WORKERS] [RUNS]`,
//! by default with one worker and 10 runs of each job. It prints how many retries were granted.
ghost use Rattle.std.specs.Prelude.{◌≡◌, [], IfSome};
ghost use Rattle.sched_ticket.specs.Held.{IsOf};
ghost use Rattle.sched_task_law.specs.Past.{nothing_yet};

use futures::task::{Context, Poll};
use sched_driver::Driver;
use sched_effect::{Code, Effect, Ran};
use sched_plan::Plan;
use sched_pool::Board;
use sched_pool_worker::{OpenGate, Station};
use sched_retry::Retry;
use sched_task::{MidWords, VirtualClock};
use sched_ticket::{Budget, Naming, Pass};
use sched_ticket_draws::OnBudget;
use sched_time::{Millis, Moment, NoMemory};
use std::alloc::{AllocGlobal, Global};
use std::marker::Brand;
use std::random::RandomSource;
use std::rt::Runtime;
use std::sync::Wait;
use std::thread::Threads;
use std::{env, io};

const JOBS: u64 = 64;

// Computes at each poll, and fails.
#[derive(Drop)]
struct Toil {
    runs: Vec<Ran>,
}

impl Effect for Toil {
    type Item = Code;

    type Fault = Code;

    ghost finished = { λ toil. toil.runs.items };

    ghost fresh = { λ toil. toil.runs.items ≡ [] };

    ghost unused = { λ toil new. new };

    fn poll_run(&mut self, _cx: &mut Context<'_>) -> Poll<Result<Result<Code, Code>, NoMemory>> {
        let code = Millis::from(compute());
        if self.runs.push(Ran::Lost(code)).is_err() {
            return Poll::Ready(Err(NoMemory));
        }
        Poll::Ready(Ok(Err(Code(code))))
    }

    fn runs(&self) -> &[Ran] {
        &self.runs
    }
}

// Some 20 microseconds of work.
fn compute() -> u32 {
    let mut word: u32 = 1;
    for _ in 0..10000 {
        word ^= word << 13;
        word ^= word >> 17;
        word ^= word << 5;
    }
    word
}

pub fn bench<R>(rt: &R) -> io::Result<()>
where
    R: Runtime + Threads + Wait + RandomSource + AllocGlobal + Sync,
{
    let mut numbers = env::args(rt)?.skip(2);
    let workers = numbers
        .next()
        .and_then(|word| word.as_str().parse().ok())
        .unwrap_or(1);
    let runs = numbers
        .next()
        .and_then(|word| word.as_str().parse().ok())
        .unwrap_or(10);
    match granted(rt, workers, runs) {
        Some(granted) => println!(rt; "{granted} retries"),
        None => println!(rt; "not run"),
    }
}

// How many retries were granted, where each job has so many runs.
fn granted<R>(rt: &R, workers: usize, runs: u32) -> Option<u64>
where
    R: Threads + Wait + RandomSource + AllocGlobal + Sync,
{
    let (budget, pass) = Budget::new(rt.alloc(), 4294967296).ok()?;
    run_on::<Brand, R>(rt, budget, pass, workers, runs)
}

fn run_on<N: Naming + Send + Sync, R>(
    rt: &R,
    budget: Budget,
    mut pass: Pass,
    workers: usize,
    runs: u32,
) -> Option<u64>
where
    R: Threads + Wait + RandomSource + AllocGlobal + Sync,
    requires name { budget ≡ N.budget }
    requires of { IsOf budget pass }
{
    let alloc = rt.alloc();
    let mut board: Board<Toil, N> = Board::new(alloc, &budget);
    for _ in 0..JOBS {
        let own = pass.split(&budget).ok()?;
        let drawing = OnBudget::new(own, &budget);
        board.add(retry(alloc, drawing, runs)?).ok()?;
    }
    let stations = stations(alloc, workers)?;
    let end = board.run(rt, pass, stations, &OpenGate, 4294967296).ok()?;
    Some(end.granted)
}

// A retry that fails so many times.
fn retry<'a>(
    alloc: Global,
    drawing: OnBudget<&'a Budget>,
    runs: u32,
) -> Option<Retry<Toil, OnBudget<&'a Budget>>>
    requires none { drawing.pass.has.tickets ≡ [] }
    ensures past { IfSome result (λ retry. retry.past ≡ nothing_yet retry.past.driver None) }
    ensures drawing { IfSome result (λ retry. retry.drawing ≡ drawing.entry) }
    ensures had { IfSome result (λ retry. retry.had ≡ 0) }
{
    let plan = Plan::recurs(u64::from(runs).saturating_sub(1)).ok()?;
    let driver = Driver::new(alloc, plan).ok()?;
    let effect = Toil {
        runs: Vec::new(alloc),
    };
    Some(Retry::new(alloc, effect, driver, drawing))
}

fn stations(alloc: Global, workers: usize) -> Option<Vec<Station<VirtualClock, MidWords>>> {
    let mut stations = Vec::new(alloc);
    for _ in 0..workers {
        let clock = VirtualClock::at(Moment::new(0)?);
        stations.push(Station::new(clock, MidWords, 2)?).ok()?;
    }
    Some(stations)
}
