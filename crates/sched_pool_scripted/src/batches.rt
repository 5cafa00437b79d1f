//! Running jobs on one budget.

ghost use Rattle.std.specs.Prelude.{◌≡◌, ◌≤◌, [], length, vec_len, IfOk, OnOk};
ghost use Rattle.sched_ticket.specs.Held.{IsOf};
ghost use Rattle.sched_ticket.specs.Whole.{IsWhole};
ghost use Rattle.sched_pool_scripted.specs.Batch.{AreRun, IsNewEnd};

use crate::boards::boarded;
use crate::ends::are_ends_of;
use sched_effect::Scripted;
use sched_pool::laws::totals_agree;
use sched_pool::{PoolEnd, PoolStop};
use sched_pool_json::JobRead;
use sched_pool_worker::{OpenGate, Station};
use sched_retry::RetryEnd;
use sched_task::{MidWords, VirtualClock};
use sched_ticket::{Budget, Naming, Pass, TicketFault};
use sched_time::{Moment, NoMemory};
use std::alloc::{AllocError, AllocGlobal, Global};
use std::marker::Brand;
use std::random::RandomSource;
use std::sync::Wait;
use std::thread::Threads;
use thiserror::Error;

// How many jobs a worker drives at a time.
const HOLD: usize = 64;

/// What is left of jobs that were run.
#[derive(Drop)]
pub struct Batch {
    /// The jobs, in the order in which they were read.
    pub ends: Vec<RetryEnd<Scripted>>,
    /// How many tickets the budget gave out.
    pub granted: u64,
}

/// Why jobs were not run.
#[derive(Clone, Copy, Debug, PartialEq, Eq, Error)]
pub enum BatchFault {
    /// A growth was refused.
    #[error("no memory")]
    NoMemory,
    /// The system started no thread for a worker.
    #[error("a worker was not started")]
    NotStarted,
    /// An ended job is not the one that was read at its place, or the budget does not count as it should.
    #[error("the jobs were mixed up")]
    Mixed,
}

impl From<AllocError> for BatchFault {
    fn from(_: AllocError) -> Self {
        BatchFault::NoMemory
    }
}

impl From<NoMemory> for BatchFault {
    fn from(_: NoMemory) -> Self {
        BatchFault::NoMemory
    }
}

/// Runs the jobs by so many workers, 1 to 16, each with a virtual clock from 0 and at most `turns` turns: each job is
/// retried by its plan, and all of them draw on one budget of `limit` tickets.
///
/// Refused as `NoMemory`; as `NotStarted` where a worker was not started; and as `Mixed` where an ended job is not the
/// one that was read at its place, or the budget does not count as it should: no right run meets that.
pub fn run_batch<R>(
    rt: &R,
    jobs: &[JobRead],
    limit: u64,
    workers: u64,
    turns: u64,
) -> Result<Batch, BatchFault>
where
    R: Threads + Wait + RandomSource + AllocGlobal + Sync,
    requires few { length jobs.now ≤ 4096 }
    requires limit { limit ≤ 4294967296 }
    requires crew { (1 ≤ workers) × (workers ≤ 16) }
    ensures { IfOk result (λ batch. AreRun jobs.now limit batch.ends.items batch.granted) }
{
    let (budget, pass) = match Budget::new(rt.alloc(), limit) {
        Ok(made) => made,
        Err(TicketFault::NoMemory) => return Err(BatchFault::NoMemory),
        Err(_) => unreachable!(),
    };
    let end = run_on::<Brand, R>(rt, jobs, &budget, pass, workers, turns)?;
    if !are_ends_of(jobs, &end.jobs) {
        return Err(BatchFault::Mixed);
    }
    totals_agree();
    let batch = closed(budget, end)?;
    Ok(batch)
}

// Runs the jobs on the budget that the type names.
fn run_on<N: Naming + Send + Sync, R>(
    rt: &R,
    jobs: &[JobRead],
    budget: &Budget,
    mut pass: Pass,
    workers: u64,
    turns: u64,
) -> Result<PoolEnd<Scripted>, BatchFault>
where
    R: Threads + Wait + RandomSource + AllocGlobal + Sync,
    requires name { budget.now ≡ N.budget }
    requires of { IsOf budget.now pass }
    requires none { pass.has.tickets ≡ [] }
    requires few { length jobs.now ≤ 4096 }
    requires crew { (1 ≤ workers) × (workers ≤ 16) }
    ensures end { IfOk result (λ end. IsNewEnd budget.now (length jobs.now) end.jobs.items end.pass end.granted) }
    ensures of { IfOk result (λ end. IsOf budget.now end.pass) }
{
    let alloc = rt.alloc();
    let stations = stations(alloc, workers)?;
    let board = boarded::<N>(alloc, jobs, budget, &mut pass)?;
    match board.run(rt, pass, stations, &OpenGate, turns) {
        Ok(end) => Ok(end),
        Err(PoolStop::TurnsSpent(end)) => Ok(end),
        Err(PoolStop::NoMemory(..)) => Err(BatchFault::NoMemory),
        Err(PoolStop::NotStarted(..)) => Err(BatchFault::NotStarted),
        Err(PoolStop::BadWorkers(..) | PoolStop::Sealed(..)) => unreachable!(),
    }
}

// A station for each worker, with a virtual clock from 0.
fn stations(alloc: Global, workers: u64) -> Result<Vec<Station<VirtualClock, MidWords>>, BatchFault>
    ensures { IfOk result (λ stations. vec_len stations ≡ workers) }
{
    let mut stations = Vec::new(alloc);
    for _worker in 0..workers {
        let Some(start) = Moment::new(0) else {
            unreachable!()
        };
        let Some(station) = Station::new(VirtualClock::at(start), MidWords, HOLD) else {
            unreachable!()
        };
        if stations.push(station).is_err() {
            return Err(BatchFault::NoMemory);
        }
    }
    Ok(stations)
}

// Closes the budget with the pass of all jobs.
fn closed(budget: Budget, end: PoolEnd<Scripted>) -> Result<Batch, BatchFault>
    requires { IsOf budget end.pass }
    ensures ends { IfOk result (λ batch. batch.ends.items ≡ end.jobs.items) }
    ensures granted { IfOk result (λ batch. batch.granted ≡ length end.pass.has.tickets) }
    ensures whole { OnOk result (IsWhole budget.terms end.pass.has) }
{
    let PoolEnd {
        jobs,
        pass,
        granted: _,
    } = end;
    match budget.close(pass) {
        Ok(granted) => Ok(Batch {
            ends: jobs,
            granted,
        }),
        Err(_) => Err(BatchFault::Mixed),
    }
}
