//! Running a board on threads.
ghost use Rattle.std.specs.Prelude.{◌≡◌, ◌≤◌, true, false, vec_len, vec_capacity, All, IfOk, IfErr};
ghost use Rattle.sched_ticket.specs.Held.{IsOf};
ghost use Rattle.sched_pool_claim.specs.Portion.{IsShareOf};
ghost use Rattle.sched_pool.specs.Ends.{IsEnd};
ghost use Rattle.sched_pool.specs.Runs.{all_over, StopFits};
ghost use Rattle.sched_pool.specs.declared.runs.Effort.{Effort};

use crate::boards::Board;
use crate::ends::PoolEnd;
use crate::faults::ShareFault;
use rand_core::Rng;
use sched_effect::Effect;
use sched_pool_claim::Share;
use sched_pool_worker::{Finish, Gate, Station};
use sched_retry::RetryEnd;
use sched_task::Clock;
use sched_ticket::{Naming, Pass};
use sched_time::NoMemory;
use std::alloc::{AllocGlobal, Global};
use std::fmt;
use std::marker::Model;
use std::random::RandomSource;
use std::sync::Wait;
use std::sync::atomic::{AtomicBool, Ordering};
use std::thread::{self, Threads};
use thiserror::Error;

/// Why a board did not run until all its jobs were over.
#[derive(Drop, Error)]
pub enum PoolStop<'a, X: Effect, N: Naming> {
    /// There are no stations, or more than 16. The board and the pass are as they were.
    #[error("expected 1 to 16 workers")]
    BadWorkers(Board<'a, X, N>, Pass),
    /// The jobs were shared out before. The board and the pass are as they were.
    #[error("the board's jobs were shared out before")]
    Sealed(Board<'a, X, N>, Pass),
    /// A growth was refused. The jobs stand as their polls left them, and may have been shared out.
    #[error("no memory")]
    NoMemory(Board<'a, X, N>, Pass),
    /// The system started no thread for a worker, and those that it started have ended. The jobs stand as their polls
    /// left them, and are shared out.
    #[error("a worker was not started")]
    NotStarted(Board<'a, X, N>, Pass),
    /// A job is not over: its worker took all its turns.
    #[error("all turns were taken")]
    TurnsSpent(PoolEnd<X>),
}

impl<'a, X: Effect, N: Naming> fmt::Debug for PoolStop<'a, X, N> {
    fn fmt<W: fmt::Write>(&self, f: &mut fmt::Formatter<W>) -> fmt::Result {
        f.write_str(match self {
            PoolStop::BadWorkers(..) => "BadWorkers",
            PoolStop::Sealed(..) => "Sealed",
            PoolStop::NoMemory(..) => "NoMemory",
            PoolStop::NotStarted(..) => "NotStarted",
            PoolStop::TurnsSpent(..) => "TurnsSpent",
        })
    }
}

// What all workers of a run have.
#[derive(Drop)]
struct Shift<'b, R, Q> {
    rt: &'b R,
    gate: &'b Q,
    turns: u64,
    no_memory: AtomicBool,
}

// A worker of a board: a share of it, and a station.
#[derive(Drop)]
struct Worker<'b, 'a, R, X: Effect, N: Naming, C, G, Q> {
    shift: &'b Shift<'b, R, Q>,
    board: &'b Board<'a, X, N>,
    share: Share,
    station: Station<C, G>,
}

impl<'b, 'a, R, X: Effect, N: Naming, C, G, Q> Model for Worker<'b, 'a, R, X, N, C, G, Q> {
    ghost use Rattle.sched_pool_claim.specs.Portion.{Portion, IsShareOf};

    ghost Value = { Portion };

    ghost view = { λ w. w.share };

    ghost invariant = { λ w. IsShareOf w.board.now.claims w.share };
}

// What a thread does once.
trait Duty {
    fn perform(self);
}

impl<'b, 'a, R, X, N, C, G, Q> Duty for Worker<'b, 'a, R, X, N, C, G, Q>
where
    R: Wait + RandomSource + AllocGlobal,
    X: Effect,
    N: Naming,
    C: Clock + Drop,
    G: Rng + Drop,
    Q: Gate,
{
    // Works through the share. It notes where memory was refused.
    fn perform(self) {
        let Worker {
            shift,
            board,
            mut share,
            mut station,
        } = self;
        let worked = board.work(shift.rt, &mut share, &mut station, shift.gate, shift.turns);
        if worked.finish == Finish::NoMemory {
            shift.no_memory.store(true, Ordering::SeqCst);
        }
    }
}

// How far the threads of a run got.
#[derive(Clone, Copy, Drop)]
enum Effort {
    Worked,
    NoMemory,
    NotStarted,
}

impl<'a, X: Effect, N: Naming> Board<'a, X, N> {
    /// Runs the board: a thread for each station drives jobs in at most `turns` turns, and then the board is taken
    /// back. Where every job is over it is `Ok`. `NoMemory` of a worker comes before `NotStarted`.
    pub fn run<R, C, G, Q>(
        mut self,
        rt: &R,
        pass: Pass,
        stations: Vec<Station<C, G>>,
        gate: &Q,
        turns: u64,
    ) -> Result<PoolEnd<X>, PoolStop<'a, X, N>>
    where
        X: Effect<Item: Send, Fault: Send> + Send,
        N: Send + Sync,
        R: Threads + Wait + RandomSource + AllocGlobal + Sync,
        C: Clock + Send + Drop,
        G: Rng + Send + Drop,
        Q: Gate + Sync,
        requires { IsOf N.budget pass }
        ensures end { IfOk result (λ e. IsEnd N.budget self.entry.jobs pass e.jobs.items e.pass e.granted) }
        ensures over { IfOk result (λ e. all_over e.jobs.items ≡ true) }
        ensures err { IfErr result (λ stop. StopFits N.budget self.entry pass (vec_len stations) stop) }
    {
        let alloc = rt.alloc();
        let shares = match self.shares(alloc, stations.len()) {
            Ok(shares) => shares,
            Err(ShareFault::BadWorkers) => return Err(PoolStop::BadWorkers(self, pass)),
            Err(ShareFault::Sealed) => return Err(PoolStop::Sealed(self, pass)),
            Err(ShareFault::NoMemory) => return Err(PoolStop::NoMemory(self, pass)),
        };
        match work_beside(rt, &self, shares, stations, gate, turns) {
            Effort::Worked => {}
            Effort::NoMemory => return Err(PoolStop::NoMemory(self, pass)),
            Effort::NotStarted => return Err(PoolStop::NotStarted(self, pass)),
        }
        match self.finish(alloc, pass) {
            Ok(end) => {
                if all_ended(&end.jobs) {
                    Ok(end)
                } else {
                    Err(PoolStop::TurnsSpent(end))
                }
            }
            Err((board, pass)) => Err(PoolStop::NoMemory(board, pass)),
        }
    }
}

// Whether every job is over.
fn all_ended<X: Effect>(ends: &[RetryEnd<X>]) -> bool
    ensures { result ≡ all_over ends.now }
{
    ends.iter().all(|end| end.how().is_some())
}

// A worker for each share and station.
fn crew<'b, 'a, R, X: Effect, N: Naming, C: Drop, G: Drop, Q>(
    alloc: Global,
    shift: &'b Shift<'b, R, Q>,
    board: &'b Board<'a, X, N>,
    mut shares: Vec<Share>,
    mut stations: Vec<Station<C, G>>,
) -> Result<Vec<Worker<'b, 'a, R, X, N, C, G, Q>>, NoMemory>
    requires { All (IsShareOf board.now.claims) shares.items }
{
    let mut workers = Vec::with_capacity(alloc, shares.len())?;
    while let Some(share) = shares.pop() {
        let Some(station) = stations.pop() else {
            return Ok(workers);
        };
        workers.push_reserved(Worker {
            shift,
            board,
            share,
            station,
        });
    }
    Ok(workers)
}

// Each duty is performed by a thread of its own, until one cannot be started. `true` where all were started.
fn start_all<R: Threads + Wait, D: Duty + Send + Drop>(rt: &R, duties: Vec<D>) -> bool {
    thread::scope(thread::scope_env(), rt, move |scope| {
        for duty in duties {
            if scope.spawn(move || duty.perform()).is_err() {
                return false;
            }
        }
        true
    })
}

// Each share is worked through by a thread of its own.
fn work_beside<'a, R, X, N, C, G, Q>(
    rt: &R,
    board: &Board<'a, X, N>,
    shares: Vec<Share>,
    stations: Vec<Station<C, G>>,
    gate: &Q,
    turns: u64,
) -> Effort
where
    X: Effect<Item: Send, Fault: Send> + Send,
    N: Naming + Send + Sync,
    R: Threads + Wait + RandomSource + AllocGlobal + Sync,
    C: Clock + Send + Drop,
    G: Rng + Send + Drop,
    Q: Gate + Sync,
    requires { All (IsShareOf board.now.claims) shares.items }
{
    let shift = Shift {
        rt,
        gate,
        turns,
        no_memory: AtomicBool::new(false),
    };
    let Ok(workers) = crew(rt.alloc(), &shift, board, shares, stations) else {
        return Effort::NoMemory;
    };
    let started = start_all(rt, workers);
    how_far(started, shift.no_memory.load(Ordering::SeqCst))
}

// How far the threads of a run got: `NoMemory` comes before `NotStarted`.
fn how_far(started: bool, no_memory: bool) -> Effort
    ensures memory { no_memory ≡ true → result ≡ Effort.NoMemory }
    ensures threads { no_memory ≡ false → started ≡ false → result ≡ Effort.NotStarted }
    ensures worked { no_memory ≡ false → started ≡ true → result ≡ Effort.Worked }
{
    if no_memory {
        Effort::NoMemory
    } else if !started {
        Effort::NotStarted
    } else {
        Effort::Worked
    }
}
