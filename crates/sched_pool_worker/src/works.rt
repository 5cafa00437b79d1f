//! Working through a share.
ghost use Rattle.std.specs.Prelude.{◌≡◌, ◌<◌, ◌≤◌, ◌++◌, [], max, true, false, length, vec_len, drop, take, All, IfOk};
ghost use Rattle.std.specs.Prelude.{IfErr, OnOk};
ghost use Rattle.std.specs.Option.{ForSome};
ghost use Rattle.sched_pool_claim.specs.Portion.{IsShareOf};
ghost use Rattle.sched_wheel.specs.Polled.{IsLeft};
ghost use Rattle.sched_pool_worker.specs.Working.{WentOn, left_active, numbers, still_to_do};

use crate::gates::Gate;
use crate::seats::Seat;
use crate::stations::Station;
use rand_core::Rng;
use sched_pool_claim::{Claimed, Share};
use sched_task::{Clock, Task};
use sched_time::NoMemory;
use sched_wheel::{LoopStop, WheelLoop};
use std::alloc::{AllocGlobal, Global};
use std::random::RandomSource;
use std::sync::{Mutex, Wait};

/// What there is to work through.
#[derive(Drop)]
pub struct Work<'b, T, J> {
    /// The jobs, each behind its lock, in the order of their numbers.
    pub jobs: &'b [Mutex<T>],
    /// What has the claims of them.
    pub claims: &'b J,
}

/// How far a worker got.
#[derive(Clone, Copy, Debug, PartialEq, Eq, Drop)]
pub struct Worked {
    /// How many turns were taken. Where memory was refused, without those of the jobs that were driven then.
    pub turns: u64,
    /// Why it stopped.
    pub finish: Finish,
}

/// Why a worker stopped.
#[derive(Clone, Copy, Debug, PartialEq, Eq, Drop)]
pub enum Finish {
    /// The share was answered `None`, and every job that it claimed was seen over.
    AllOver,
    /// All turns were taken, and a job of the share was not seen over.
    TurnsSpent,
    /// A growth was refused, or the system gave no random bytes for the loop.
    NoMemory,
}

/// Works through a share: claims jobs, drives them until all are over, and claims again, until no job is left.
///
/// It begins with the jobs that the share keeps, and drives at most as many at a time as the station holds. It takes at
/// most `turns` turns: a turn is one poll of a job, one look at a gate that is not ready for it, or one wait for the
/// least moment that a job waits for. A poll takes four words of the station's generator, which gives no others. A job
/// is locked for each poll of it, not between polls.
///
/// Where it stops before all is over, the share keeps the jobs that it claimed and has not seen over, and a further
/// call goes on with them.
pub fn work_through<R, T: Task, J: Claimed, C: Clock, G: Rng, Q: Gate>(
    rt: &R,
    work: &Work<'_, T, J>,
    share: &mut Share,
    station: &mut Station<C, G>,
    gate: &Q,
    turns: u64,
) -> Worked
where
    R: Wait + RandomSource + AllocGlobal,
    requires of { IsShareOf (J.claims work.now.claims.now) share.old }
    requires places { ForSome (J.claims work.now.claims.now)
        (λ claims. claims.terms.limit ≤ length work.now.jobs.now) }
    ensures of { IsShareOf (J.claims work.now.claims.now) share.new }
    ensures went_on { WentOn share.old share.new }
    ensures turns { result.turns ≤ turns }
    ensures polls { IsLeft turns (G.stream station.old.rng) (G.stream station.new.rng) }
    ensures used { result.finish ≡ Finish.AllOver →
        IsLeft result.turns (G.stream station.old.rng) (G.stream station.new.rng) }
    ensures all_over { result.finish ≡ Finish.AllOver →
        (share.new.active ≡ []) × (0 < length share.new.pass.has.refusals) }
    ensures spent { result.finish ≡ Finish.TurnsSpent → (result.turns ≡ turns) × (0 < length share.new.active) }
    ensures held { length share.new.active ≤ max (length share.old.active) station.old.hold }
    ensures hold { station.new.hold ≡ station.old.hold }
{
    let claims = work.claims;
    let mut used = 0;
    while claim_some(claims, share, station.hold) {
        match work_some(rt, work.jobs, share, station, gate, turns - used) {
            Ok(more) => used += more,
            Err(LoopStop::TurnsSpent) => {
                return Worked {
                    turns,
                    finish: Finish::TurnsSpent,
                };
            }
            Err(LoopStop::NoMemory) => {
                return Worked {
                    turns: used,
                    finish: Finish::NoMemory,
                };
            }
        }
    }
    Worked {
        turns: used,
        finish: Finish::AllOver,
    }
}

// Claims until so many jobs are active, or none is left. `false` where none is active and none is left.
fn claim_some<J: Claimed>(claims: &J, share: &mut Share, hold: usize) -> bool
    requires of { IsShareOf (J.claims claims.now) share.old }
    requires hold { 0 < hold }
    ensures of { IsShareOf (J.claims claims.now) share.new }
    ensures went_on { WentOn share.old share.new }
    ensures held { length share.new.active ≤ max (length share.old.active) hold }
    ensures to_do { still_to_do share.new ≡ still_to_do share.old }
    ensures some { result ≡ true → 0 < length share.new.active }
    ensures none { result ≡ false → (share.new.active ≡ []) × (0 < length share.new.pass.has.refusals) }
{
    while share.active().len() < hold {
        let Some(_job) = share.claim(claims) else {
            return !share.active().is_empty();
        };
    }
    true
}

// Drives the first active jobs of the share, as many as the station holds, and closes those seen over.
fn work_some<R, T: Task, C: Clock, G: Rng, Q: Gate>(
    rt: &R,
    jobs: &[Mutex<T>],
    share: &mut Share,
    station: &mut Station<C, G>,
    gate: &Q,
    turns: u64,
) -> Result<u64, LoopStop>
where
    R: Wait + RandomSource + AllocGlobal,
    requires places { share.old.pass.has.terms.limit ≤ length jobs.now }
    requires some { 0 < length share.old.active }
    ensures pass { share.new.pass ≡ share.old.pass }
    ensures went_on { WentOn share.old share.new }
    ensures turns { IfOk result (λ used. used ≤ turns) }
    ensures polls { IsLeft turns (G.stream station.old.rng) (G.stream station.new.rng) }
    ensures used { IfOk result (λ used. IsLeft used (G.stream station.old.rng) (G.stream station.new.rng)) }
    ensures fewer { length share.new.active ≤ length share.old.active }
    ensures over { OnOk result (share.new.active ≡ drop station.old.hold share.old.active) }
    ensures spent { IfErr result (λ stop. stop ≡ LoopStop.TurnsSpent → 0 < length share.new.active) }
    ensures hold { station.new.hold ≡ station.old.hold }
{
    let active = share.active();
    let first = active.len().min(station.hold);
    let mut seats = take_seats(rt, rt.alloc(), jobs, &active[..first], gate)?;
    let tasks = seats.as_mut_slice();
    let ended = WheelLoop::run(rt, tasks, &mut station.clock, &mut station.rng, turns);
    close_over(share, seats);
    ended
}

// A seat for each of these jobs, in order.
fn take_seats<'b, T: Task, R: Wait, Q: Gate>(
    rt: &'b R,
    alloc: Global,
    jobs: &'b [Mutex<T>],
    active: &[usize],
    gate: &'b Q,
) -> Result<Vec<Seat<'b, T, R, Q>>, NoMemory>
    requires { All (λ job. job < length jobs.now) active.now }
    ensures { IfOk result (λ seats. numbers seats.items ≡ active.now) }
{
    let mut seats = Vec::with_capacity(alloc, active.len())?;
    for number in active {
        seats.push_reserved(Seat::take(rt, gate, &jobs[*number], *number));
    }
    Ok(seats)
}

// Closes the jobs of those seats that saw theirs over: the seats of the share's first active jobs.
fn close_over<T: Task, R: Wait, Q: Gate>(share: &mut Share, mut seats: Vec<Seat<'_, T, R, Q>>)
    requires { numbers seats.items ≡ take (vec_len seats) share.old.active }
    ensures active { share.new.active ≡ left_active seats.entry share.old.active }
    ensures pass { share.new.pass ≡ share.old.pass }
{
    while let Some(seat) = seats.pop() {
        if seat.over().is_some() {
            share.close(seats.len());
        }
    }
}
