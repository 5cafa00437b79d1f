//! Running jobs on one quota.
ghost use Rattle.std.specs.Prelude.{◌≡◌, length, All, IfOk, OnOk};
ghost use Rattle.std.specs.List.Sorted.{IsSorted};
ghost use Rattle.std.specs.Ordering.{nat_cmp};
ghost use Rattle.sched_ticket_quota.specs.Held.{AreTerms, IsOf, Name};
ghost use Rattle.sched_ticket_quota.specs.Whole.{IsWhole};
ghost use Rattle.sched_pool_scripted.specs.Driven.{IsOnQuota, IsUnused};
ghost use Rattle.sched_pool_scripted.specs.QuotaBatch.{AreRunOnQuota, AreTaken};
ghost use Rattle.sched_pool_scripted.specs.Windows.{HasDistinct};

use crate::ends::are_ends_of;
use crate::refusals::are_just;
use crate::requests::{QuotaRetry, retries_of};
use sched_effect::Scripted;
use sched_pool_json::JobRead;
use sched_retry::RetryEnd;
use sched_task::{MidWords, VirtualClock};
use sched_ticket_quota::{Pass, Quota, QuotaFault, Terms};
use sched_time::{Moment, NoMemory};
use sched_wheel::{LoopStop, WheelLoop};
use std::alloc::{AllocError, AllocGlobal, Global};
use std::random::RandomSource;
use std::sync::Wait;
use thiserror::Error;

/// What is left of jobs that were run on a quota.
#[derive(Drop)]
pub struct QuotaBatch {
    /// The jobs, in the order in which they were read.
    pub ends: Vec<RetryEnd<Scripted>>,
    /// How many tickets the quota gave out.
    pub granted: u64,
    /// In how many windows it gave them.
    pub windows: usize,
}

/// Why jobs were not run on a quota.
#[derive(Clone, Copy, Debug, PartialEq, Eq, Error)]
pub enum QuotaBatchFault {
    /// A growth was refused, or the system gave no random bytes for the name of the loop's queue.
    #[error("no memory")]
    NoMemory,
    /// An ended job is not the one that was read at its place, or it was refused where tickets were left, or a request
    /// was counted in a later window than the first, or the quota was not closed: no right run meets that.
    #[error("the jobs were mixed up")]
    Mixed,
}

impl From<AllocError> for QuotaBatchFault {
    fn from(_: AllocError) -> Self {
        QuotaBatchFault::NoMemory
    }
}

impl From<NoMemory> for QuotaBatchFault {
    fn from(_: NoMemory) -> Self {
        QuotaBatchFault::NoMemory
    }
}

// The jobs that were taken back, one pass for all of them, and the window of each of its tickets.
#[derive(Drop)]
struct TakenBack {
    ends: Vec<RetryEnd<Scripted>>,
    pass: Pass,
    windows: Vec<u64>,
}

impl TakenBack {
    // With one retry more, which is taken apart.
    fn with(self, retry: QuotaRetry<'_>, quota: &Quota) -> Result<TakenBack, QuotaBatchFault>
        requires taken { AreTaken quota.now self.ends.items self.pass self.windows.items }
        requires driven { IsOnQuota quota.now retry }
        ensures { IfOk result (λ back. AreTaken quota.now back.ends.items back.pass back.windows.items) }
    {
        let TakenBack {
            mut ends,
            pass,
            mut windows,
        } = self;
        ends.reserve(1)?;
        let (end, drawing) = retry.into_end();
        ends.push_reserved(end);
        let (own, noted) = drawing.into_parts();
        let pass = pass.join(own, quota);
        let Some(noted) = noted else {
            return Err(QuotaBatchFault::NoMemory);
        };
        windows.extend_from_slice(&noted)?;
        Ok(TakenBack {
            ends,
            pass,
            windows,
        })
    }
}

/// Runs the jobs on one thread, with a virtual clock from 0 and at most `turns` turns: each job is retried by its plan,
/// and all of them draw on one quota of these terms. Each job's first run is a request at moment 0; all requests are
/// counted before the first run begins.
///
/// Refused as `NoMemory`; and as `Mixed`, which no right run meets: where an ended job is not the one that was read at
/// its place, or it was refused where tickets were left, or a request was counted in a later window than the first, or
/// the quota was not closed.
pub fn run_on_quota<R>(
    rt: &R,
    jobs: &[JobRead],
    terms: Terms,
    turns: u64,
) -> Result<QuotaBatch, QuotaBatchFault>
where
    R: Wait + RandomSource + AllocGlobal,
    requires { AreTerms terms }
    ensures { IfOk result (λ batch. AreRunOnQuota jobs.now terms batch.ends.items batch.granted batch.windows) }
{
    let Some(start) = Moment::new(0) else {
        unreachable!()
    };
    let (quota, pass) = match Quota::new(rt.alloc(), start, copied(&terms)) {
        Ok(made) => made,
        Err(QuotaFault::NoMemory) => return Err(QuotaBatchFault::NoMemory),
        Err(_) => unreachable!(),
    };
    let TakenBack {
        ends,
        pass,
        mut windows,
    } = run_beside(rt, jobs, &quota, pass, turns)?;
    windows.sort_unstable();
    if !are_ends_of(jobs, &ends) {
        return Err(QuotaBatchFault::Mixed);
    }
    if !are_just(&ends, &windows, &terms, jobs.len()) {
        return Err(QuotaBatchFault::Mixed);
    }
    let windows = count_windows(windows);
    let granted = closed(quota, pass)?;
    Ok(QuotaBatch {
        ends,
        granted,
        windows,
    })
}

// The same terms.
fn copied(terms: &Terms) -> Terms
    ensures { result ≡ terms.now }
{
    Terms {
        reserve: terms.reserve,
        share: terms.share,
        period: terms.period,
    }
}

// Runs the jobs on the quota, and takes them back.
fn run_beside<R>(
    rt: &R,
    jobs: &[JobRead],
    quota: &Quota,
    mut pass: Pass,
    turns: u64,
) -> Result<TakenBack, QuotaBatchFault>
where
    R: Wait + RandomSource + AllocGlobal,
    requires of { IsOf quota.now pass }
    requires unused { IsUnused pass.has }
    ensures { IfOk result (λ back. AreTaken quota.now back.ends.items back.pass back.windows.items) }
{
    let Some(start) = Moment::new(0) else {
        unreachable!()
    };
    let alloc = rt.alloc();
    let mut retries = retries_of(alloc, jobs, quota, &mut pass, start)?;
    drive(rt, &mut retries, start, turns)?;
    take_back(alloc, retries, quota, pass)
}

// Polls the retries until all are over or the turns are spent.
fn drive<R>(
    rt: &R,
    retries: &mut [QuotaRetry<'_>],
    start: Moment,
    turns: u64,
) -> Result<(), QuotaBatchFault>
where
    R: Wait + RandomSource + AllocGlobal,
    ensures { (quota : Name) → All (IsOnQuota quota) retries.old → All (IsOnQuota quota) retries.new }
{
    let mut clock = VirtualClock::at(start);
    match WheelLoop::run(rt, retries, &mut clock, &mut MidWords, turns) {
        Ok(_) | Err(LoopStop::TurnsSpent) => Ok(()),
        Err(LoopStop::NoMemory) => Err(QuotaBatchFault::NoMemory),
    }
}

// Takes the retries apart in order, and joins their passes with this one.
fn take_back(
    alloc: Global,
    retries: Vec<QuotaRetry<'_>>,
    quota: &Quota,
    pass: Pass,
) -> Result<TakenBack, QuotaBatchFault>
    requires driven { All (IsOnQuota quota.now) retries.items }
    requires of { IsOf quota.now pass }
    requires unused { IsUnused pass.has }
    ensures { IfOk result (λ back. AreTaken quota.now back.ends.items back.pass back.windows.items) }
{
    let mut back = TakenBack {
        ends: Vec::new(alloc),
        pass,
        windows: Vec::new(alloc),
    };
    for retry in retries {
        back = back.with(retry, quota)?;
    }
    Ok(back)
}

// How many windows these are, each counted once, which rise.
fn count_windows(mut windows: Vec<u64>) -> usize
    requires { IsSorted nat_cmp windows.items }
    ensures { HasDistinct result windows.items }
{
    windows.dedup();
    windows.len()
}

// Closes the quota with the pass of all jobs.
fn closed(quota: Quota, pass: Pass) -> Result<u64, QuotaBatchFault>
    requires { IsOf quota pass }
    ensures granted { IfOk result (λ n. n ≡ length pass.has.tickets) }
    ensures whole { OnOk result (IsWhole quota.terms pass.has) }
{
    match quota.close(pass) {
        Ok(granted) => Ok(granted),
        Err(_) => Err(QuotaBatchFault::Mixed),
    }
}
