//! Retries.
ghost use Rattle.std.specs.Prelude.{◌≡◌, ◌≢◌, ◌<◌, ◌≤◌, Err};
ghost use Rattle.sched_time.specs.declared.numbers.TheConstants.{FAR};
ghost use Rattle.sched_handle.specs.Again.{Again};
ghost use Rattle.sched_handle.specs.Fills.{Frees};
ghost use Rattle.sched_handle.specs.Passes.{AreOfOne};
ghost use Rattle.sched_handle.specs.Retries.{Cancels};
ghost use Rattle.sched_handle.specs.Status.{told};
ghost use Rattle.sched_handle.specs.declared.held.Kind.TheVariants as kind;
ghost use Rattle.sched_handle.specs.declared.status.Status.TheVariants as status;
ghost use Rattle.hikebox_c.specs.Calls.{Tells, OnHeld};
ghost use Rattle.hikebox_c.specs.Passes.{JoinsHeld};
ghost use Rattle.hikebox_c.specs.Retries.{deadline_of, NewRetry, NewRetryBy, AgainBy, Reports, PollsAt};

use crate::joins::join_into;
use sched_effect::Ran;
use sched_handle::{Handle, Held, Kind, Reply, Status, tell_status, tick_at};
use sched_time::{Millis, Moment};
use std::alloc::Global;

#[unsafe(no_mangle)]
pub extern "C" fn hikebox_retry_new(
    alloc: Global,
    policy: &mut Handle,
    pass: &mut Handle,
    deadline: u64,
    retry: &mut Handle,
) -> u32
    ensures retry { NewRetryBy (deadline_of deadline) policy.old.held pass.old.held pass.new.held
        retry.old.held result retry.new.held }
    ensures policy { policy.new.held ≡ policy.old.held }
{
    match deadline_at(deadline) {
        Ok(deadline) => new_retry(alloc, policy, pass, deadline, retry),
        Err(status) => status.code(),
    }
}

fn new_retry(
    alloc: Global,
    policy: &mut Handle,
    pass: &mut Handle,
    deadline: Option<Moment>,
    retry: &mut Handle,
) -> u32
    ensures retry { NewRetry deadline policy.old.held pass.old.held pass.new.held
        retry.old.held result retry.new.held }
    ensures policy { policy.new.held ≡ policy.old.held }
{
    if retry.is_full() {
        return Status::Full.code();
    }
    let Some(plan) = policy.as_mut() else {
        return Status::Empty.code();
    };
    let Some(held) = pass.as_mut() else {
        return Status::Empty.code();
    };
    let made = Held::retry(alloc, plan, held, deadline);
    retry.fill(made)
}

// The deadline that is meant, if any.
fn deadline_at(deadline: u64) -> Result<Option<Moment>, Status>
    ensures { result ≡ deadline_of deadline }
{
    if deadline == u64::MAX {
        return Ok(None);
    }
    match Moment::new(deadline) {
        Some(deadline) => Ok(Some(deadline)),
        None => Err(Status::TooLarge),
    }
}

/// What a retry is at, after the size in bytes that C gives of this struct.
#[repr(C)]
#[derive(Clone, Copy)]
pub struct SizedReply {
    pub size: usize,
    pub reply: Reply,
}

// The size of it.
pub(crate) const REPLY_SIZE: usize = 48;

#[unsafe(no_mangle)]
pub extern "C" fn hikebox_retry_poll(
    alloc: Global,
    retry: &mut Handle,
    now: u64,
    words: &[u32; 4],
    report: u32,
    code: u64,
    next: &mut SizedReply,
) -> u32
    ensures poll { next.old.size ≡ 48 → now ≤ FAR → PollsAt now words.now report code
        retry.old.held retry.new.held (Tells result next.old.reply next.new.reply) }
    ensures too_large { next.old.size ≡ 48 → FAR < now → (retry.new.held ≡ retry.old.held)
        × Tells result next.old.reply next.new.reply (Err status.TooLarge) }
    ensures wrong_size { next.old.size ≢ 48 → (retry.new.held ≡ retry.old.held)
        × Tells result next.old next.new (Err status.WrongSize) }
    ensures size { next.new.size ≡ next.old.size }
{
    if next.size != REPLY_SIZE {
        return Status::WrongSize.code();
    }
    poll(alloc, retry, now, words, report, code, &mut next.reply)
}

// Steps the retry and answers what it is at.
fn poll(
    alloc: Global,
    retry: &mut Handle,
    now: u64,
    words: &[u32; 4],
    report: u32,
    code: u64,
    next: &mut Reply,
) -> u32
    ensures poll { now ≤ FAR → PollsAt now words.now report code retry.old.held retry.new.held
        (Tells result next.old next.new) }
    ensures too_large { FAR < now → (retry.new.held ≡ retry.old.held)
        × Tells result next.old next.new (Err status.TooLarge) }
{
    let Ok(tick) = tick_at(now, words) else {
        return Status::TooLarge.code();
    };
    let report = match reported(report, code) {
        Ok(report) => report,
        Err(status) => return status.code(),
    };
    let Some(held) = retry.as_mut() else {
        return Status::Empty.code();
    };
    let answer = held.poll(alloc, &tick, report, next);
    tell_status(answer)
}

// The run that is reported, if any.
pub(crate) fn reported(report: u32, code: u64) -> Result<Option<Ran>, Status>
    ensures { Reports report code result }
{
    if report == 0 {
        return Ok(None);
    }
    if report > 2 {
        return Err(Status::NoSuchReport);
    }
    match Millis::new(code) {
        None => Err(Status::TooLarge),
        Some(code) => Ok(Some(if report == 1 {
            Ran::Won(code)
        } else {
            Ran::Lost(code)
        })),
    }
}

#[unsafe(no_mangle)]
pub extern "C" fn hikebox_retry_cancel(retry: &mut Handle) -> u32
    ensures { OnHeld Cancels retry.old.held retry.new.held (λ r. result ≡ told r) }
{
    let Some(held) = retry.as_mut() else {
        return Status::Empty.code();
    };
    let answer = held.cancel();
    match answer {
        Ok(()) => 0,
        Err(status) => status.code(),
    }
}

#[unsafe(no_mangle)]
pub extern "C" fn hikebox_retry_end(alloc: Global, retry: &mut Handle, pass: &mut Handle) -> u32
    requires { AreOfOne pass.old.held retry.old.held }
    ensures { JoinsHeld kind.Retry retry.old.held pass.old.held result retry.new.held pass.new.held }
{
    join_into(alloc, Kind::Retry, retry, pass)
}

#[unsafe(no_mangle)]
pub extern "C" fn hikebox_retry_again(retry: &mut Handle, deadline: u64) -> u32
    ensures { AgainBy (deadline_of deadline) retry.old.held result retry.new.held }
{
    match deadline_at(deadline) {
        Ok(deadline) => begin_again(retry, deadline),
        Err(status) => status.code(),
    }
}

fn begin_again(retry: &mut Handle, deadline: Option<Moment>) -> u32
    ensures { OnHeld (Again deadline) retry.old.held retry.new.held (λ r. result ≡ told r) }
{
    let Some(held) = retry.as_mut() else {
        return Status::Empty.code();
    };
    let begun = held.again(deadline);
    tell_status(begun)
}

#[unsafe(no_mangle)]
pub extern "C" fn hikebox_retry_free(alloc: Global, retry: &mut Handle) -> u32
    ensures { Frees kind.Retry retry.old.held result retry.new.held }
{
    retry.free(alloc, Kind::Retry)
}
