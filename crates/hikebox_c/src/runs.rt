//! Whole runs of retries: begun and ended in one call.
ghost use Rattle.std.specs.Prelude.{◌≡◌, ◌≢◌, ◌<◌, ◌≤◌, Err};
ghost use Rattle.sched_time.specs.declared.numbers.TheConstants.{FAR};
ghost use Rattle.sched_handle.specs.declared.status.Status.TheVariants as status;
ghost use Rattle.hikebox_c.specs.Calls.{Tells};
ghost use Rattle.hikebox_c.specs.Runs.{RansAt};

use crate::retries::{REPLY_SIZE, SizedReply, reported};
use sched_handle::{Handle, Reply, Status, tell_status, tick_at};
use std::alloc::Global;

/// A run: the moments at which it began and ended, how that is reported, and the random words of the step that follows.
#[repr(C)]
#[derive(Clone, Copy)]
pub struct Run {
    pub began: u64,
    pub ended: u64,
    pub code: u64,
    pub report: u32,
    pub words: [u32; 4],
}

#[unsafe(no_mangle)]
pub extern "C" fn hikebox_retry_ran(
    alloc: Global,
    retry: &mut Handle,
    run: &Run,
    next: &mut SizedReply,
) -> u32
    ensures ran { next.old.size ≡ 48 → run.now.began ≤ FAR → run.now.ended ≤ FAR →
        RansAt run.now retry.old.held retry.new.held (Tells result next.old.reply next.new.reply) }
    ensures begins_too_late { next.old.size ≡ 48 → FAR < run.now.began → (retry.new.held ≡ retry.old.held)
        × Tells result next.old.reply next.new.reply (Err status.TooLarge) }
    ensures ends_too_late { next.old.size ≡ 48 → FAR < run.now.ended → (retry.new.held ≡ retry.old.held)
        × Tells result next.old.reply next.new.reply (Err status.TooLarge) }
    ensures wrong_size { next.old.size ≢ 48 → (retry.new.held ≡ retry.old.held)
        × Tells result next.old next.new (Err status.WrongSize) }
    ensures size { next.new.size ≡ next.old.size }
{
    if next.size != REPLY_SIZE {
        return Status::WrongSize.code();
    }
    ran(alloc, retry, run, &mut next.reply)
}

// Makes the run with what the handle holds, and answers what that is at then.
#[inline(always)]
fn ran(alloc: Global, retry: &mut Handle, run: &Run, next: &mut Reply) -> u32
    ensures ran { run.now.began ≤ FAR → run.now.ended ≤ FAR →
        RansAt run.now retry.old.held retry.new.held (Tells result next.old next.new) }
    ensures begins_too_late { FAR < run.now.began → (retry.new.held ≡ retry.old.held)
        × Tells result next.old next.new (Err status.TooLarge) }
    ensures ends_too_late { FAR < run.now.ended → (retry.new.held ≡ retry.old.held)
        × Tells result next.old next.new (Err status.TooLarge) }
{
    let Ok(began) = tick_at(run.began, &run.words) else {
        return Status::TooLarge.code();
    };
    let Ok(ended) = tick_at(run.ended, &run.words) else {
        return Status::TooLarge.code();
    };
    let report = match reported(run.report, run.code) {
        Ok(report) => report,
        Err(status) => return status.code(),
    };
    let Some(held) = retry.as_mut() else {
        return Status::Empty.code();
    };
    let answer = held.ran(alloc, &began, &ended, report, next);
    tell_status(answer)
}
