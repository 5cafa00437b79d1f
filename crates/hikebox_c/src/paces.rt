//! Paces: when each call may begin.
ghost use Rattle.std.specs.Prelude.{◌≡◌, ◌<◌, ◌≤◌, IfSome, OnSome, IfNone};
ghost use Rattle.sched_time.specs.declared.numbers.TheConstants.{FAR};
ghost use Rattle.sched_handle.specs.Fills.{Frees};
ghost use Rattle.sched_handle.specs.Paces.{OnPaces, TakesPace, GivesPace, SeesPace, SplitsPace};
ghost use Rattle.sched_handle.specs.Status.{code_of};
ghost use Rattle.sched_handle.specs.declared.held.Kind.TheVariants as kind;
ghost use Rattle.sched_handle.specs.declared.status.Status.TheVariants as status;
ghost use Rattle.hikebox_c.specs.Calls.{Tells, Makes, MakesWith, OnHeld};
ghost use Rattle.hikebox_c.specs.Paces.{IsInRange, IsPaceOf, PaceMade, TellsFault, TellsTake, TellsTaken};

use sched_handle::{Handle, Held, Kind, Status, tell};
use sched_pace::{Pace, TakeFault};
use sched_time::{Millis, Moment};
use std::alloc::Global;

#[unsafe(no_mangle)]
pub extern "C" fn hikebox_pace_new(
    alloc: Global,
    each: u64,
    burst: u64,
    longest: u64,
    pace: &mut Handle,
) -> u32
    ensures { Makes (PaceMade each burst longest) pace.old.held result pace.new.held }
{
    if pace.is_full() {
        return Status::Full.code();
    }
    let made = made(alloc, each, burst, longest);
    pace.fill(made)
}

// A pace of these terms, if there is one.
fn made(alloc: Global, each: u64, burst: u64, longest: u64) -> Result<Box<Held>, Status>
    ensures { PaceMade each burst longest result }
{
    match pace_of(each, burst, longest) {
        Some(pace) => Held::pace(alloc, pace),
        None => Err(Status::OutOfRange),
    }
}

// The terms of a pace, if there is such a pace.
pub(crate) fn pace_of(each: u64, burst: u64, longest: u64) -> Option<Pace>
    ensures some { IfSome result (IsPaceOf each burst longest) }
    ensures sound { OnSome result (IsInRange each burst longest) }
    ensures none { IfNone result (IsInRange each burst longest → ⊥) }
{
    let Some(longest) = Millis::new(longest) else {
        return None;
    };
    Pace::new(each, burst, longest)
}

#[unsafe(no_mangle)]
pub extern "C" fn hikebox_pace_split(alloc: Global, pace: &mut Handle, part: &mut Handle) -> u32
    ensures { MakesWith (OnPaces SplitsPace) pace.old.held pace.new.held part.old.held result part.new.held }
{
    if part.is_full() {
        return Status::Full.code();
    }
    let Some(held) = pace.as_mut() else {
        return Status::Empty.code();
    };
    let made = held.pace_split(alloc);
    part.fill(made)
}

#[unsafe(no_mangle)]
pub extern "C" fn hikebox_pace_take(pace: &mut Handle, now: u64, cost: u64, at: &mut u64) -> u32
    ensures take { now ≤ FAR → OnHeld (OnPaces (TakesPace now cost)) pace.old.held pace.new.held
        (TellsTaken result at.old at.new) }
    ensures too_large { FAR < now → (pace.new.held ≡ pace.old.held) × (at.new ≡ at.old)
        × (result ≡ code_of status.TooLarge) }
{
    let Some(now) = Moment::new(now) else {
        return Status::TooLarge.code();
    };
    let Some(held) = pace.as_mut() else {
        return Status::Empty.code();
    };
    let answer = held.pace_take(now, cost);
    tell_taken(answer, at)
}

#[unsafe(no_mangle)]
pub extern "C" fn hikebox_pace_give_back(pace: &mut Handle, given: &mut bool) -> u32
    ensures { OnHeld (OnPaces GivesPace) pace.old.held pace.new.held (Tells result given.old given.new) }
{
    let Some(held) = pace.as_mut() else {
        return Status::Empty.code();
    };
    let answer = held.pace_give_back();
    tell(answer, given)
}

#[unsafe(no_mangle)]
pub extern "C" fn hikebox_pace_seen(pace: &mut Handle, now: u64, at: &mut u64) -> u32
    ensures seen { now ≤ FAR → OnHeld (OnPaces (SeesPace now)) pace.old.held pace.new.held
        (Tells result at.old at.new) }
    ensures too_large { FAR < now → (pace.new.held ≡ pace.old.held) × (at.new ≡ at.old)
        × (result ≡ code_of status.TooLarge) }
{
    let Some(now) = Moment::new(now) else {
        return Status::TooLarge.code();
    };
    let Some(held) = pace.as_mut() else {
        return Status::Empty.code();
    };
    let answer = held.pace_seen(now);
    tell(answer, at)
}

#[unsafe(no_mangle)]
pub extern "C" fn hikebox_pace_free(alloc: Global, pace: &mut Handle) -> u32
    ensures { Frees kind.Pace pace.old.held result pace.new.held }
{
    pace.free(alloc, Kind::Pace)
}

// The number of a status, and the moment that a take is told.
fn tell_taken(answer: Result<Result<Moment, TakeFault>, Status>, at: &mut u64) -> u32
    ensures { TellsTaken result at.old at.new answer }
{
    match answer {
        Ok(answer) => tell_take(answer, at),
        Err(status) => status.code(),
    }
}

// The same of a take that was made.
pub(crate) fn tell_take(answer: Result<Moment, TakeFault>, at: &mut u64) -> u32
    ensures { TellsTake result at.old at.new answer }
{
    match answer {
        Ok(moment) => {
            *at = moment.get();
            0
        }
        Err(fault) => tell_fault(&fault, at),
    }
}

// The same of a take that was not granted.
fn tell_fault(fault: &TakeFault, at: &mut u64) -> u32
    ensures { TellsFault result at.old at.new fault.now }
{
    match fault {
        TakeFault::TooSoon(again) => {
            *at = again.get();
            Status::TooSoon.code()
        }
        TakeFault::NoCost => Status::OutOfRange.code(),
        TakeFault::RacesLost => Status::RacesLost.code(),
    }
}
