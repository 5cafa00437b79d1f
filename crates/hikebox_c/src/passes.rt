//! Passes: what a retry draws on, a budget, a quota or nothing, in one kind of handle.
ghost use Rattle.std.specs.Prelude.{◌≡◌, ◌≢◌, ◌<◌, ◌≤◌, true, false, Err};
ghost use Rattle.sched_time.specs.declared.numbers.TheConstants.{FAR};
ghost use Rattle.sched_handle.specs.Drawing.{Draws, Deposits, HandsBack, SetsTerms, Raises, Sees};
ghost use Rattle.sched_handle.specs.Fills.{Frees};
ghost use Rattle.sched_handle.specs.Passes.{MakesBudget, terms_of, MakesQuota, MakesUnlimited, OnPass, Splits};
ghost use Rattle.sched_handle.specs.Passes.{CountsTickets, Closes, AreOfOne};
ghost use Rattle.sched_handle.specs.Status.{told, code_of};
ghost use Rattle.sched_handle.specs.declared.held.Kind.TheVariants as kind;
ghost use Rattle.sched_handle.specs.declared.status.Status.TheVariants as status;
ghost use Rattle.hikebox_c.specs.Calls.{Tells, Kept, OnHeld, Makes, MakesWith};
ghost use Rattle.hikebox_c.specs.Passes.{ClosesHeld, JoinsHeld};

use crate::joins::join_into;
use sched_handle::{Handle, Held, Kind, Status, Usage, tell};
use sched_time::Moment;
use std::alloc::Global;

#[unsafe(no_mangle)]
pub extern "C" fn hikebox_budget_fixed(alloc: Global, limit: u64, pass: &mut Handle) -> u32
    ensures { Makes (MakesBudget limit false) pass.old.held result pass.new.held }
{
    if pass.is_full() {
        return Status::Full.code();
    }
    let made = Held::fixed(alloc, limit);
    pass.fill(made)
}

#[unsafe(no_mangle)]
pub extern "C" fn hikebox_budget_rising(alloc: Global, limit: u64, pass: &mut Handle) -> u32
    ensures { Makes (MakesBudget limit true) pass.old.held result pass.new.held }
{
    if pass.is_full() {
        return Status::Full.code();
    }
    let made = Held::rising(alloc, limit);
    pass.fill(made)
}

#[unsafe(no_mangle)]
pub extern "C" fn hikebox_quota_new(
    alloc: Global,
    now: u64,
    reserve: u64,
    share: u64,
    period: u64,
    carries: bool,
    pass: &mut Handle,
) -> u32
    ensures made { now ≤ FAR →
        Makes (MakesQuota now (terms_of reserve share period) carries) pass.old.held result pass.new.held }
    ensures too_large { FAR < now → (pass.new.held ≡ pass.old.held) × (result ≡ code_of status.TooLarge) }
{
    let Some(now) = Moment::new(now) else {
        return Status::TooLarge.code();
    };
    if pass.is_full() {
        return Status::Full.code();
    }
    let made = Held::quota(alloc, now, reserve, share, period, carries);
    pass.fill(made)
}

#[unsafe(no_mangle)]
pub extern "C" fn hikebox_pass_unlimited(alloc: Global, pass: &mut Handle) -> u32
    ensures { Makes MakesUnlimited pass.old.held result pass.new.held }
{
    if pass.is_full() {
        return Status::Full.code();
    }
    let made = Held::unlimited(alloc);
    pass.fill(made)
}

#[unsafe(no_mangle)]
pub extern "C" fn hikebox_pass_draw(pass: &mut Handle, now: u64, ticket: &mut u64) -> u32
    ensures draw { now ≤ FAR → OnHeld (OnPass (Draws now)) pass.old.held pass.new.held
        (Tells result ticket.old ticket.new) }
    ensures too_large { FAR < now → (pass.new.held ≡ pass.old.held)
        × Tells result ticket.old ticket.new (Err status.TooLarge) }
{
    let Some(now) = Moment::new(now) else {
        return Status::TooLarge.code();
    };
    let Some(held) = pass.as_mut() else {
        return Status::Empty.code();
    };
    let answer = held.draw(now);
    tell(answer, ticket)
}

#[unsafe(no_mangle)]
pub extern "C" fn hikebox_pass_deposit(pass: &mut Handle, now: u64, requests: u64) -> u32
    ensures deposit { now ≤ FAR →
        OnHeld (OnPass (Deposits now requests)) pass.old.held pass.new.held (λ r. result ≡ told r) }
    ensures too_large { FAR < now → (pass.new.held ≡ pass.old.held) × (result ≡ code_of status.TooLarge) }
{
    let Some(now) = Moment::new(now) else {
        return Status::TooLarge.code();
    };
    let Some(held) = pass.as_mut() else {
        return Status::Empty.code();
    };
    let answer = held.deposit(now, requests);
    match answer {
        Ok(()) => 0,
        Err(status) => status.code(),
    }
}

#[unsafe(no_mangle)]
pub extern "C" fn hikebox_pass_hand_back(pass: &mut Handle) -> u32
    ensures { OnHeld (OnPass HandsBack) pass.old.held pass.new.held (λ r. result ≡ told r) }
{
    let Some(held) = pass.as_mut() else {
        return Status::Empty.code();
    };
    let answer = held.hand_back();
    match answer {
        Ok(()) => 0,
        Err(status) => status.code(),
    }
}

#[unsafe(no_mangle)]
pub extern "C" fn hikebox_pass_set_terms(pass: &mut Handle, reserve: u64, share: u64) -> u32
    ensures { OnHeld (OnPass (SetsTerms reserve share)) pass.old.held pass.new.held (λ r. result ≡ told r) }
{
    let Some(held) = pass.as_mut() else {
        return Status::Empty.code();
    };
    let answer = held.set_terms(reserve, share);
    match answer {
        Ok(()) => 0,
        Err(status) => status.code(),
    }
}

#[unsafe(no_mangle)]
pub extern "C" fn hikebox_pass_split(alloc: Global, pass: &mut Handle, part: &mut Handle) -> u32
    ensures { MakesWith (OnPass Splits) pass.old.held pass.new.held part.old.held result part.new.held }
{
    if part.is_full() {
        return Status::Full.code();
    }
    let Some(held) = pass.as_mut() else {
        return Status::Empty.code();
    };
    let made = held.split(alloc);
    part.fill(made)
}

#[unsafe(no_mangle)]
pub extern "C" fn hikebox_pass_join(alloc: Global, pass: &mut Handle, other: &mut Handle) -> u32
    requires { AreOfOne pass.old.held other.old.held }
    ensures { JoinsHeld kind.Pass other.old.held pass.old.held result other.new.held pass.new.held }
{
    join_into(alloc, Kind::Pass, other, pass)
}

#[unsafe(no_mangle)]
pub extern "C" fn hikebox_pass_raise(pass: &mut Handle, to: u64, limit: &mut u64) -> u32
    ensures { OnHeld (OnPass (Raises to)) pass.old.held pass.new.held (Tells result limit.old limit.new) }
{
    let Some(held) = pass.as_mut() else {
        return Status::Empty.code();
    };
    let answer = held.raise(to);
    tell(answer, limit)
}

#[unsafe(no_mangle)]
pub extern "C" fn hikebox_pass_count(pass: &mut Handle, tickets: &mut u64) -> u32
    ensures { OnHeld (Kept CountsTickets) pass.old.held pass.new.held (Tells result tickets.old tickets.new) }
{
    let Some(held) = pass.as_mut() else {
        return Status::Empty.code();
    };
    let answer = held.count();
    tell(answer, tickets)
}

/// What is known of a window of a quota, after the size in bytes that C gives of this struct.
#[repr(C)]
#[derive(Clone, Copy)]
pub struct SizedUsage {
    pub size: usize,
    pub usage: Usage,
}

// The size of it.
const USAGE_SIZE: usize = 48;

#[unsafe(no_mangle)]
pub extern "C" fn hikebox_pass_seen(pass: &mut Handle, now: u64, usage: &mut SizedUsage) -> u32
    ensures seen { usage.old.size ≡ 48 → now ≤ FAR → OnHeld (OnPass (Sees now)) pass.old.held pass.new.held
        (Tells result usage.old.usage usage.new.usage) }
    ensures too_large { usage.old.size ≡ 48 → FAR < now → (pass.new.held ≡ pass.old.held)
        × Tells result usage.old.usage usage.new.usage (Err status.TooLarge) }
    ensures wrong_size { usage.old.size ≢ 48 → (pass.new.held ≡ pass.old.held)
        × Tells result usage.old usage.new (Err status.WrongSize) }
    ensures size { usage.new.size ≡ usage.old.size }
{
    if usage.size != USAGE_SIZE {
        return Status::WrongSize.code();
    }
    see(pass, now, &mut usage.usage)
}

// Tells what is known of the window of this moment.
fn see(pass: &mut Handle, now: u64, usage: &mut Usage) -> u32
    ensures seen { now ≤ FAR → OnHeld (OnPass (Sees now)) pass.old.held pass.new.held
        (Tells result usage.old usage.new) }
    ensures too_large { FAR < now → (pass.new.held ≡ pass.old.held)
        × Tells result usage.old usage.new (Err status.TooLarge) }
{
    let Some(now) = Moment::new(now) else {
        return Status::TooLarge.code();
    };
    let Some(held) = pass.as_mut() else {
        return Status::Empty.code();
    };
    let answer = held.usage(now);
    tell(answer, usage)
}

#[unsafe(no_mangle)]
pub extern "C" fn hikebox_pass_close(alloc: Global, pass: &mut Handle, tickets: &mut u64) -> u32
    ensures { ClosesHeld pass.old.held pass.new.held (Tells result tickets.old tickets.new) }
{
    let Some(held) = pass.as_mut() else {
        return Status::Empty.code();
    };
    let answer = held.close();
    if held.kind() == Kind::Room {
        drop(pass.take(alloc));
    }
    tell(answer, tickets)
}

#[unsafe(no_mangle)]
pub extern "C" fn hikebox_pass_free(alloc: Global, pass: &mut Handle) -> u32
    ensures { Frees kind.Pass pass.old.held result pass.new.held }
{
    pass.free(alloc, Kind::Pass)
}
