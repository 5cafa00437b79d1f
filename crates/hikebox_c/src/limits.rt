//! Limits: what a request asks before each run, and tells after it.
ghost use Rattle.std.specs.Prelude.{◌≡◌, ◌≢◌, ◌<◌, ◌≤◌, None, IfSome, IfNone, length};
ghost use Rattle.sched_time.specs.declared.numbers.TheConstants.{FAR};
ghost use Rattle.sched_limit.specs.Results.{IsByResults};
ghost use Rattle.sched_limit.specs.declared.request.Told.TheVariants as told_as;
ghost use Rattle.sched_limit_handle.specs.Held.{MakesBucket, Makes, IsFlight, HeldTells};
ghost use Rattle.sched_handle.specs.Fills.{Frees};
ghost use Rattle.sched_handle.specs.Limits.{OnLimits};
ghost use Rattle.sched_handle.specs.Status.{code_of};
ghost use Rattle.sched_handle.specs.declared.held.Kind.TheVariants as kind;
ghost use Rattle.sched_handle.specs.declared.status.Status.TheVariants as status;
ghost use Rattle.hikebox_c.specs.Calls.{OnHeld};
ghost use Rattle.hikebox_c.specs.Limits.{MakesLimit, PutsLimits, PartsHeld, JoinsHeld, TellsRefusal, TellsAsked};
ghost use Rattle.hikebox_c.specs.Limits.{TellsHeld};
ghost use Rattle.hikebox_c.specs.LimitTerms.{bucket_of, flight_of, IsAdaptiveGiven, IsAdaptiveOf, AdaptiveMade};
ghost use Rattle.hikebox_c.specs.LimitTerms.{AreTimes, IsBreakerGiven, IsBreakerOf, BreakerMade};
ghost use Rattle.hikebox_c.specs.LimitTerms.{IsThrottleGiven, IsThrottleOf, ThrottleMade};

use sched_handle::{Handle, Held, Kind, Status};
use sched_limit::{Adaptive, Breaker, Bucket, InFlight, MAX_TRIPS, Refusal, Throttle};
use sched_limit_handle::{Held as Limits, Status as Reason, number_of, refused};
use sched_time::{Millis, Moment};
use std::alloc::Global;

/// A bucket, as C gives it.
#[repr(C)]
#[derive(Clone, Copy)]
pub struct BucketGiven {
    pub size: usize,
    pub capacity: u64,
    pub floor: u64,
    pub debit: u64,
    pub credit: u64,
    pub refund: bool,
}

// The size of it.
pub(crate) const BUCKET_SIZE: usize = 48;

/// An adaptive limit, as C gives it.
#[repr(C)]
#[derive(Clone, Copy)]
pub struct AdaptiveGiven {
    pub size: usize,
    pub least: u64,
    pub most: u64,
    pub first: u64,
    pub backoff: u64,
}

// The size of it.
const ADAPTIVE_SIZE: usize = 40;

/// A breaker without its open times, as C gives it.
#[repr(C)]
#[derive(Clone, Copy)]
pub struct BreakerGiven {
    pub size: usize,
    pub failures: u64,
    pub probes: u64,
    pub deadline: u64,
    pub results: u64,
}

// The size of it.
pub(crate) const BREAKER_SIZE: usize = 40;

// How many limits a handle holds at most.
const MOST: u64 = 4;

#[unsafe(no_mangle)]
pub extern "C" fn hikebox_bucket_new(alloc: Global, terms: &BucketGiven, limit: &mut Handle) -> u32
    ensures made { terms.now.size ≡ 48 →
        MakesLimit (MakesBucket (bucket_of terms.now)) limit.old.held result limit.new.held }
    ensures wrong_size { terms.now.size ≢ 48 →
        (limit.new.held ≡ limit.old.held) × (result ≡ code_of status.WrongSize) }
{
    if terms.size != BUCKET_SIZE {
        return Status::WrongSize.code();
    }
    if limit.is_full() {
        return Status::Full.code();
    }
    let made = Limits::bucket(alloc, bucket_of(terms));
    fill(alloc, limit, made)
}

// A bucket of these terms.
pub(crate) fn bucket_of(terms: &BucketGiven) -> Bucket
    ensures { result ≡ bucket_of terms.now }
{
    Bucket {
        capacity: terms.capacity,
        floor: terms.floor,
        debit: terms.debit,
        credit: terms.credit,
        refund: terms.refund,
    }
}

#[unsafe(no_mangle)]
pub extern "C" fn hikebox_in_flight_new(
    alloc: Global,
    least: u32,
    share: u32,
    most: u32,
    limit: &mut Handle,
) -> u32
    ensures { MakesLimit (Makes (IsFlight (flight_of least share most))) limit.old.held result limit.new.held }
{
    if limit.is_full() {
        return Status::Full.code();
    }
    let made = Limits::in_flight(alloc, InFlight { least, share, most });
    fill(alloc, limit, made)
}

#[unsafe(no_mangle)]
pub extern "C" fn hikebox_adaptive_new(
    alloc: Global,
    terms: &AdaptiveGiven,
    limit: &mut Handle,
) -> u32
    ensures made { terms.now.size ≡ 40 →
        MakesLimit (AdaptiveMade terms.now) limit.old.held result limit.new.held }
    ensures wrong_size { terms.now.size ≢ 40 →
        (limit.new.held ≡ limit.old.held) × (result ≡ code_of status.WrongSize) }
{
    if terms.size != ADAPTIVE_SIZE {
        return Status::WrongSize.code();
    }
    if limit.is_full() {
        return Status::Full.code();
    }
    let made = adaptive(alloc, terms);
    fill(alloc, limit, made)
}

// An adaptive limit of these terms, if there is one.
fn adaptive(alloc: Global, terms: &AdaptiveGiven) -> Result<Box<Limits>, Reason>
    ensures { AdaptiveMade terms.now result }
{
    match adaptive_of(terms) {
        Some(adaptive) => Limits::adaptive(alloc, adaptive),
        None => Err(Reason::OutOfRange),
    }
}

// The adaptive limit of these terms, if there is one.
fn adaptive_of(terms: &AdaptiveGiven) -> Option<Adaptive>
    ensures some { IfSome result (IsAdaptiveOf terms.now) }
    ensures none { IfNone result (IsAdaptiveGiven terms.now → ⊥) }
{
    let Ok(least) = u32::try_from(terms.least) else {
        return None;
    };
    let Ok(most) = u32::try_from(terms.most) else {
        return None;
    };
    let Ok(first) = u32::try_from(terms.first) else {
        return None;
    };
    let Ok(backoff) = u32::try_from(terms.backoff) else {
        return None;
    };
    Adaptive::new(least, most, first, backoff)
}

#[unsafe(no_mangle)]
pub extern "C" fn hikebox_breaker_new(
    alloc: Global,
    now: u64,
    terms: &BreakerGiven,
    times: &[u64],
    limit: &mut Handle,
) -> u32
    ensures made { terms.now.size ≡ 40 → now ≤ FAR →
        MakesLimit (BreakerMade now terms.now times.now) limit.old.held result limit.new.held }
    ensures wrong_size { terms.now.size ≢ 40 →
        (limit.new.held ≡ limit.old.held) × (result ≡ code_of status.WrongSize) }
    ensures too_large { terms.now.size ≡ 40 → FAR < now →
        (limit.new.held ≡ limit.old.held) × (result ≡ code_of status.TooLarge) }
{
    if terms.size != BREAKER_SIZE {
        return Status::WrongSize.code();
    }
    let Some(now) = Moment::new(now) else {
        return Status::TooLarge.code();
    };
    if limit.is_full() {
        return Status::Full.code();
    }
    let made = breaker(alloc, now, terms, times);
    fill(alloc, limit, made)
}

// A breaker of these terms and open times, if there is one.
fn breaker(
    alloc: Global,
    now: Moment,
    terms: &BreakerGiven,
    times: &[u64],
) -> Result<Box<Limits>, Reason>
    ensures { BreakerMade now terms.now times.now result }
{
    match breaker_of(now, terms, times) {
        Some(breaker) => Limits::breaker(alloc, breaker),
        None => Err(Reason::OutOfRange),
    }
}

// The terms of a breaker and its open times, if there is such a breaker.
pub(crate) fn breaker_of(now: Moment, terms: &BreakerGiven, times: &[u64]) -> Option<Breaker>
    ensures some { IfSome result (IsBreakerOf now terms.now times.now) }
    ensures none { IfNone result (IsBreakerGiven terms.now (length times.now) → ⊥) }
{
    let Ok(failures) = u32::try_from(terms.failures) else {
        return None;
    };
    let Some(deadline) = Millis::new(terms.deadline) else {
        return None;
    };
    let count = times.len();
    if count == 0 || count > MAX_TRIPS {
        return None;
    }
    let kept = kept_of(times);
    let breaker = Breaker::new(
        now,
        failures,
        terms.probes,
        deadline,
        kept,
        count as u64 - 1,
    )?;
    by_results(breaker, terms.results)
}

// The breaker by so many of its last results, or in a row where they are 0, if there is such a one.
fn by_results(breaker: Breaker, results: u64) -> Option<Breaker>
    requires { breaker.results ≡ 0 }
    ensures some { IfSome result (IsByResults breaker results) }
    ensures none { IfNone result (((results ≤ 32) × (1 ≤ results → breaker.failures ≤ results)) → ⊥) }
{
    if results == 0 {
        return Some(breaker);
    }
    match u32::try_from(results) {
        Ok(results) => breaker.by_results(results),
        Err(_) => None,
    }
}

// The first 64 open times, and 0 in the place of those that are not given.
fn kept_of(times: &[u64]) -> [u64; 64]
    ensures { AreTimes times.now result }
{
    let mut kept = [0; 64];
    for i in 0..times.len().min(64) {
        kept[i] = times[i];
    }
    kept
}

#[unsafe(no_mangle)]
pub extern "C" fn hikebox_throttle_new(
    alloc: Global,
    now: u64,
    ratio: u32,
    period: u64,
    limit: &mut Handle,
) -> u32
    ensures made { now ≤ FAR →
        MakesLimit (ThrottleMade now ratio period) limit.old.held result limit.new.held }
    ensures too_large { FAR < now → (limit.new.held ≡ limit.old.held) × (result ≡ code_of status.TooLarge) }
{
    let Some(now) = Moment::new(now) else {
        return Status::TooLarge.code();
    };
    if limit.is_full() {
        return Status::Full.code();
    }
    let made = throttle(alloc, now, ratio, period);
    fill(alloc, limit, made)
}

// A throttle of these terms, if there is one.
fn throttle(alloc: Global, now: Moment, ratio: u32, period: u64) -> Result<Box<Limits>, Reason>
    ensures { ThrottleMade now ratio period result }
{
    match throttle_of(now, ratio, period) {
        Some(throttle) => Limits::throttle(alloc, throttle),
        None => Err(Reason::OutOfRange),
    }
}

// The throttle of these terms, if there is one.
fn throttle_of(now: Moment, ratio: u32, period: u64) -> Option<Throttle>
    ensures some { IfSome result (IsThrottleOf now ratio period) }
    ensures none { IfNone result (IsThrottleGiven ratio period → ⊥) }
{
    let Some(period) = Millis::new(period) else {
        return None;
    };
    Throttle::new(now, ratio, period)
}

#[unsafe(no_mangle)]
pub extern "C" fn hikebox_limit_both(alloc: Global, limit: &mut Handle, second: &mut Handle) -> u32
    ensures { JoinsHeld limit.old.held second.old.held result limit.new.held second.new.held }
{
    let Some(mut first) = limit.take(alloc) else {
        return Status::Empty.code();
    };
    let Some(other) = second.take(alloc) else {
        limit.put(first);
        return Status::Empty.code();
    };
    let Ok(these) = first.limits_count() else {
        limit.put(first);
        second.put(other);
        return Status::WrongKind.code();
    };
    let Ok(others) = other.limits_count() else {
        limit.put(first);
        second.put(other);
        return Status::WrongKind.code();
    };
    if these + others > MOST {
        limit.put(first);
        second.put(other);
        return Status::OutOfRange.code();
    }
    first.limits_join(other);
    limit.put(first);
    0
}

#[unsafe(no_mangle)]
pub extern "C" fn hikebox_limit_split(alloc: Global, limit: &mut Handle, part: &mut Handle) -> u32
    ensures { PartsHeld limit.old.held limit.new.held part.old.held result part.new.held }
{
    if part.is_full() {
        return Status::Full.code();
    }
    let Some(held) = limit.as_mut() else {
        return Status::Empty.code();
    };
    let made = held.limits_split(alloc);
    match made {
        Ok(made) => fill(alloc, part, made),
        Err(status) => status.code(),
    }
}

#[unsafe(no_mangle)]
pub extern "C" fn hikebox_limit_admit(
    limit: &mut Handle,
    now: u64,
    random: u32,
    number: &mut u64,
) -> u32
    ensures admit { now ≤ FAR →
        OnHeld (OnLimits (λ u r v. HeldTells u (told_as.Admit now) random r v)) limit.old.held limit.new.held
        (TellsAsked result number.old number.new) }
    ensures too_large { FAR < now → (limit.new.held ≡ limit.old.held) × (number.new ≡ number.old)
        × (result ≡ code_of status.TooLarge) }
{
    let Some(now) = Moment::new(now) else {
        return Status::TooLarge.code();
    };
    let Some(held) = limit.as_mut() else {
        return Status::Empty.code();
    };
    let answer = held.limits_admit(now, random);
    tell_asked(answer, number)
}

#[unsafe(no_mangle)]
pub extern "C" fn hikebox_limit_draw(
    limit: &mut Handle,
    now: u64,
    cost: u64,
    random: u32,
    number: &mut u64,
) -> u32
    ensures draw { now ≤ FAR →
        OnHeld (OnLimits (λ u r v. HeldTells u (told_as.Draw now cost) random r v)) limit.old.held limit.new.held
        (TellsAsked result number.old number.new) }
    ensures too_large { FAR < now → (limit.new.held ≡ limit.old.held) × (number.new ≡ number.old)
        × (result ≡ code_of status.TooLarge) }
{
    let Some(now) = Moment::new(now) else {
        return Status::TooLarge.code();
    };
    let Some(held) = limit.as_mut() else {
        return Status::Empty.code();
    };
    let answer = held.limits_draw(now, cost, random);
    tell_asked(answer, number)
}

#[unsafe(no_mangle)]
pub extern "C" fn hikebox_limit_failed(limit: &mut Handle, now: u64) -> u32
    ensures failed { now ≤ FAR →
        TellsHeld (told_as.Failed now) limit.old.held limit.new.held result }
    ensures too_large { FAR < now → (limit.new.held ≡ limit.old.held) × (result ≡ code_of status.TooLarge) }
{
    let Some(now) = Moment::new(now) else {
        return Status::TooLarge.code();
    };
    let Some(held) = limit.as_mut() else {
        return Status::Empty.code();
    };
    let answer = held.limits_failed(now);
    match answer {
        Ok(()) => 0,
        Err(status) => status.code(),
    }
}

#[unsafe(no_mangle)]
pub extern "C" fn hikebox_limit_succeeded(limit: &mut Handle, now: u64) -> u32
    ensures succeeded { now ≤ FAR →
        TellsHeld (told_as.Succeeded now) limit.old.held limit.new.held result }
    ensures too_large { FAR < now → (limit.new.held ≡ limit.old.held) × (result ≡ code_of status.TooLarge) }
{
    let Some(now) = Moment::new(now) else {
        return Status::TooLarge.code();
    };
    let Some(held) = limit.as_mut() else {
        return Status::Empty.code();
    };
    let answer = held.limits_succeeded(now);
    match answer {
        Ok(()) => 0,
        Err(status) => status.code(),
    }
}

#[unsafe(no_mangle)]
pub extern "C" fn hikebox_limit_cancelled(limit: &mut Handle) -> u32
    ensures { TellsHeld told_as.Cancelled limit.old.held limit.new.held result }
{
    let Some(held) = limit.as_mut() else {
        return Status::Empty.code();
    };
    let answer = held.limits_cancelled();
    match answer {
        Ok(()) => 0,
        Err(status) => status.code(),
    }
}

#[unsafe(no_mangle)]
pub extern "C" fn hikebox_limit_ended(limit: &mut Handle) -> u32
    ensures { TellsHeld told_as.Ended limit.old.held limit.new.held result }
{
    let Some(held) = limit.as_mut() else {
        return Status::Empty.code();
    };
    let answer = held.limits_ended();
    match answer {
        Ok(()) => 0,
        Err(status) => status.code(),
    }
}

#[unsafe(no_mangle)]
pub extern "C" fn hikebox_limit_free(alloc: Global, limit: &mut Handle) -> u32
    ensures { Frees kind.Limits limit.old.held result limit.new.held }
{
    limit.free(alloc, Kind::Limits)
}

// Puts limits that were made into a handle that holds nothing.
fn fill(alloc: Global, limit: &mut Handle, made: Result<Box<Limits>, Reason>) -> u32
    requires { limit.old.held ≡ None }
    ensures { PutsLimits made limit.old.held result limit.new.held }
{
    match made {
        Ok(limits) => {
            let made = Held::of_limits(alloc, limits);
            limit.fill(made)
        }
        Err(reason) => reason.code(),
    }
}

// The number of a status, where a call is refused, and what the refusal says.
fn tell_asked(answer: Result<Result<(), Refusal>, Status>, number: &mut u64) -> u32
    ensures { TellsAsked result number.old number.new answer }
{
    match answer {
        Ok(answer) => tell_refusal(answer, number),
        Err(status) => status.code(),
    }
}

// The number of a status, where a call is refused, and what the refusal says.
pub(crate) fn tell_refusal(answer: Result<(), Refusal>, number: &mut u64) -> u32
    ensures { TellsRefusal result number.old number.new answer }
{
    match answer {
        Ok(()) => 0,
        Err(why) => {
            *number = number_of(&why);
            refused(&why).code()
        }
    }
}
