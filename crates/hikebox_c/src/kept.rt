//! Limits whose word a store keeps: one call of a request is one step of the store.
ghost use Rattle.std.specs.Prelude.{◌≡◌, ◌≢◌, ◌<◌, ◌≤◌, length, IfSome, IfNone};
ghost use Rattle.sched_time.specs.declared.numbers.TheConstants.{FAR};
ghost use Rattle.sched_limit.specs.Bucket.{AreTerms};
ghost use Rattle.sched_limit.specs.Step.{rules};
ghost use Rattle.sched_limit.specs.Kinds.{bucket_rules};
ghost use Rattle.sched_limit_handle.specs.declared.status.Status.TheVariants as status;
ghost use Rattle.hikebox_c.specs.LimitTerms.{bucket_of, IsBreakerGiven, IsBreakerOf};
ghost use Rattle.hikebox_c.specs.Kept.{Steps, Does, BreakerDoes, IsUnmoved};
ghost use Rattle.hikebox_c.specs.Kept.{told_of, told_by, request_of, drawn_of, word_in};

use crate::limits::{
    BREAKER_SIZE, BUCKET_SIZE, BreakerGiven, BucketGiven, breaker_of, bucket_of, tell_refusal,
};
use sched_limit::{Breaker, LAST_MOMENT, Refuses, Request, Told, tell};
use sched_limit_handle::Status;
use sched_time::{FAR, Moment};

/// What a store keeps of a limit: its word, if it knows the limit.
#[repr(C)]
#[derive(Clone, Copy)]
pub struct KeptGiven {
    pub known: bool,
    pub word: u64,
}

/// What a request holds of a limit, as C keeps it.
#[repr(C)]
#[derive(Clone, Copy)]
pub struct HeldGiven {
    pub counted: bool,
    pub drew: bool,
    pub slots: u64,
    pub cost: u64,
    pub generation: u64,
}

/// What a request asks of a limit or tells it, as C gives it.
#[repr(C)]
#[derive(Clone, Copy)]
pub struct ToldGiven {
    pub call: u32,
    pub at: u64,
    pub cost: u64,
}

impl HeldGiven {
    // What the request holds.
    fn request(&self) -> Request
        ensures { result ≡ request_of self.now }
    {
        Request {
            counted: self.counted,
            slots: self.slots,
            drawn: self.drawn(),
            generation: self.generation,
        }
    }

    // What its last draw cost, if it was granted.
    fn drawn(&self) -> Option<u64>
        ensures { result ≡ drawn_of self.now }
    {
        if self.drew {
            return Some(self.cost);
        }
        None
    }

    // What C is to keep of a request.
    fn of(request: Request) -> HeldGiven
        ensures { request_of result ≡ request }
    {
        match request.drawn {
            Some(cost) => HeldGiven {
                counted: request.counted,
                drew: true,
                slots: request.slots,
                cost,
                generation: request.generation,
            },
            None => HeldGiven {
                counted: request.counted,
                drew: false,
                slots: request.slots,
                cost: 0,
                generation: request.generation,
            },
        }
    }
}

impl KeptGiven {
    // The word that the store knows, or the first one of this machine.
    fn word<M: Refuses>(&self, machine: &M) -> u64
        ensures { result ≡ word_in (M.first machine.now) self.now }
    {
        if self.known {
            return self.word;
        }
        machine.first()
    }
}

impl ToldGiven {
    // What the request tells, if there is such a call, by the last moment that there may be.
    fn told(&self, last: u64) -> Result<Told, Status>
        requires { last ≤ FAR }
        ensures { result ≡ told_of last self.now }
    {
        if self.call > 5 {
            return Err(Status::OutOfRange);
        }
        if self.at > last {
            return Err(Status::TooLarge);
        }
        let Some(now) = Moment::new(self.at) else {
            unreachable!()
        };
        let Some(told) = told_by(self.call, now, self.cost) else {
            unreachable!()
        };
        Ok(told)
    }
}

#[unsafe(no_mangle)]
pub extern "C" fn hikebox_bucket_step(
    terms: &BucketGiven,
    told: &ToldGiven,
    kept: &mut KeptGiven,
    held: &mut HeldGiven,
    number: &mut u64,
) -> u32
    ensures wrong_size { terms.now.size ≢ 48 →
        IsUnmoved status.WrongSize result (kept.old, held.old, number.old) (kept.new, held.new, number.new) }
    ensures unsound { terms.now.size ≡ 48 → (AreTerms (bucket_of terms.now) → ⊥) →
        IsUnmoved status.OutOfRange result (kept.old, held.old, number.old) (kept.new, held.new, number.new) }
    ensures does { terms.now.size ≡ 48 → AreTerms (bucket_of terms.now) →
        Does (bucket_rules (bucket_of terms.now)) terms.now.capacity (told_of FAR told.now) result
        (kept.old, held.old, number.old) (kept.new, held.new, number.new) }
{
    if terms.size != BUCKET_SIZE {
        return Status::WrongSize.code();
    }
    let bucket = bucket_of(terms);
    if !bucket.is_sound() {
        return Status::OutOfRange.code();
    }
    does(&bucket, told.told(FAR), kept, held, number)
}

#[unsafe(no_mangle)]
pub extern "C" fn hikebox_breaker_step(
    terms: &BreakerGiven,
    times: &[u64],
    told: &ToldGiven,
    kept: &mut KeptGiven,
    held: &mut HeldGiven,
    number: &mut u64,
) -> u32
    ensures wrong_size { terms.now.size ≢ 40 →
        IsUnmoved status.WrongSize result (kept.old, held.old, number.old) (kept.new, held.new, number.new) }
    ensures does { terms.now.size ≡ 40 → BreakerDoes terms.now times.now told.now result
        (kept.old, held.old, number.old) (kept.new, held.new, number.new) }
{
    if terms.size != BREAKER_SIZE {
        return Status::WrongSize.code();
    }
    match breaker_at_zero(terms, times) {
        Some(breaker) => does(&breaker, told.told(LAST_MOMENT), kept, held, number),
        None => Status::OutOfRange.code(),
    }
}

// A breaker of these terms whose clock begins at 0, if there is one.
fn breaker_at_zero(terms: &BreakerGiven, times: &[u64]) -> Option<Breaker>
    ensures some { IfSome result (IsBreakerOf 0 terms.now times.now) }
    ensures none { IfNone result (IsBreakerGiven terms.now (length times.now) → ⊥) }
{
    match Moment::new(0) {
        Some(start) => breaker_of(start, terms, times),
        None => None,
    }
}

// What a request tells by the call of this number, if there is one.
fn told_by(call: u32, now: Moment, cost: u64) -> Option<Told>
    ensures some { IfSome result (λ told. told ≡ told_by call now cost) }
    ensures none { IfNone result (5 < call) }
{
    match call {
        0 => Some(Told::Admit(now)),
        1 => Some(Told::Draw(now, cost)),
        2 => Some(Told::Failed(now)),
        3 => Some(Told::Succeeded(now)),
        4 => Some(Told::Cancelled),
        5 => Some(Told::Ended),
        _ => None,
    }
}

// Makes a call that was given, if there is such a one, and tells what comes of it.
fn does<M: Refuses>(
    machine: &M,
    told: Result<Told, Status>,
    kept: &mut KeptGiven,
    held: &mut HeldGiven,
    number: &mut u64,
) -> u32
    ensures { let m = rules M.next M.refusal M.generation M.worth machine.now in
        Does m (M.first machine.now) told result
        (kept.old, held.old, number.old) (kept.new, held.new, number.new) }
{
    match told {
        Ok(told) => step(machine, &told, kept, held, number),
        Err(why) => why.code(),
    }
}

// Makes a request's call on the word that is kept, or on the first one, and tells what comes of it.
fn step<M: Refuses>(
    machine: &M,
    told: &Told,
    kept: &mut KeptGiven,
    held: &mut HeldGiven,
    number: &mut u64,
) -> u32
    ensures { let m = rules M.next M.refusal M.generation M.worth machine.now in
        Steps m (M.first machine.now) told.now result
        (kept.old, held.old, number.old) (kept.new, held.new, number.new) }
{
    let mut word = kept.word(machine);
    let mut request = held.request();
    let answer = tell(machine, told, 0, &mut request, &mut word);
    *kept = KeptGiven { known: true, word };
    *held = HeldGiven::of(request);
    tell_refusal(answer, number)
}
