//! What a limit's state is, and breakers that somebody opens or closes by hand.
ghost use Rattle.std.specs.Prelude.{◌≡◌, ◌≢◌, ◌<◌, ◌≤◌};
ghost use Rattle.sched_time.specs.declared.numbers.TheConstants.{FAR};
ghost use Rattle.sched_limit_request.specs.declared.by_hand.Hand.TheVariants as hand_as;
ghost use Rattle.sched_handle.specs.Limits.{OnLimits};
ghost use Rattle.sched_handle.specs.States.{DoesByHand, SeesLimit};
ghost use Rattle.sched_handle.specs.Status.{code_of};
ghost use Rattle.sched_handle.specs.declared.status.Status.TheVariants as status;
ghost use Rattle.hikebox_c.specs.Calls.{OnHeld};
ghost use Rattle.hikebox_c.specs.States.{TellsState, hand_code, state_told};

use sched_handle::{Handle, Status};
use sched_limit::Seen;
use sched_limit_request::Hand;
use sched_time::Moment;

/// A limit's state, as C has it.
#[repr(C)]
#[derive(Clone, Copy)]
pub struct StateTold {
    pub size: usize,
    pub kind: u64,
    pub first: u64,
    pub second: u64,
    pub third: u64,
    pub until: u64,
}

// The size of it.
const STATE_SIZE: usize = 48;

#[unsafe(no_mangle)]
pub extern "C" fn hikebox_limit_state(
    limit: &mut Handle,
    which: u32,
    now: u64,
    state: &mut StateTold,
) -> u32
    ensures state { state.old.size ≡ 48 → now ≤ FAR →
        OnHeld (OnLimits (SeesLimit which now)) limit.old.held limit.new.held
        (TellsState result state.old state.new) }
    ensures wrong_size { state.old.size ≢ 48 →
        (limit.new.held ≡ limit.old.held) × (state.new ≡ state.old) × (result ≡ code_of status.WrongSize) }
    ensures too_large { state.old.size ≡ 48 → FAR < now →
        (limit.new.held ≡ limit.old.held) × (state.new ≡ state.old) × (result ≡ code_of status.TooLarge) }
{
    if state.size != STATE_SIZE {
        return Status::WrongSize.code();
    }
    let Some(now) = Moment::new(now) else {
        return Status::TooLarge.code();
    };
    let Some(held) = limit.as_mut() else {
        return Status::Empty.code();
    };
    let seen = held.limits_seen(which as u64, now);
    tell_state(seen, state)
}

#[unsafe(no_mangle)]
pub extern "C" fn hikebox_breaker_open(limit: &mut Handle, now: u64, until: u64) -> u32
    ensures opens { now ≤ FAR → until ≤ FAR →
        OnHeld (OnLimits (DoesByHand (hand_as.Open now until))) limit.old.held limit.new.held
        (λ r. result ≡ hand_code r) }
    ensures now_too_large { FAR < now → (limit.new.held ≡ limit.old.held) × (result ≡ code_of status.TooLarge) }
    ensures until_too_large { FAR < until → (limit.new.held ≡ limit.old.held) × (result ≡ code_of status.TooLarge) }
{
    let Some(now) = Moment::new(now) else {
        return Status::TooLarge.code();
    };
    let Some(until) = Moment::new(until) else {
        return Status::TooLarge.code();
    };
    let Some(held) = limit.as_mut() else {
        return Status::Empty.code();
    };
    let done = held.limits_by_hand(&Hand::Open(now, until));
    by_hand_code(done)
}

#[unsafe(no_mangle)]
pub extern "C" fn hikebox_breaker_close(limit: &mut Handle, now: u64) -> u32
    ensures closes { now ≤ FAR →
        OnHeld (OnLimits (DoesByHand (hand_as.Close now))) limit.old.held limit.new.held
        (λ r. result ≡ hand_code r) }
    ensures too_large { FAR < now → (limit.new.held ≡ limit.old.held) × (result ≡ code_of status.TooLarge) }
{
    let Some(now) = Moment::new(now) else {
        return Status::TooLarge.code();
    };
    let Some(held) = limit.as_mut() else {
        return Status::Empty.code();
    };
    let done = held.limits_by_hand(&Hand::Close(now));
    by_hand_code(done)
}

// The number of what came of an act by hand.
fn by_hand_code(done: Result<bool, Status>) -> u32
    ensures { result ≡ hand_code done }
{
    match done {
        Ok(true) => 0,
        Ok(false) => Status::WrongKind.code(),
        Err(status) => status.code(),
    }
}

// Tells a state, if there is such a limit.
fn tell_state(seen: Result<Option<Seen>, Status>, state: &mut StateTold) -> u32
    ensures { TellsState result state.old state.new seen }
{
    match seen {
        Ok(Some(seen)) => {
            *state = state_told(&seen);
            0
        }
        Ok(None) => Status::OutOfRange.code(),
        Err(status) => status.code(),
    }
}

// A state as C has it.
fn state_told(seen: &Seen) -> StateTold
    ensures { result ≡ state_told seen.now }
{
    match seen {
        Seen::Bucket(level, capacity) => told(1, *level, *capacity, 0),
        Seen::InFlight(requests, retries, most) => StateTold {
            third: *most,
            ..told(2, *requests, *retries, 0)
        },
        Seen::Closed(failures) => told(3, *failures, 0, 0),
        Seen::Open(until, trip) => told(4, *trip, 0, until.get()),
        Seen::HalfOpen(admitted, won) => told(5, *admitted, *won, 0),
        Seen::Throttle(requests, accepts) => told(6, *requests, *accepts, 0),
        Seen::Adaptive(inside, level) => told(7, *inside, *level, 0),
    }
}

// A state of this kind, with these numbers.
fn told(kind: u64, first: u64, second: u64, until: u64) -> StateTold
    ensures { result ≡ record {
      size = 48;
      kind = kind;
      first = first;
      second = second;
      third = 0;
      until = until;
    } }
{
    StateTold {
        size: STATE_SIZE,
        kind,
        first,
        second,
        third: 0,
        until,
    }
}
