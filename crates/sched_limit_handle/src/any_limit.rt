//! A limit of a kind that is chosen while the program runs.

use sched_limit::{Adaptive, Breaker, Bucket, InFlight, Refusal, Told};
use sched_limit_request::{Asks, OnLimit, OnThrottle, SplitFault};

/// A limit, as one request after another asks it.
#[derive(Drop)]
pub enum AnyLimit {
    Bucket(OnLimit<Bucket>),
    InFlight(OnLimit<InFlight>),
    Adaptive(OnLimit<Adaptive>),
    Breaker(OnLimit<Breaker>),
    Throttle(OnThrottle),
}

impl Asks for AnyLimit {
    ghost use Rattle.sched_limit_handle.specs.AnyLimit.{any_asked};

    ghost asked = { any_asked };

    #[inline(always)]
    fn tell(&mut self, told: &Told, random: u32) -> Result<(), Refusal> {
        match self {
            AnyLimit::Bucket(limit) => by_kind(limit, told, random),
            AnyLimit::InFlight(limit) => by_kind(limit, told, random),
            AnyLimit::Adaptive(limit) => by_kind(limit, told, random),
            AnyLimit::Breaker(limit) => by_kind(limit, told, random),
            AnyLimit::Throttle(limit) => by_kind(limit, told, random),
        }
    }

    fn split(&mut self) -> Result<AnyLimit, SplitFault> {
        match self {
            AnyLimit::Bucket(limit) => Ok(AnyLimit::Bucket(limit.split()?)),
            AnyLimit::InFlight(limit) => Ok(AnyLimit::InFlight(limit.split()?)),
            AnyLimit::Adaptive(limit) => Ok(AnyLimit::Adaptive(limit.split()?)),
            AnyLimit::Breaker(limit) => Ok(AnyLimit::Breaker(limit.split()?)),
            AnyLimit::Throttle(limit) => Ok(AnyLimit::Throttle(limit.split()?)),
        }
    }
}

// What a limit of one kind is told, by a call for each kind: the kind is one jump, and what is told another.
#[inline(never)]
fn by_kind<A: Asks>(limit: &mut A, told: &Told, random: u32) -> Result<(), Refusal>
    ensures { A.asked.tells limit.old told.now random result limit.new }
{
    match *told {
        Told::Admit(now) => limit.tell(&Told::Admit(now), random),
        Told::Draw(now, cost) => limit.tell(&Told::Draw(now, cost), random),
        Told::Failed(now) => limit.tell(&Told::Failed(now), random),
        Told::Succeeded(now) => limit.tell(&Told::Succeeded(now), random),
        Told::Cancelled => limit.tell(&Told::Cancelled, random),
        Told::Ended => limit.tell(&Told::Ended, random),
    }
}
