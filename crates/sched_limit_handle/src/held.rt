//! What a handle holds: one limit, or two to four at once.
ghost use Rattle.std.specs.Prelude.{◌≡◌, ◌+◌, ◌≤◌, IfOk, IfErr};
ghost use Rattle.sched_limit_handle.specs.Held.{MakesBucket, Makes, IsFlight, IsAdaptive, IsBreaker, IsThrottle};
ghost use Rattle.sched_limit_handle.specs.Held.{SplitsHeld, count, joined, and_one, and_two, and_three};
ghost use Rattle.sched_limit_handle.specs.declared.status.Status.TheVariants as status;

use crate::any_limit::AnyLimit;
use crate::status::Status;
use sched_limit::{Adaptive, Breaker, Bucket, InFlight, Refusal, Throttle, Told};
use sched_limit_request::{Asks, Both, OnLimit, OnThrottle, SplitFault};
use std::alloc::Global;
use std::mem;

/// What a handle holds.
#[derive(Drop)]
pub enum Held {
    /// No limit: each request is admitted, and each draw granted.
    Unlimited,
    /// A limit.
    One(AnyLimit),
    /// Two, which both admit, or neither is charged.
    Two(Two),
    /// Three, and four: likewise.
    Three(Three),
    Four(Four),
}

/// Limits at once, each asked after those before it.
pub(crate) type Two = Both<AnyLimit, AnyLimit>;

pub(crate) type Three = Both<Two, AnyLimit>;

pub(crate) type Four = Both<Three, AnyLimit>;

impl Asks for Held {
    ghost use Rattle.sched_limit_handle.specs.Held.{held_asked};

    ghost asked = { held_asked };

    #[inline(always)]
    fn tell(&mut self, told: &Told, random: u32) -> Result<(), Refusal> {
        match self {
            Held::Unlimited => Ok(()),
            Held::One(limit) => limit.tell(told, random),
            Held::Two(all) => all.tell(told, random),
            Held::Three(all) => all.tell(told, random),
            Held::Four(all) => all.tell(told, random),
        }
    }

    fn split(&mut self) -> Result<Held, SplitFault> {
        match self {
            Held::Unlimited => Ok(Held::Unlimited),
            Held::One(limit) => Ok(Held::One(limit.split()?)),
            Held::Two(all) => Ok(Held::Two(all.split()?)),
            Held::Three(all) => Ok(Held::Three(all.split()?)),
            Held::Four(all) => Ok(Held::Four(all.split()?)),
        }
    }
}

impl Held {
    /// A bucket. `OutOfRange` where there is no such bucket.
    pub fn bucket(alloc: Global, terms: Bucket) -> Result<Box<Held>, Status>
        ensures { MakesBucket terms result }
    {
        if !terms.is_sound() {
            return Err(Status::OutOfRange);
        }
        match OnLimit::new(alloc, terms) {
            Ok(limit) => Held::One(AnyLimit::Bucket(limit)).boxed(alloc),
            Err(_) => Err(Status::NoMemory),
        }
    }

    /// A bound on what is in flight.
    pub fn in_flight(alloc: Global, terms: InFlight) -> Result<Box<Held>, Status>
        ensures { Makes (IsFlight terms) result }
    {
        match OnLimit::new(alloc, terms) {
            Ok(limit) => Held::One(AnyLimit::InFlight(limit)).boxed(alloc),
            Err(_) => Err(Status::NoMemory),
        }
    }

    /// An adaptive limit.
    pub fn adaptive(alloc: Global, terms: Adaptive) -> Result<Box<Held>, Status>
        ensures { Makes (IsAdaptive terms) result }
    {
        match OnLimit::new(alloc, terms) {
            Ok(limit) => Held::One(AnyLimit::Adaptive(limit)).boxed(alloc),
            Err(_) => Err(Status::NoMemory),
        }
    }

    /// A breaker.
    pub fn breaker(alloc: Global, terms: Breaker) -> Result<Box<Held>, Status>
        ensures { Makes (IsBreaker terms) result }
    {
        match OnLimit::new(alloc, terms) {
            Ok(limit) => Held::One(AnyLimit::Breaker(limit)).boxed(alloc),
            Err(_) => Err(Status::NoMemory),
        }
    }

    /// A throttle.
    pub fn throttle(alloc: Global, terms: Throttle) -> Result<Box<Held>, Status>
        ensures { Makes (IsThrottle terms) result }
    {
        match OnThrottle::new(alloc, terms) {
            Ok(limit) => Held::One(AnyLimit::Throttle(limit)).boxed(alloc),
            Err(_) => Err(Status::NoMemory),
        }
    }

    /// The same limits for another thread's requests, in a block of its own.
    pub fn parted(&mut self, alloc: Global) -> Result<Box<Held>, Status>
        ensures { SplitsHeld self.old result self.new }
    {
        match self.split() {
            Ok(part) => part.boxed(alloc),
            Err(SplitFault::NoMemory) => Err(Status::NoMemory),
            Err(SplitFault::TooManyPasses) => Err(Status::TooManyPasses),
        }
    }

    /// How many limits it is.
    pub fn count(&self) -> u64
        ensures { result ≡ count self.now }
    {
        match self {
            Held::Unlimited => 0,
            Held::One(_) => 1,
            Held::Two(_) => 2,
            Held::Three(_) => 3,
            Held::Four(_) => 4,
        }
    }

    /// Joins other limits into these, which are asked first: from now on all admit, or none is charged.
    pub fn join(&mut self, others: Held)
        requires { count self.old + count others ≤ 4 }
        ensures { self.new ≡ joined self.old others }
    {
        let these = mem::replace(self, Held::Unlimited);
        drop(mem::replace(self, these.joined(others)));
    }

    /// These limits and others, at most four.
    fn joined(self, others: Held) -> Held
        requires { count self + count others ≤ 4 }
        ensures { result ≡ joined self others }
    {
        match others {
            Held::Unlimited => self,
            Held::One(last) => self.with(last),
            Held::Two(two) => self.with_two(two),
            Held::Three(three) => self.with_three(three),
            Held::Four(four) => {
                let Both { first, second } = four;
                self.with_three(first).with(second)
            }
        }
    }

    /// These limits and three more.
    fn with_three(self, three: Three) -> Held
        requires { count self ≤ 1 }
        ensures joined { result ≡ and_three self three }
        ensures count { count result ≡ count self + 3 }
    {
        let Both { first, second } = three;
        self.with_two(first).with(second)
    }

    /// These limits and two more.
    fn with_two(self, two: Two) -> Held
        requires { count self ≤ 2 }
        ensures joined { result ≡ and_two self two }
        ensures count { count result ≡ count self + 2 }
    {
        let Both { first, second } = two;
        self.with(first).with(second)
    }

    /// These limits and one more, which is asked last.
    fn with(self, last: AnyLimit) -> Held
        requires { count self ≤ 3 }
        ensures joined { result ≡ and_one self last }
        ensures count { count result ≡ count self + 1 }
    {
        match self {
            Held::Unlimited => Held::One(last),
            Held::One(first) => Held::Two(Both {
                first,
                second: last,
            }),
            Held::Two(first) => Held::Three(Both {
                first,
                second: last,
            }),
            Held::Three(first) => Held::Four(Both {
                first,
                second: last,
            }),
            Held::Four(_) => unreachable!(),
        }
    }

    /// The same in a block of its own.
    fn boxed(self, alloc: Global) -> Result<Box<Held>, Status>
        ensures ok { IfOk result (λ b. b.value ≡ self) }
        ensures err { IfErr result (λ s. s ≡ status.NoMemory) }
    {
        match Box::new(alloc, self) {
            Ok(held) => Ok(held),
            Err(_) => Err(Status::NoMemory),
        }
    }
}
