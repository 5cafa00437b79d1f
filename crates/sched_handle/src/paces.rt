//! Calls on paces.
ghost use Rattle.std.specs.Prelude.{◌≡◌};
ghost use Rattle.sched_handle.specs.Paces.{MakesPace, OnPaces, TakesPace, GivesPace, SeesPace, SplitsPace};

use crate::held::Held;
use crate::status::Status;
use sched_pace::{OnPace, Pace, SplitFault, TakeFault};
use sched_time::Moment;
use std::alloc::Global;

impl Held {
    /// A new pace, and its first pass.
    pub fn pace(alloc: Global, pace: Pace) -> Result<Box<Held>, Status>
        ensures { MakesPace pace result }
    {
        match OnPace::new(alloc, pace) {
            Ok(pass) => Held::Pace(pass).boxed(alloc),
            Err(_) => Err(Status::NoMemory),
        }
    }

    /// Takes a call of this cost at this moment.
    #[inline(always)]
    pub fn pace_take(&mut self, now: Moment, cost: u64) -> Result<Result<Moment, TakeFault>, Status>
        ensures { OnPaces (TakesPace now cost) self.old result self.new }
    {
        if let Held::Pace(pass) = self {
            Ok(pass.take(now, cost))
        } else {
            Err(Status::WrongKind)
        }
    }

    /// Gives the last take back, and answers whether it has come back.
    #[inline(always)]
    pub fn pace_give_back(&mut self) -> Result<bool, Status>
        ensures { OnPaces GivesPace self.old result self.new }
    {
        if let Held::Pace(pass) = self {
            Ok(pass.give_back())
        } else {
            Err(Status::WrongKind)
        }
    }

    /// When a call of cost 1 would begin that asks at this moment.
    #[inline(always)]
    pub fn pace_seen(&mut self, now: Moment) -> Result<u64, Status>
        ensures { OnPaces (SeesPace now) self.old result self.new }
    {
        if let Held::Pace(pass) = self {
            Ok(pass.seen(now).get())
        } else {
            Err(Status::WrongKind)
        }
    }

    /// A pass of the same pace, for which there is no memory wanted once it is split.
    pub fn pace_split(&mut self, alloc: Global) -> Result<Box<Held>, Status>
        ensures { OnPaces SplitsPace self.old result self.new }
    {
        if let Held::Pace(pass) = self {
            split_off(alloc, pass)
        } else {
            Err(Status::WrongKind)
        }
    }
}

// A pass that is split off this one, in a block of its own.
fn split_off(alloc: Global, pass: &mut OnPace) -> Result<Box<Held>, Status>
    ensures { SplitsPace pass.old result pass.new }
{
    let room = Held::Room.boxed(alloc)?;
    match pass.split() {
        Ok(part) => Ok(Held::Pace(part).within(room)),
        Err(SplitFault::NoMemory) => Err(Status::NoMemory),
        Err(SplitFault::TooManyPasses) => Err(Status::TooManyPasses),
    }
}
