//! Calls on limits.
ghost use Rattle.std.specs.Prelude.{◌≡◌, IfOk, IfErr};
ghost use Rattle.sched_limit.specs.declared.request.Told.TheVariants as told_as;
ghost use Rattle.sched_limit_request.specs.Asks.{Hears};
ghost use Rattle.sched_limit_handle.specs.Held.{HeldTells, SplitsHeld, held_asked};
ghost use Rattle.sched_handle.specs.Held.{IsOther};
ghost use Rattle.sched_handle.specs.Limits.{OnLimits, CountsLimits, AreFew, JoinsLimits};
ghost use Rattle.sched_handle.specs.declared.held.Held.TheVariants as what;
ghost use Rattle.sched_handle.specs.declared.held.Kind.TheVariants as kind;
ghost use Rattle.sched_handle.specs.declared.status.Status.TheVariants as status;

use crate::held::Held;
use crate::status::Status;
use sched_limit::Refusal;
use sched_limit_handle::{Held as Limits, Status as Reason};
use sched_limit_request::Asks;
use sched_time::Moment;
use std::alloc::Global;

impl Held {
    /// What a handle holds of these limits.
    pub fn of_limits(alloc: Global, limits: Box<Limits>) -> Result<Box<Held>, Status>
        ensures ok { IfOk result (λ b. b.value ≡ what.Limits limits) }
        ensures err { IfErr result (λ s. s ≡ status.NoMemory) }
    {
        Held::Limits(limits).boxed(alloc)
    }

    /// Asks the limits whether they admit a request.
    pub fn limits_admit(&mut self, now: Moment, random: u32) -> Result<Result<(), Refusal>, Status>
        ensures { OnLimits (λ u r v. HeldTells u (told_as.Admit now) random r v) self.old result self.new }
    {
        if let Held::Limits(limits) = self {
            Ok(limits.admit(now, random))
        } else {
            Err(Status::WrongKind)
        }
    }

    /// Asks the limits for a retry at this cost.
    pub fn limits_draw(
        &mut self,
        now: Moment,
        cost: u64,
        random: u32,
    ) -> Result<Result<(), Refusal>, Status>
        ensures { OnLimits (λ u r v. HeldTells u (told_as.Draw now cost) random r v) self.old result self.new }
    {
        if let Held::Limits(limits) = self {
            Ok(limits.draw(now, cost, random))
        } else {
            Err(Status::WrongKind)
        }
    }

    /// Tells the limits of a run that failed.
    pub fn limits_failed(&mut self, now: Moment) -> Result<(), Status>
        ensures { OnLimits (λ u _ v. Hears held_asked (told_as.Failed now) u v) self.old result self.new }
    {
        if let Held::Limits(limits) = self {
            limits.failed(now);
            Ok(())
        } else {
            Err(Status::WrongKind)
        }
    }

    /// Tells the limits of a run that succeeded.
    pub fn limits_succeeded(&mut self, now: Moment) -> Result<(), Status>
        ensures { OnLimits (λ u _ v. Hears held_asked (told_as.Succeeded now) u v) self.old result self.new }
    {
        if let Held::Limits(limits) = self {
            limits.succeeded(now);
            Ok(())
        } else {
            Err(Status::WrongKind)
        }
    }

    /// Tells the limits that no run came of what they granted last.
    pub fn limits_cancelled(&mut self) -> Result<(), Status>
        ensures { OnLimits (λ u _ v. Hears held_asked told_as.Cancelled u v) self.old result self.new }
    {
        if let Held::Limits(limits) = self {
            limits.cancelled();
            Ok(())
        } else {
            Err(Status::WrongKind)
        }
    }

    /// Tells the limits that the request is over.
    pub fn limits_ended(&mut self) -> Result<(), Status>
        ensures { OnLimits (λ u _ v. Hears held_asked told_as.Ended u v) self.old result self.new }
    {
        if let Held::Limits(limits) = self {
            limits.ended();
            Ok(())
        } else {
            Err(Status::WrongKind)
        }
    }

    /// The same limits for another thread's requests.
    pub fn limits_split(&mut self, alloc: Global) -> Result<Result<Box<Limits>, Reason>, Status>
        ensures { OnLimits SplitsHeld self.old result self.new }
    {
        if let Held::Limits(limits) = self {
            Ok(limits.parted(alloc))
        } else {
            Err(Status::WrongKind)
        }
    }

    /// How many limits they are.
    pub fn limits_count(&self) -> Result<u64, Status>
        ensures ok { IfOk result (λ n. CountsLimits self.now n) }
        ensures err { IfErr result (IsOther kind.Limits self.now) }
    {
        if let Held::Limits(limits) = self {
            Ok(limits.count())
        } else {
            Err(Status::WrongKind)
        }
    }

    /// Joins other limits into these, which are asked first.
    pub fn limits_join(&mut self, others: Box<Held>)
        requires { AreFew self.old others.value }
        ensures { JoinsLimits self.old others.value self.new }
    {
        if let Held::Limits(limits) = self {
            if let Held::Limits(others) = Box::into_inner(others) {
                limits.join(Box::into_inner(others));
            }
        }
    }
}
