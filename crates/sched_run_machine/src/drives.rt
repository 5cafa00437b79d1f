//! Drivers of machines.
ghost use Rattle.std.specs.Prelude.{◌≡◌, false, Option, is_none, option_copied, IfSome, IfOk, IfErr};
ghost use Rattle.sched_plan.specs.Datum.{Datum};
ghost use Rattle.sched_driver.specs.Driven.{Driven, last_output};
ghost use Rattle.sched_task_law.specs.Deadline.{is_past};
ghost use Rattle.sched_task_law.specs.Past.{unstepped, next_start_by};
ghost use Rattle.sched_run_machine.specs.Drives.{Driving, Stepped, Refused};

use sched_driver::{DriveFault, Driver};
use sched_driver_stepper::{StepFault, Stepper};
use sched_plan::Val;
use sched_task::RunFault;
use sched_time::{Millis, Moment, Tick};
use std::alloc::Global;

/// What says when the next run may begin: a plan that is stepped with the code of each run that calls for a step, and a
/// deadline or none.
pub trait Drives: Drop {
    // What contracts see of it.
    ghost driving: { Driving Self };

    /// Its deadline: the moment past which it plans no start, and its machine begins no run but the first. `None` where
    /// it has none.
    fn deadline(&self) -> Option<Moment>
        ensures deadline { result ≡ driving.ends self.now };

    /// The start planned last, or `None` where there was no step or the plan was done.
    fn next_start(&self) -> Option<Moment>
        ensures start { result ≡ driving.starts self.now }
        ensures in_time { IfSome result (λ start. is_past (driving.ends self.now) start ≡ false) };

    /// Steps the plan with a run's code. Answers `None` where the plan is done, and a start where it goes on; what it
    /// waits for is `next_start`. A refused step changes nothing.
    fn step(&mut self, alloc: Global, tick: &Tick, code: Millis) -> Result<Option<Moment>, RunFault>
        ensures stepped { IfOk result (λ start.
            Stepped driving self.old tick.entry.now code (is_none start) self.new) }
        ensures deadline { driving.ends self.new ≡ driving.ends self.old }
        ensures refused { IfErr result (λ fault. Refused driving self.old tick.entry.now fault) }
        ensures unchanged { IfErr result (λ _. self.new ≡ self.old) };

    // What has made no step stands for no step of its plan.
    ghost begins: { (driver : Self) → driving.fresh driver → driving.stands driver (unstepped (driving.plan driver)) };

    // The start planned last is that of its plan by its deadline.
    ghost plans: { (driver : Self) (d : Driven) → driving.stands driver d →
        driving.starts driver ≡ next_start_by (driving.ends driver) d };
}

/// A driver that keeps the output that its plan gave last, with which a retry asks its fallback.
pub trait GivesOutput: Drives {
    // The output that it gave last.
    ghost outputs: { Self → Option Datum };

    /// The output that it gave last, or `None` before the first step.
    fn last(&self) -> Option<&Val>
        ensures { option_copied result ≡ outputs self.now };

    // It is that of its plan, by each journal that it may stand for.
    ghost gives: { (driver : Self) (d : Driven) → Self.driving.stands driver d → outputs driver ≡ last_output d };
}

impl Drives for Driver {
    ghost use mathlib.Core.Path.{ap};
    ghost use Rattle.sched_driver.specs.Driven.{next_start_of};
    ghost use Rattle.sched_run_machine.specs.Drives.{by_driver, unstepped_driver};

    ghost driving = { by_driver };

    ghost begins = { unstepped_driver };

    ghost plans = { λ _ _ same. ap next_start_of same };

    fn deadline(&self) -> Option<Moment> {
        None
    }

    fn next_start(&self) -> Option<Moment> {
        Driver::next_start(self)
    }

    fn step(
        &mut self,
        alloc: Global,
        tick: &Tick,
        code: Millis,
    ) -> Result<Option<Moment>, RunFault> {
        match self.next(alloc, *tick, Val::from(code)) {
            Ok(decision) => Ok(decision.start()),
            Err(DriveFault::Backwards { floor: _ }) => Err(RunFault::Backwards),
            Err(DriveFault::JournalFull) => Err(RunFault::JournalFull),
            Err(DriveFault::NoMemory) => Err(RunFault::NoMemory),
        }
    }
}

impl GivesOutput for Driver {
    ghost use mathlib.Core.Path.{ap};
    ghost use Rattle.sched_driver.specs.Driven.{last_output as output_of};

    ghost outputs = { output_of };

    ghost gives = { λ _ _ same. ap output_of same };

    fn last(&self) -> Option<&Val> {
        Driver::last(self)
    }
}

impl Drives for Stepper {
    ghost use Rattle.std.specs.Prelude.{refl};
    ghost use Rattle.sched_run_machine.specs.Drives.{by_stepper, start_stepped};

    ghost driving = { by_stepper };

    ghost begins = { λ _ fresh. (refl, record { in_order = tt; is = fresh }) };

    ghost plans = { start_stepped };

    fn deadline(&self) -> Option<Moment> {
        None
    }

    fn next_start(&self) -> Option<Moment> {
        Stepper::next_start(self)
    }

    fn step(
        &mut self,
        alloc: Global,
        tick: &Tick,
        code: Millis,
    ) -> Result<Option<Moment>, RunFault> {
        match self.next(alloc, tick, &Val::from(code)) {
            Ok(decision) => Ok(decision.start()),
            Err(StepFault::Backwards { floor: _ }) => Err(RunFault::Backwards),
            Err(StepFault::NoMemory) => Err(RunFault::NoMemory),
        }
    }
}

// Whether this moment is past the deadline, where there is one.
pub(crate) fn is_past(deadline: Option<Moment>, now: Moment) -> bool
    ensures { result ≡ is_past deadline now }
{
    match deadline {
        Some(deadline) => deadline.get() < now.get(),
        None => false,
    }
}
