ghost use Rattle.std.specs.Prelude.{◌≡◌, [], IfOk, IfSome};
ghost use Rattle.sched_driver_stepper.specs.Standing.{standing_after};

use crate::kept::Kept;
use crate::steppers::Stepper;
use sched_plan::{Plan, SharedPlan};
use sched_step_flat::{Record, has_record};
use sched_time::NoMemory;
use std::alloc::Global;
use std::marker::Model;
use std::sync::Arc;

/// A plan that any number of steppers go by, with what each of them begins with: that is worked out once.
#[derive(Drop)]
pub struct Compiled {
    plan: SharedPlan,
    /// The record before the first event, where the plan has one.
    start: Option<Arc<Record>>,
}

impl Model for Compiled {
    ghost use Rattle.sched_plan.specs.Schedule.{Schedule};
    ghost use Rattle.sched_plan.specs.ScheduleCode.{coded_schedule};
    ghost use Rattle.std.specs.Prelude.{option_map};
    ghost use Rattle.std.specs.Arc.{arc_value};
    ghost use Rattle.sched_driver_stepper.specs.Kept.{IsStart};

    ghost Value = { Schedule };

    ghost coded = { coded_schedule };

    ghost view = { λ c. c.plan };

    ghost invariant = { λ c. IsStart c.plan (option_map arc_value c.start) };
}

impl Compiled {
    /// The plan, with its first owner. Fails only with `NoMemory`; the plan is then dropped.
    pub fn new(alloc: Global, plan: Plan) -> Result<Compiled, NoMemory>
        ensures { IfOk result (λ compiled. compiled ≡ plan) }
    {
        Compiled::of_shared(alloc, SharedPlan::new(alloc, plan)?)
    }

    /// The same of a plan that others hold too. Where it fails, this share of the plan is dropped.
    pub fn of_shared(alloc: Global, plan: SharedPlan) -> Result<Compiled, NoMemory>
        ensures { IfOk result (λ compiled. compiled ≡ plan) }
    {
        let start = if has_record(plan.get()) {
            Some(Arc::new(alloc, Record::new(alloc, plan.get())?)?)
        } else {
            None
        };
        Ok(Compiled { plan, start })
    }

    /// The same plan for one more owner. It takes no memory, and fails with `NoMemory` only where 2^63 own it.
    pub fn again(&self) -> Result<Compiled, NoMemory>
        ensures { IfOk result (λ compiled. compiled ≡ self.now) }
    {
        let plan = self.plan.share()?;
        let start = match &self.start {
            Some(start) => Some(Arc::try_clone(start)?),
            None => None,
        };
        Ok(Compiled { plan, start })
    }

    /// The plan.
    pub fn get(&self) -> &Plan
        ensures { result.now ≡ self.now }
    {
        self.plan.get()
    }

    /// The plan, with one more owner.
    pub fn share(&self) -> Result<SharedPlan, NoMemory>
        ensures { IfOk result (λ shared. shared ≡ self.now) }
    {
        self.plan.share()
    }

    /// A stepper of the plan before its first event. It takes memory only for a record of more than 8 words, and for a
    /// plan that has none.
    pub fn stepper(&self, alloc: Global) -> Result<Stepper, NoMemory>
        ensures { IfOk result (λ stepper. stepper ≡ standing_after self.now []) }
    {
        let plan = self.plan.share()?;
        match &self.start {
            Some(start) => {
                let record = start.copied()?;
                let first = Arc::try_clone(start)?;
                Ok(Stepper::unstepped(plan, Kept::Flat(record, Some(first))))
            }
            None => Stepper::of_shared(alloc, plan),
        }
    }

    /// The same where the plan has a record. `None` where it has none, and where there is no memory.
    #[inline(always)]
    pub fn stepper_by_record(&self) -> Option<Stepper>
        ensures { IfSome result (λ stepper. stepper ≡ standing_after self.now []) }
    {
        let Some(start) = &self.start else {
            return None;
        };
        let Ok(record) = start.copied() else {
            return None;
        };
        let Ok(plan) = self.plan.share() else {
            return None;
        };
        let Ok(first) = Arc::try_clone(start) else {
            return None;
        };
        Some(Stepper::unstepped(plan, Kept::Flat(record, Some(first))))
    }
}
