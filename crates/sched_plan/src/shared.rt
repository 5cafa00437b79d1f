ghost use Rattle.std.specs.Prelude.{◌≡◌, IfOk};

use crate::plans::Plan;
use sched_time::NoMemory;
use std::alloc::Global;
use std::marker::Model;
use std::sync::Arc;

/// A plan that any number of owners hold, in any threads, with no copy of it. The last one that goes frees it.
#[derive(Drop)]
pub struct SharedPlan {
    plan: Arc<Plan, Global>,
}

impl Model for SharedPlan {
    ghost use Rattle.std.specs.Arc.{arc_value};
    ghost use Rattle.sched_plan.specs.Schedule.{Schedule};
    ghost use Rattle.sched_plan.specs.ScheduleCode.{coded_schedule};

    ghost Value = { Schedule };

    ghost coded = { coded_schedule };

    ghost view = { λ s. arc_value s.plan };
}

impl SharedPlan {
    /// The plan, with its first owner. Fails only with `NoMemory`; the plan is then dropped.
    pub fn new(alloc: Global, plan: Plan) -> Result<SharedPlan, NoMemory>
        ensures { IfOk result (λ shared. shared ≡ plan) }
    {
        let plan = Arc::new(alloc, plan)?;
        Ok(SharedPlan { plan })
    }

    /// One more owner of the same plan. It takes no memory, and fails with `NoMemory` only where 2^63 own it.
    pub fn share(&self) -> Result<SharedPlan, NoMemory>
        ensures { IfOk result (λ shared. shared ≡ self.now) }
    {
        let plan = Arc::try_clone(&self.plan)?;
        Ok(SharedPlan { plan })
    }

    /// The plan.
    pub fn get(&self) -> &Plan
        ensures { result.now ≡ self.now }
    {
        &self.plan
    }
}
