ghost use Rattle.sched_plan.specs.Schedule.{one};
ghost use Rattle.sched_plan.specs.Plan.{Builds};

use super::{in_range, length_in_range};
use crate::nodes::One;
use crate::plans::{Plan, PlanFault};
use std::alloc::Global;

impl Plan {
    /// The plan, but done once `length` milliseconds have passed since the first event.
    /// Refused as `OutOfRange` past `FAR`, `TooDeep`, `TooMany` or `NoMemory`.
    pub fn within(alloc: Global, length: u64, plan: Plan) -> Result<Plan, PlanFault>
        ensures { Builds result (one (One.Within length) plan) }
    {
        let length = in_range(length)?;
        Plan::over_one(alloc, One::Within(length), plan)
    }

    /// The plan, but done where it would go on later than `length` milliseconds after the first event.
    /// Refused as `OutOfRange` past `FAR`, `TooDeep`, `TooMany` or `NoMemory`.
    pub fn ends_by(alloc: Global, length: u64, plan: Plan) -> Result<Plan, PlanFault>
        ensures { Builds result (one (One.EndsBy length) plan) }
    {
        let length = in_range(length)?;
        Plan::over_one(alloc, One::EndsBy(length), plan)
    }

    /// The plan, begun anew at the first event at which `length` milliseconds have passed since it last began.
    /// Refused as `OutOfRange` at 0 and past `FAR`, `TooDeep`, `TooMany` or `NoMemory`.
    pub fn renew(alloc: Global, length: u64, plan: Plan) -> Result<Plan, PlanFault>
        ensures { Builds result (one (One.Renew length) plan) }
    {
        let length = length_in_range(length)?;
        Plan::over_one(alloc, One::Renew(length), plan)
    }

    /// The plan, begun anew at each event that comes at least `length` milliseconds after the event before it.
    /// Refused as `OutOfRange` at 0 and past `FAR`, `TooDeep`, `TooMany` or `NoMemory`.
    pub fn renew_idle(alloc: Global, length: u64, plan: Plan) -> Result<Plan, PlanFault>
        ensures { Builds result (one (One.RenewIdle length) plan) }
    {
        let length = length_in_range(length)?;
        Plan::over_one(alloc, One::RenewIdle(length), plan)
    }
}
