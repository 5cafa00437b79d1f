ghost use Rattle.sched_plan.specs.Schedule.{two};
ghost use Rattle.sched_plan.specs.Plan.{Builds};

use crate::nodes::Two;
use crate::plans::{Plan, PlanFault};
use std::alloc::Global;

impl Plan {
    /// Goes on while both plans do, at the later start, and gives the pair of their outputs.
    /// Refused as `TooDeep`, `TooMany` or `NoMemory`.
    pub fn meet(alloc: Global, first: Plan, second: Plan) -> Result<Plan, PlanFault>
        ensures { Builds result (two Two.Meet first second) }
    {
        Plan::over_two(alloc, Two::Meet, first, second)
    }

    /// Goes on while one of the plans does, at the earlier start where both do, and gives the pair of their outputs.
    /// A plan that is done is stepped all the same. Refused as `TooDeep`, `TooMany` or `NoMemory`.
    pub fn join(alloc: Global, first: Plan, second: Plan) -> Result<Plan, PlanFault>
        ensures { Builds result (two Two.Join first second) }
    {
        Plan::over_two(alloc, Two::Join, first, second)
    }

    /// The first plan until it is done; the event at which it is done and all later ones go to the second.
    /// Refused as `TooDeep`, `TooMany` or `NoMemory`.
    pub fn follow(alloc: Global, first: Plan, second: Plan) -> Result<Plan, PlanFault>
        ensures { Builds result (two Two.Follow first second) }
    {
        Plan::over_two(alloc, Two::Follow, first, second)
    }

    /// The second plan, whose inputs are the first one's outputs; goes on while both do, at the later start.
    /// Refused as `TooDeep`, `TooMany` or `NoMemory`.
    pub fn feed(alloc: Global, first: Plan, second: Plan) -> Result<Plan, PlanFault>
        ensures { Builds result (two Two.Feed first second) }
    {
        Plan::over_two(alloc, Two::Feed, first, second)
    }
}
