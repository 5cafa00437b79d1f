ghost use Rattle.sched_plan.specs.Schedule.{one};
ghost use Rattle.sched_plan.specs.Plan.{Builds};

use super::in_range;
use crate::nodes::{Fold, One, Side, Test};
use crate::plans::{Plan, PlanFault};
use std::alloc::Global;

impl Plan {
    /// The plan, but done at each event at which the test of the input or of the output against `bound` has another
    /// result than `want`; the test fails where the value is no number.
    /// Refused as `OutOfRange` at a bound past `FAR`, `TooDeep`, `TooMany` or `NoMemory`.
    pub fn gate(
        alloc: Global,
        side: Side,
        want: bool,
        test: Test,
        bound: u64,
        plan: Plan,
    ) -> Result<Plan, PlanFault>
        ensures { Builds result (one (One.Gate side want test bound) plan) }
    {
        let bound = in_range(bound)?;
        let node = One::Gate {
            side,
            want,
            test,
            bound,
        };
        Plan::over_one(alloc, node, plan)
    }

    /// The plan's decisions; the output is what is made of its outputs at the earlier events at which it went on.
    /// Refused as `TooDeep`, `TooMany` or `NoMemory`.
    pub fn gather(alloc: Global, fold: Fold, plan: Plan) -> Result<Plan, PlanFault>
        ensures { Builds result (one (One.Gather fold) plan) }
    {
        Plan::over_one(alloc, One::Gather(fold), plan)
    }

    /// The plan's decisions, with the first part of its output; nothing where that is no pair.
    /// Refused as `TooDeep`, `TooMany` or `NoMemory`.
    pub fn first(alloc: Global, plan: Plan) -> Result<Plan, PlanFault>
        ensures { Builds result (one One.First plan) }
    {
        Plan::over_one(alloc, One::First, plan)
    }

    /// The plan's decisions, with the second part of its output; nothing where that is no pair.
    /// Refused as `TooDeep`, `TooMany` or `NoMemory`.
    pub fn second(alloc: Global, plan: Plan) -> Result<Plan, PlanFault>
        ensures { Builds result (one One.Second plan) }
    {
        Plan::over_one(alloc, One::Second, plan)
    }

    /// The plan's decisions, with nothing as output.
    /// Refused as `TooDeep`, `TooMany` or `NoMemory`.
    pub fn nothing(alloc: Global, plan: Plan) -> Result<Plan, PlanFault>
        ensures { Builds result (one One.Nothing plan) }
    {
        Plan::over_one(alloc, One::Nothing, plan)
    }
}
