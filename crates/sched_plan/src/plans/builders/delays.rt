ghost use Rattle.sched_plan.specs.Schedule.{one};
ghost use Rattle.sched_plan.specs.Plan.{Builds};

use super::{LAST_LANE, in_range};
use crate::nodes::One;
use crate::plans::{Plan, PlanFault};
use std::alloc::Global;

/// The greatest ratio of `Plan::jitter`, in thousandths.
const MAX_RATIO: u64 = 10_000;

impl Plan {
    /// The plan with each delay made `delay` milliseconds longer.
    /// Refused as `OutOfRange` past `FAR`, `TooDeep`, `TooMany` or `NoMemory`.
    pub fn add(alloc: Global, delay: u64, plan: Plan) -> Result<Plan, PlanFault>
        ensures { Builds result (one (One.Add delay) plan) }
    {
        let delay = in_range(delay)?;
        Plan::over_one(alloc, One::Add(delay), plan)
    }

    /// The plan with a delay of `delay` milliseconds instead of each of its own.
    /// Refused as `OutOfRange` past `FAR`, `TooDeep`, `TooMany` or `NoMemory`.
    pub fn set(alloc: Global, delay: u64, plan: Plan) -> Result<Plan, PlanFault>
        ensures { Builds result (one (One.Set delay) plan) }
    {
        let delay = in_range(delay)?;
        Plan::over_one(alloc, One::Set(delay), plan)
    }

    /// The plan with no delay longer than `delay` milliseconds.
    /// Refused as `OutOfRange` past `FAR`, `TooDeep`, `TooMany` or `NoMemory`.
    pub fn cap(alloc: Global, delay: u64, plan: Plan) -> Result<Plan, PlanFault>
        ensures { Builds result (one (One.Cap delay) plan) }
    {
        let delay = in_range(delay)?;
        Plan::over_one(alloc, One::Cap(delay), plan)
    }

    /// The plan with each delay made longer by its output, in milliseconds, where that is a number.
    /// Refused as `TooDeep`, `TooMany` or `NoMemory`.
    pub fn add_out(alloc: Global, plan: Plan) -> Result<Plan, PlanFault>
        ensures { Builds result (one One.AddOut plan) }
    {
        Plan::over_one(alloc, One::AddOut, plan)
    }

    /// The plan with each delay times a ratio, rounded down, which the random word of the lane picks between `least`
    /// and `most` thousandths. Refused as `OutOfRange` at a lane past 3, at a least ratio above the most and at a most
    /// ratio past 10,000, `TooDeep`, `TooMany` or `NoMemory`.
    pub fn jitter(
        alloc: Global,
        lane: u64,
        least: u64,
        most: u64,
        plan: Plan,
    ) -> Result<Plan, PlanFault>
        ensures { Builds result (one (One.Jitter lane least most) plan) }
    {
        if lane > LAST_LANE || least > most || most > MAX_RATIO {
            return Err(PlanFault::OutOfRange);
        }
        let lane = lane as usize;
        Plan::over_one(alloc, One::Jitter { lane, least, most }, plan)
    }
}
