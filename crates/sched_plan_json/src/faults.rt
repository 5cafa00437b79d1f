ghost use Rattle.sched_plan.specs.Schedule.{Schedule};
ghost use Rattle.sched_plan.specs.Plan.{Builds};
ghost use Rattle.std.specs.Prelude.{◌≡◌};
ghost use Rattle.sched_plan_json.specs.Reading.{Reads, built_node, of_builder};

use sched_plan::{Plan, PlanFault};
use thiserror::Error;

/// Why a JSON value is not read as a plan.
#[derive(Clone, Copy, Debug, PartialEq, Eq, Error)]
pub enum ReadFault {
    /// The value, or a part of it that should be a plan, has not the form of a node.
    #[error("the value is not a plan")]
    NotAPlan,
    /// The builder of a node refused it.
    #[error(transparent)]
    Plan(PlanFault),
}

impl From<PlanFault> for ReadFault {
    ghost use Rattle.std.specs.Prelude.{◌≡◌};
    ghost use Rattle.sched_plan_json.specs.declared.faults.ReadFault.TheVariants.{Plan as Refused};

    ghost from_gives = { λ fault r. r ≡ Refused fault };

    fn from(fault: PlanFault) -> Self {
        ReadFault::Plan(fault)
    }
}

/// What a builder over other plans answered.
pub(crate) fn built(answer: Result<Plan, PlanFault>) -> Result<Plan, ReadFault>
    ensures { (s : Schedule) → Builds answer s → Reads result (built_node s) }
{
    answer.map_err(ReadFault::Plan)
}

/// What a leaf's builder answered.
pub(crate) fn refused(answer: Result<Plan, PlanFault>) -> Result<Plan, ReadFault>
    ensures { result ≡ of_builder answer }
{
    answer.map_err(ReadFault::Plan)
}
