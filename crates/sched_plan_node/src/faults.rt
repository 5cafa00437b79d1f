ghost use Rattle.std.specs.Prelude.{◌≡◌};
ghost use Rattle.sched_plan.specs.Schedule.{Schedule};
ghost use Rattle.sched_plan.specs.Plan.{built_plan, Builds};
ghost use Rattle.sched_plan_node.specs.Given.{of_builder, Gives};

use sched_plan::{Plan, PlanFault};
use thiserror::Error;

/// Why a node was not made.
#[derive(Clone, Copy, Debug, PartialEq, Eq, Error)]
pub enum NodeFault {
    /// No node has this name, so many numbers and so many plans.
    #[error("no node has this name, so many numbers and so many plans")]
    NotANode,
    /// The builder of the node refused it.
    #[error(transparent)]
    Plan(PlanFault),
}

/// What a leaf's builder answered.
pub(crate) fn of_leaf(answer: Result<Plan, PlanFault>) -> Result<Plan, NodeFault>
    ensures { result ≡ of_builder answer }
{
    answer.map_err(NodeFault::Plan)
}

/// What a builder over other plans answered.
pub(crate) fn of_node(answer: Result<Plan, PlanFault>) -> Result<Plan, NodeFault>
    ensures { (s : Schedule) → Builds answer s → Gives result (of_builder (built_plan s)) }
{
    answer.map_err(NodeFault::Plan)
}
