ghost use Rattle.std.specs.Prelude.{◌≡◌, option_copied, IfOk, IfErr};
ghost use Rattle.sched_plan_node.specs.Given.{IsNode};

use crate::faults::NodeFault;
use crate::leaves::leaf;
use crate::numbers::Numbers;
use crate::over::{over_both, over_one};
use sched_plan::{Plan, PlanFault};
use std::alloc::Global;

/// The node of this name with these numbers, on no plan, on `first` or on both, which are copied. Refused as `NotANode`
/// where no node has this name, so many numbers and so many plans, else as the node's builder refuses it; as `NoMemory`
/// only where there are plans.
#[tactic(auto, using(crate::proofs::Answered::leaf_answered, crate::proofs::Answered::gives_node))]
pub fn node(
    alloc: Global,
    name: &str,
    numbers: &[u64],
    first: Option<&Plan>,
    second: Option<&Plan>,
) -> Result<Plan, NodeFault>
    ensures { IsNode name.now numbers.now (option_copied first.entry) (option_copied second.entry) result }
{
    let numbers = Numbers::of(numbers);
    match (first, second) {
        (None, None) => leaf(name, numbers),
        (Some(plan), None) => over_one(alloc, name, numbers, copied(alloc, plan)?),
        (Some(first), Some(second)) => {
            let first = copied(alloc, first)?;
            let second = copied(alloc, second)?;
            over_both(alloc, name, numbers, first, second)
        }
        (None, Some(_)) => Err(NodeFault::NotANode),
    }
}

// An equal plan.
fn copied(alloc: Global, plan: &Plan) -> Result<Plan, NodeFault>
    ensures ok { IfOk result (λ copy. copy ≡ plan.now) }
    ensures err { IfErr result (λ fault. fault ≡ NodeFault.Plan PlanFault.NoMemory) }
{
    plan.copy(alloc)
        .map_err(|_| NodeFault::Plan(PlanFault::NoMemory))
}
