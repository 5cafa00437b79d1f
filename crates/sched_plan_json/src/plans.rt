//! Plans.
ghost use Rattle.serde_json.specs.View.{view};
ghost use Rattle.sched_plan_json.specs.Reading.{Reads};
ghost use Rattle.sched_plan_json.specs.PlanOf.{reading_of};

use crate::faults::ReadFault;
use crate::nodes::{Node, over_both};
use crate::spelling::read_node;
use sched_plan::Plan;
use serde_json::Value;
use std::alloc::Global;

/// The plan that a JSON value spells, or the first fault found: of each node first its own form is looked at, then its
/// plans from left to right, then what its builder refuses. Only a node over other plans asks for memory.
#[tactic(auto, using(crate::proofs::Readings::leaf_read, crate::proofs::Readings::lacking_read, crate::proofs::Readings::one_read, crate::proofs::Readings::two_read))]
pub fn read_plan(alloc: Global, value: &Value) -> Result<Plan, ReadFault>
    ensures { Reads result (reading_of (view value.now)) }
{
    match read_node(value)? {
        Node::Leaf(leaf) => leaf.built(),
        Node::One(node, plan) => node.over(alloc, read_plan(alloc, plan)?),
        Node::Two(node, first, second) => {
            let first = read_plan(alloc, first)?;
            let second = read_plan(alloc, second)?;
            over_both(alloc, node, first, second)
        }
    }
}
