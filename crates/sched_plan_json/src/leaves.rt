//! The nodes that stand on no other plan.
ghost use Rattle.std.specs.Prelude.{◌≡◌};
ghost use Rattle.serde_json.specs.View.{view};
ghost use Rattle.sched_plan.specs.Schedule.{leaf};
ghost use Rattle.sched_plan.specs.Plan.{built_plan};
ghost use Rattle.sched_plan_json.specs.Forms.{spelt_by};
ghost use Rattle.sched_plan_json.specs.Nodes.{leaf_rows};
ghost use Rattle.sched_plan_json.specs.Node.{IsLeaf, leaf_of};
ghost use Rattle.sched_plan_json.specs.PlanOf.{part_of, parts_of, spelt_by_name};
ghost use Rattle.sched_plan_json.specs.Reading.{Reads, built_leaf};

use crate::faults::{ReadFault, refused};
use crate::forms::{four_numbers, number, three_numbers, two_numbers};
use sched_plan::{Plan, PlanFault};
use serde_json::Value;

/// A leaf as it was read: its numbers may lie outside their ranges.
#[derive(Clone, Copy, Debug, PartialEq, Eq)]
pub enum LeafNode {
    // bin/nodes makes these rows.
    Forever,
    Recurs(u64),
    Spaced(u64),
    Fixed(u64),
    Windowed(u64),
    Linear(u64),
    Exponential {
        base: u64,
        factor: u64,
    },
    ExponentialMilli {
        base: u64,
        thousandths: u64,
    },
    Fibonacci(u64),
    Decorrelated {
        lane: u64,
        base: u64,
        thousandths: u64,
        most: u64,
    },
    Elapsed,
    Identity,
    Unfold {
        seed: u64,
        factor: u64,
        more: u64,
    },
    Lone(u64),
    // end
}

impl LeafNode {
    /// The plan of this leaf alone, or why its builder refuses it.
    #[tactic(auto, using(crate::proofs::Readings::leaf_reads))]
    pub(crate) fn built(self) -> Result<Plan, ReadFault>
        ensures { Reads result (built_leaf (leaf_of self)) }
    {
        refused(self.plan())
    }

    fn plan(self) -> Result<Plan, PlanFault>
        ensures { result ≡ built_plan (leaf (leaf_of self)) }
    {
        match self {
            // bin/nodes makes these rows.
            LeafNode::Forever => Plan::forever(),
            LeafNode::Recurs(count) => Plan::recurs(count),
            LeafNode::Spaced(delay) => Plan::spaced(delay),
            LeafNode::Fixed(length) => Plan::fixed(length),
            LeafNode::Windowed(length) => Plan::windowed(length),
            LeafNode::Linear(delay) => Plan::linear(delay),
            LeafNode::Exponential { base, factor } => Plan::exponential(base, factor),
            LeafNode::ExponentialMilli { base, thousandths } => {
                Plan::exponential_milli(base, thousandths)
            }
            LeafNode::Fibonacci(delay) => Plan::fibonacci(delay),
            LeafNode::Decorrelated {
                lane,
                base,
                thousandths,
                most,
            } => Plan::decorrelated(lane, base, thousandths, most),
            LeafNode::Elapsed => Plan::elapsed(),
            LeafNode::Identity => Plan::identity(),
            LeafNode::Unfold { seed, factor, more } => Plan::unfold(seed, factor, more),
            LeafNode::Lone(delay) => Plan::lone(delay),
            // end
        }
    }
}

/// The leaf that is spelt as this string.
pub(crate) fn read_name(name: &str) -> Result<LeafNode, ReadFault>
    ensures { IsLeaf result (spelt_by_name name.now) }
{
    match name {
        // bin/nodes makes these rows.
        "forever" => Ok(LeafNode::Forever),
        "elapsed" => Ok(LeafNode::Elapsed),
        "identity" => Ok(LeafNode::Identity),
        // end
        _ => Err(ReadFault::NotAPlan),
    }
}

/// The leaf of this name over its value.
pub(crate) fn read_leaf(name: &str, value: &Value) -> Result<LeafNode, ReadFault>
    ensures { IsLeaf result (spelt_by leaf_rows name.now (part_of (view value.now)) (parts_of (view value.now))) }
{
    match name {
        // bin/nodes makes these rows.
        "recurs" => Ok(LeafNode::Recurs(number(value)?)),
        "spaced" => Ok(LeafNode::Spaced(number(value)?)),
        "fixed" => Ok(LeafNode::Fixed(number(value)?)),
        "windowed" => Ok(LeafNode::Windowed(number(value)?)),
        "linear" => Ok(LeafNode::Linear(number(value)?)),
        "exponential" => {
            let (base, factor) = two_numbers(value)?;
            Ok(LeafNode::Exponential { base, factor })
        }
        "exponential_milli" => {
            let (base, thousandths) = two_numbers(value)?;
            Ok(LeafNode::ExponentialMilli { base, thousandths })
        }
        "fibonacci" => Ok(LeafNode::Fibonacci(number(value)?)),
        "decorrelated" => {
            let (lane, base, thousandths, most) = four_numbers(value)?;
            Ok(LeafNode::Decorrelated {
                lane,
                base,
                thousandths,
                most,
            })
        }
        "unfold" => {
            let (seed, factor, more) = three_numbers(value)?;
            Ok(LeafNode::Unfold { seed, factor, more })
        }
        "lone" => Ok(LeafNode::Lone(number(value)?)),
        // end
        _ => Err(ReadFault::NotAPlan),
    }
}
