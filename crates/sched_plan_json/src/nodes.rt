//! Nodes by their own forms, before their plans are read.
ghost use Rattle.sched_plan.specs.Schedule.{one, two};
ghost use Rattle.sched_plan_json.specs.Reading.{Reads, built_node};
ghost use Rattle.sched_plan_json.specs.Node.{one_of};

use crate::faults::{ReadFault, built};
use crate::leaves::LeafNode;
use sched_plan::{Fold, Plan, Side, Test, Two};
use serde_json::Value;
use std::alloc::Global;

/// A node whose own form is right. Its builder is not asked yet, and its plans are not read.
#[derive(Clone, Copy)]
pub enum Node<'a> {
    /// A recurrence of its own.
    Leaf(LeafNode),
    /// A node over the plan that this value spells.
    One(OneNode, &'a Value),
    /// A node over the plans that these values spell.
    Two(Two, &'a Value, &'a Value),
}

/// What a node makes of one plan, as it was read: its numbers may lie outside their ranges.
#[derive(Clone, Copy, Debug, PartialEq, Eq)]
pub enum OneNode {
    // bin/nodes makes these rows.
    Gate {
        side: Side,
        want: bool,
        test: Test,
        bound: u64,
    },
    Gather(Fold),
    Add(u64),
    Set(u64),
    Cap(u64),
    AddOut,
    Jitter {
        lane: u64,
        least: u64,
        most: u64,
    },
    Within(u64),
    EndsBy(u64),
    Renew(u64),
    RenewIdle(u64),
    First,
    Second,
    Nothing,
    // end
}

impl OneNode {
    /// The node over this plan, or why its builder refuses it.
    pub(crate) fn over(self, alloc: Global, plan: Plan) -> Result<Plan, ReadFault>
        ensures { Reads result (built_node (one (one_of self) plan)) }
    {
        match self {
            // bin/nodes makes these rows.
            OneNode::Gate {
                side,
                want,
                test,
                bound,
            } => built(Plan::gate(alloc, side, want, test, bound, plan)),
            OneNode::Gather(fold) => built(Plan::gather(alloc, fold, plan)),
            OneNode::Add(delay) => built(Plan::add(alloc, delay, plan)),
            OneNode::Set(delay) => built(Plan::set(alloc, delay, plan)),
            OneNode::Cap(delay) => built(Plan::cap(alloc, delay, plan)),
            OneNode::AddOut => built(Plan::add_out(alloc, plan)),
            OneNode::Jitter { lane, least, most } => {
                built(Plan::jitter(alloc, lane, least, most, plan))
            }
            OneNode::Within(length) => built(Plan::within(alloc, length, plan)),
            OneNode::EndsBy(length) => built(Plan::ends_by(alloc, length, plan)),
            OneNode::Renew(length) => built(Plan::renew(alloc, length, plan)),
            OneNode::RenewIdle(length) => built(Plan::renew_idle(alloc, length, plan)),
            OneNode::First => built(Plan::first(alloc, plan)),
            OneNode::Second => built(Plan::second(alloc, plan)),
            OneNode::Nothing => built(Plan::nothing(alloc, plan)),
            // end
        }
    }
}

/// The node over both plans, or why its builder refuses it.
pub(crate) fn over_both(
    alloc: Global,
    node: Two,
    first: Plan,
    second: Plan,
) -> Result<Plan, ReadFault>
    ensures { Reads result (built_node (two node first second)) }
{
    match node {
        // bin/nodes makes these rows.
        Two::Meet => built(Plan::meet(alloc, first, second)),
        Two::Join => built(Plan::join(alloc, first, second)),
        Two::Follow => built(Plan::follow(alloc, first, second)),
        Two::Feed => built(Plan::feed(alloc, first, second)),
        // end
    }
}
