//! Nodes by their names.
ghost use Rattle.std.specs.Prelude.{◌+◌, IfOk};
ghost use Rattle.serde_json.specs.Data.{depth, members_depth};
ghost use Rattle.serde_json.specs.View.{view, members_view};
ghost use Rattle.sched_plan_json.specs.Forms.{spelt_by};
ghost use Rattle.sched_plan_json.specs.Nodes.{leaf_rows, from_pairs, from_delays, from_outputs, from_rounds};
ghost use Rattle.sched_plan_json.specs.Node.{IsNode, NestsBelow};
ghost use Rattle.sched_plan_json.specs.PlanOf.{part_of, parts_of, spelt_of, spelt_of_members};

use crate::faults::ReadFault;
use crate::forms::{gate_and_plan, gather_and_plan, jitter_and_plan, number_and_plan, two_plans};
use crate::leaves::{read_leaf, read_name};
use crate::nodes::{Node, OneNode};
use sched_plan::Two;
use serde_json::{Map, Value};

/// The node that a JSON value spells by its own form. Its plans, which are parts of the value, are not looked at.
///
/// Refused as `NotAPlan` where the value has not the form of a node.
pub fn read_node(value: &Value) -> Result<Node<'_>, ReadFault>
    ensures node { IsNode result (spelt_of (view value.now)) }
    ensures nested { IfOk result (λ node. NestsBelow node (depth (view value.now))) }
{
    match value {
        Value::String(name) => Ok(Node::Leaf(read_name(name.as_str())?)),
        Value::Object(members) => read_member(members),
        _ => Err(ReadFault::NotAPlan),
    }
}

// The node that is spelt as the one member of an object.
fn read_member(members: &Map<String, Value>) -> Result<Node<'_>, ReadFault>
    ensures node { IsNode result (spelt_of_members (members_view members.now.entries)) }
    ensures nested { IfOk result (λ node. NestsBelow node (members_depth (members_view members.now.entries) + 1)) }
{
    let mut members = members.iter();
    match (members.next(), members.next()) {
        (Some((name, value)), None) => read_pair(name.as_str(), value),
        _ => Err(ReadFault::NotAPlan),
    }
}

// The node of this name over its value: one over two plans, or another.
fn read_pair<'a>(name: &str, value: &'a Value) -> Result<Node<'a>, ReadFault>
    ensures node { IsNode result
        (spelt_by from_pairs name.now (part_of (view value.now)) (parts_of (view value.now))) }
    ensures nested { IfOk result (λ node. NestsBelow node (depth (view value.now) + 1)) }
{
    let node = match name {
        // bin/nodes makes these rows.
        "meet" => Two::Meet,
        "join" => Two::Join,
        "follow" => Two::Follow,
        "feed" => Two::Feed,
        // end
        _ => return read_delay(name, value),
    };
    let (first, second) = two_plans(value)?;
    Ok(Node::Two(node, first, second))
}

// One that changes delays, or another.
fn read_delay<'a>(name: &str, value: &'a Value) -> Result<Node<'a>, ReadFault>
    ensures node { IsNode result
        (spelt_by from_delays name.now (part_of (view value.now)) (parts_of (view value.now))) }
    ensures nested { IfOk result (λ node. NestsBelow node (depth (view value.now) + 1)) }
{
    match name {
        // bin/nodes makes these rows.
        "add" => {
            let (delay, plan) = number_and_plan(value)?;
            Ok(Node::One(OneNode::Add(delay), plan))
        }
        "set" => {
            let (delay, plan) = number_and_plan(value)?;
            Ok(Node::One(OneNode::Set(delay), plan))
        }
        "cap" => {
            let (delay, plan) = number_and_plan(value)?;
            Ok(Node::One(OneNode::Cap(delay), plan))
        }
        "add_out" => Ok(Node::One(OneNode::AddOut, value)),
        "jitter" => {
            let (lane, least, most, plan) = jitter_and_plan(value)?;
            Ok(Node::One(OneNode::Jitter { lane, least, most }, plan))
        }
        // end
        _ => read_output(name, value),
    }
}

// One that looks at inputs or outputs, or another.
fn read_output<'a>(name: &str, value: &'a Value) -> Result<Node<'a>, ReadFault>
    ensures node { IsNode result
        (spelt_by from_outputs name.now (part_of (view value.now)) (parts_of (view value.now))) }
    ensures nested { IfOk result (λ node. NestsBelow node (depth (view value.now) + 1)) }
{
    match name {
        // bin/nodes makes these rows.
        "gate" => {
            let (side, want, test, bound, plan) = gate_and_plan(value)?;
            let node = OneNode::Gate {
                side,
                want,
                test,
                bound,
            };
            Ok(Node::One(node, plan))
        }
        "gather" => {
            let (fold, plan) = gather_and_plan(value)?;
            Ok(Node::One(OneNode::Gather(fold), plan))
        }
        "first" => Ok(Node::One(OneNode::First, value)),
        "second" => Ok(Node::One(OneNode::Second, value)),
        "nothing" => Ok(Node::One(OneNode::Nothing, value)),
        // end
        _ => read_round(name, value),
    }
}

// One that ends its plan or begins it anew, or a leaf.
fn read_round<'a>(name: &str, value: &'a Value) -> Result<Node<'a>, ReadFault>
    ensures node { IsNode result
        (spelt_by from_rounds name.now (part_of (view value.now)) (parts_of (view value.now))) }
    ensures nested { IfOk result (λ node. NestsBelow node (depth (view value.now) + 1)) }
{
    match name {
        // bin/nodes makes these rows.
        "within" => {
            let (length, plan) = number_and_plan(value)?;
            Ok(Node::One(OneNode::Within(length), plan))
        }
        "ends_by" => {
            let (length, plan) = number_and_plan(value)?;
            Ok(Node::One(OneNode::EndsBy(length), plan))
        }
        "renew" => {
            let (length, plan) = number_and_plan(value)?;
            Ok(Node::One(OneNode::Renew(length), plan))
        }
        "renew_idle" => {
            let (length, plan) = number_and_plan(value)?;
            Ok(Node::One(OneNode::RenewIdle(length), plan))
        }
        // end
        _ => Ok(Node::Leaf(read_leaf(name, value)?)),
    }
}
