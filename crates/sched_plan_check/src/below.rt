//! The plans that a node stands on.
ghost use Rattle.std.specs.Prelude.{◌≡◌, ◌<◌, ◌++◌, ◌⊎◌, [], ◌∷◌, Some, IfOk, IfSome, OnOk};
ghost use Rattle.serde_json.specs.Data.{depth};
ghost use Rattle.serde_json.specs.View.{view};
ghost use Rattle.sched_plan_json.specs.Node.{one_of};
ghost use Rattle.sched_plan_json.specs.PlanOf.{spelt_of};
ghost use Rattle.sched_plan_check.specs.Places.{place_of};
ghost use Rattle.sched_plan_check.specs.PlanFaults.{IsRefusal, name_in, item_in, plans_in, steps_to};
ghost use Rattle.sched_plan_check.specs.Below.{IsFirstBelow};

use crate::places::Step;
use sched_plan::PlanFault;
use sched_plan_json::{Node, OneNode, ReadFault, read_node, read_plan};
use sched_time::NoMemory;
use serde_json::Value;
use std::alloc::Global;

/// A plan below a node, and the fault for which it is refused.
#[derive(Clone, Copy)]
pub(crate) struct Below<'a> {
    /// Its number among the items of the node's value, where it is not that value itself.
    pub(crate) item: Option<usize>,
    pub(crate) value: &'a Value,
    pub(crate) fault: ReadFault,
}

/// Why the value is no plan, if it is none.
pub(crate) fn refusal(alloc: Global, value: &Value) -> Result<Option<ReadFault>, NoMemory>
    ensures { IfOk result (IsRefusal (view value.now)) }
{
    match read_plan(alloc, value) {
        Ok(_) => Ok(None),
        Err(ReadFault::NotAPlan) => Ok(Some(ReadFault::NotAPlan)),
        Err(ReadFault::Plan(PlanFault::NoMemory)) => Err(NoMemory),
        Err(ReadFault::Plan(fault)) => Ok(Some(ReadFault::Plan(fault))),
    }
}

/// The first plan that the node stands on and that is refused, if the value is a node and there is one.
pub(crate) fn first_below<'a>(
    alloc: Global,
    value: &'a Value,
) -> Result<Option<Below<'a>>, NoMemory>
    ensures first { IfOk result (IsFirstBelow (plans_in (spelt_of (view value.now)))) }
    ensures nested { IfOk result (λ found. IfSome found
        (λ below. depth (view below.value.now) < depth (view value.now))) }
{
    match read_node(value) {
        Ok(Node::One(node, plan)) => where_refused(alloc, item_of(node), plan),
        Ok(Node::Two(_, first, second)) => first_of_two(alloc, first, second),
        Ok(Node::Leaf(_)) | Err(_) => Ok(None),
    }
}

// The first of both plans that is refused.
#[tactic(auto, using(crate::proofs::Nexts::first_stays, crate::proofs::Nexts::then_second))]
fn first_of_two<'a>(
    alloc: Global,
    first: &'a Value,
    second: &'a Value,
) -> Result<Option<Below<'a>>, NoMemory>
    ensures first { IfOk result
        (IsFirstBelow ((Some 0, view first.now) ∷ (Some 1, view second.now) ∷ [])) }
    ensures same { IfOk result (λ found. IfSome found (λ below.
        (view below.value.now ≡ view first.now) ⊎ (view below.value.now ≡ view second.now))) }
{
    let found = where_refused(alloc, Some(0), first)?;
    if found.is_some() {
        return Ok(found);
    }
    where_refused(alloc, Some(1), second)
}

// This plan, if it is refused.
fn where_refused<'a>(
    alloc: Global,
    item: Option<usize>,
    value: &'a Value,
) -> Result<Option<Below<'a>>, NoMemory>
    ensures first { IfOk result (IsFirstBelow ((item, view value.now) ∷ [])) }
    ensures same { IfOk result (λ found. IfSome found (λ below. view below.value.now ≡ view value.now)) }
{
    match refusal(alloc, value)? {
        Some(fault) => Ok(Some(Below { item, value, fault })),
        None => Ok(None),
    }
}

// Which item of its value a node has as its plan, where that is not the value itself.
fn item_of(node: OneNode) -> Option<usize>
    ensures { result ≡ item_in (one_of node) }
{
    match node {
        // bin/nodes makes these rows.
        OneNode::AddOut | OneNode::First | OneNode::Second | OneNode::Nothing => None,
        OneNode::Gather(_)
        | OneNode::Add(_)
        | OneNode::Set(_)
        | OneNode::Cap(_)
        | OneNode::Within(_)
        | OneNode::EndsBy(_)
        | OneNode::Renew(_)
        | OneNode::RenewIdle(_) => Some(1),
        OneNode::Jitter { .. } => Some(3),
        OneNode::Gate { .. } => Some(4),
        // end
    }
}

/// Adds the steps from the node to the plan below it.
pub(crate) fn step_below<'a>(
    place: &mut Vec<Step<'a>>,
    node: &'a Value,
    item: Option<usize>,
) -> Result<(), NoMemory>
    ensures { OnOk result
        (place_of place.new.items ≡ place_of place.old.items ++ steps_to (name_in (view node.now)) item) }
{
    place.push(Step::Key(name_of(node)))?;
    if let Some(index) = item {
        place.push(Step::Index(index))?;
    }
    Ok(())
}

// The name of a node that stands on plans.
fn name_of(node: &Value) -> &str
    ensures { result.now ≡ name_in (view node.now) }
{
    match node {
        Value::Object(members) => match members.iter().next() {
            Some((name, _)) => name.as_str(),
            None => "",
        },
        _ => "",
    }
}
