//! For which node a plan's state is kept as a tree. Nothing is proved of what is printed of it.
use sched_plan::{Plan, PlanFault};
use sched_plan_check::Step;
use sched_plan_hint::push_place;
use sched_plan_json::{ReadFault, read_plan};
use sched_step_flat::has_record;
use sched_time::NoMemory;
use serde_json::Value;
use std::alloc::Global;

/// Adds a line with the place of the node that reads a part of an output, where the state of the plan that this value
/// spells is kept as a tree for that: the first such node under which no plan is kept so.
pub(crate) fn push_reader(
    alloc: Global,
    text: &mut String,
    plan: &Plan,
    value: &Value,
) -> Result<(), NoMemory> {
    if has_record(plan) {
        return Ok(());
    }
    let mut place = Vec::new(alloc);
    let mut at = value;
    for _ in 0..plan.depth() {
        match tree_below(alloc, at, &mut place)? {
            Some(below) => at = below,
            None => break,
        }
    }
    text.push_str("note: ")?;
    push_place(text, place.as_slice())?;
    text.push_str(" reads a part of an output that is kept whole, so each step takes memory\n")?;
    Ok(())
}

// The first plan under this node that is kept as a tree by itself, if there is one, and the steps to it.
fn tree_below<'a>(
    alloc: Global,
    node: &'a Value,
    place: &mut Vec<Step<'a>>,
) -> Result<Option<&'a Value>, NoMemory> {
    let Value::Object(members) = node else {
        return Ok(None);
    };
    let Some((name, value)) = members.iter().next() else {
        return Ok(None);
    };
    match value {
        Value::Array(items) => {
            let Some(index) = first_tree(alloc, items.as_slice())? else {
                return Ok(None);
            };
            place.push(Step::Key(name.as_str()))?;
            place.push(Step::Index(index))?;
            Ok(items.get(index))
        }
        _ => {
            if !is_tree(alloc, value)? {
                return Ok(None);
            }
            place.push(Step::Key(name.as_str()))?;
            Ok(Some(value))
        }
    }
}

// The number of the first of these values that spells a plan that is kept as a tree.
fn first_tree(alloc: Global, values: &[Value]) -> Result<Option<usize>, NoMemory> {
    for (index, value) in values.iter().enumerate() {
        if is_tree(alloc, value)? {
            return Ok(Some(index));
        }
    }
    Ok(None)
}

// Whether this value spells a plan that is kept as a tree.
fn is_tree(alloc: Global, value: &Value) -> Result<bool, NoMemory> {
    match read_plan(alloc, value) {
        Ok(plan) => Ok(!has_record(&plan)),
        Err(ReadFault::Plan(PlanFault::NoMemory)) => Err(NoMemory),
        Err(_) => Ok(false),
    }
}
