//! Plans.
ghost use Rattle.std.specs.Prelude.{◌≡◌, Ok, IfOk, string_bytes};
ghost use Rattle.serde_json.specs.View.{view};
ghost use Rattle.serde_json.specs.Written.{compact_text};
ghost use Rattle.sched_plan_json.specs.PlanOf.{plan_of};
ghost use Rattle.sched_plan_json.specs.Texts.{ReadsText};
ghost use Rattle.sched_plan_json_write.specs.Written.{json_of};

use crate::forms::of_both;
use crate::leaves::write_leaf;
use crate::nodes::write_one;
use crate::words;
use sched_plan::{Plan, PlanShape};
use sched_time::NoMemory;
use serde_json::Value;
use std::alloc::Global;

/// The plan as a JSON value, which `read_plan` reads as the same plan. Fails only with `NoMemory`.
pub fn write_plan(alloc: Global, plan: &Plan) -> Result<Value, NoMemory>
    ensures value { IfOk result (λ v. view v ≡ json_of plan.now) }
    ensures reads { IfOk result (λ v. plan_of (view v) ≡ Ok plan.now) }
{
    // They tell what the proof rests on: that the plan is valid and within the limits.
    let _shape = plan.shape();
    let _nodes = plan.nodes();
    let _depth = plan.depth();
    let value = value_of(alloc, plan)?;
    Ok(value)
}

/// The plan as a JSON text without spaces, which `read_text` reads as the same plan. Fails only with `NoMemory`.
pub fn to_json(alloc: Global, plan: &Plan) -> Result<String, NoMemory>
    ensures text { IfOk result (λ text. string_bytes text ≡ compact_text (json_of plan.now)) }
    ensures reads { IfOk result (λ text. ReadsText (string_bytes text) (Ok plan.now)) }
{
    // It tells what the proof rests on: that the value nests no deeper than a text that is read.
    let _depth = plan.depth();
    let value = write_plan(alloc, plan)?;
    let text = value.to_string(alloc)?;
    Ok(text)
}

// The plan's value.
fn value_of(alloc: Global, plan: &Plan) -> Result<Value, NoMemory>
    ensures { IfOk result (λ v. view v ≡ json_of plan.now) }
{
    match plan.shape() {
        PlanShape::Leaf(leaf) => write_leaf(alloc, *leaf),
        PlanShape::One(node, plan) => {
            let plan = value_of(alloc, plan)?;
            write_one(alloc, *node, plan)
        }
        PlanShape::Two(node, plans) => {
            let first = value_of(alloc, &plans.0)?;
            let second = value_of(alloc, &plans.1)?;
            of_both(alloc, words::pair(*node), first, second)
        }
    }
}
