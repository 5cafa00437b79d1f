//! What was expected where a plan has its fault, and what was found. Nothing is proved of these texts.
use crate::found::{push_found, push_shown};
use crate::nodes::{foreign, nearest, spelling};
use sched_plan::PlanFault;
use sched_plan_json::ReadFault;
use sched_time::NoMemory;
use serde_json::Value;
use std::alloc::Global;
use std::fmt::Write;

const PLAN_EXPECTED: &str = "expected a plan, a string or an object with one member";

/// Adds what was expected where a plan has this fault, at this value, and what was found. Fails only with `NoMemory`.
pub fn push_plan_hint(
    alloc: Global,
    text: &mut String,
    fault: ReadFault,
    value: &Value,
) -> Result<(), NoMemory> {
    match fault {
        ReadFault::NotAPlan => push_form_hint(alloc, text, value)?,
        ReadFault::Plan(PlanFault::OutOfRange) => push_form_hint(alloc, text, value)?,
        ReadFault::Plan(PlanFault::TooDeep) => text.push_str("expected a plan at most 32 deep")?,
        ReadFault::Plan(PlanFault::TooMany) => text.push_str(
            "expected a plan of at most 256 nodes",
        )?,
        ReadFault::Plan(PlanFault::NoMemory) => text.push_str("no memory")?,
    }
    Ok(())
}

// Adds how the node is spelt that the value should be.
fn push_form_hint(alloc: Global, text: &mut String, value: &Value) -> Result<(), NoMemory> {
    match value {
        Value::String(name) => push_name_hint(alloc, text, name.as_str(), value)?,
        Value::Object(members) => {
            let count = members.len();
            let mut members = members.iter();
            match (members.next(), members.next()) {
                (Some((name, inner)), None) => {
                    push_name_hint(alloc, text, name.as_str(), value)?;
                    push_fraction_hint(text, name.as_str(), inner)?;
                }
                _ => write!(text, "{PLAN_EXPECTED}, got one with {count}")?,
            }
        }
        _ => {
            text.push_str(PLAN_EXPECTED)?;
            push_found(alloc, text, value)?;
        }
    }
    Ok(())
}

// Adds how the node of this name is spelt and what was found, or that there is none, with the nearest name.
fn push_name_hint(
    alloc: Global,
    text: &mut String,
    name: &str,
    value: &Value,
) -> Result<(), NoMemory> {
    if let Some(form) = spelling(name) {
        write!(text, "expected {form}")?;
        return push_found(alloc, text, value);
    }
    text.push_str("no node is called \"")?;
    push_shown(text, name)?;
    text.push_str("\"")?;
    let near = match foreign(name) {
        Some(node) => Some(node),
        None => nearest(alloc, name)?,
    };
    if let Some(known) = near {
        write!(text, "; did you mean \"{known}\"?")?;
    }
    Ok(())
}

// Adds the node that takes a factor in thousandths, where `exponential` is given one that is no whole number.
fn push_fraction_hint(text: &mut String, name: &str, value: &Value) -> Result<(), NoMemory> {
    if let Value::Array(items) = value {
        if let [_, Value::Number(factor)] = items.as_slice() {
            if name == "exponential" && factor.as_u64().is_none() {
                text.push_str("; a factor of 1.5 is 1500 in \"exponential_milli\"")?;
            }
        }
    }
    Ok(())
}
