//! What was expected where jobs have their fault, and what was found. Nothing is proved of these texts.
use sched_plan_check::{Fault, Step};
use sched_plan_hint::{push_found, push_plan_hint};
use sched_time::NoMemory;
use serde_json::Value;
use std::alloc::Global;
use std::fmt::Write;

const JOBS_EXPECTED: &str = "expected an array of jobs";

const JOB_EXPECTED: &str = r#"expected {"plan":PLAN,"runs":[RUN,..]}"#;

const RUN_EXPECTED: &str =
    r#"expected {"won":CODE} or {"lost":CODE}, CODE from 0 to 4611686018427387903"#;

/// Adds what was expected at the fault of jobs, and what was found.
pub(crate) fn push_jobs_hint(
    alloc: Global,
    text: &mut String,
    found: &Fault<'_>,
) -> Result<(), NoMemory> {
    match found.place.as_slice() {
        [] if !found.value.is_array() => push_expected(alloc, text, JOBS_EXPECTED, found.value)?,
        [] => write!(
            text,
            "expected at most 4096 jobs, got {}",
            items_of(found.value)
        )?,
        [_] => push_expected(alloc, text, JOB_EXPECTED, found.value)?,
        [_, Step::Key("runs")] => write!(
            text,
            "expected 1 to 64 runs, got {}",
            items_of(found.value)
        )?,
        [_, Step::Key("runs"), _] => push_expected(alloc, text, RUN_EXPECTED, found.value)?,
        _ => push_plan_hint(alloc, text, found.fault, found.value)?,
    }
    Ok(())
}

// Adds what was expected, and this value, which was found.
fn push_expected(
    alloc: Global,
    text: &mut String,
    expected: &str,
    found: &Value,
) -> Result<(), NoMemory> {
    text.push_str(expected)?;
    push_found(alloc, text, found)
}

// How many items an array has.
fn items_of(value: &Value) -> usize {
    match value {
        Value::Array(items) => items.len(),
        _ => 0,
    }
}
