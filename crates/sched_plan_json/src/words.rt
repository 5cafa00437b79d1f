//! The words that stand for a node's parameters.
ghost use Rattle.serde_json.specs.View.{view};
ghost use Rattle.sched_plan_json.specs.Reading.{or_not_a_plan};
ghost use Rattle.sched_plan_json.specs.Forms.{word_in};
ghost use Rattle.sched_plan_json.specs.Words.{sides, tests, folds};
ghost use Rattle.std.specs.Prelude.{◌≡◌};

use crate::faults::ReadFault;
use sched_plan::{Fold, Side, Test};
use serde_json::Value;

/// The value that a gate tests.
pub(crate) fn side(value: &Value) -> Result<Side, ReadFault>
    ensures { result ≡ or_not_a_plan (word_in sides (view value.now)) }
{
    match value.as_str() {
        Some("input") => Ok(Side::Input),
        Some("output") => Ok(Side::Output),
        _ => Err(ReadFault::NotAPlan),
    }
}

/// The test of a gate.
pub(crate) fn test(value: &Value) -> Result<Test, ReadFault>
    ensures { result ≡ or_not_a_plan (word_in tests (view value.now)) }
{
    match value.as_str() {
        Some("below") => Ok(Test::Below),
        Some("at_least") => Ok(Test::AtLeast),
        Some("equal") => Ok(Test::Equal),
        _ => Err(ReadFault::NotAPlan),
    }
}

/// What a gathering makes of the outputs.
pub(crate) fn fold(value: &Value) -> Result<Fold, ReadFault>
    ensures { result ≡ or_not_a_plan (word_in folds (view value.now)) }
{
    match value.as_str() {
        Some("sum") => Ok(Fold::Sum),
        Some("count") => Ok(Fold::Count),
        Some("max") => Ok(Fold::Max),
        Some("list") => Ok(Fold::List),
        _ => Err(ReadFault::NotAPlan),
    }
}
