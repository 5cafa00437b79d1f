//! Why a text is no JSON.
ghost use Rattle.std.specs.Prelude.{◌≡◌};
ghost use Rattle.sched_plan_hint.specs.JsonFaults.{json_words};

use serde_json::Error;
use std::alloc::{AllocError, Global};

/// Why a text is no JSON.
#[derive(Clone, Copy, Debug, PartialEq, Eq)]
pub enum JsonFault {
    /// It has no byte.
    Empty,
    /// It ends before its value does.
    EndsTooSoon,
    /// A number is greater than a float can be.
    TooLarge,
    /// What stands there can't, or its arrays and objects are nested more than 127 deep.
    Unexpected,
}

impl JsonFault {
    /// The reason in words.
    pub fn words(&self) -> &'static str
        ensures { result.now ≡ json_words self.now }
    {
        match self {
            JsonFault::Empty => "the text is empty",
            JsonFault::EndsTooSoon => "the text ends too soon",
            JsonFault::TooLarge => "the number is too large",
            JsonFault::Unexpected =>
                "what stands here is not JSON, or is nested more than 127 deep",
        }
    }
}

/// Why the reader of JSON gave this error, by its text.
pub(crate) fn json_fault(alloc: Global, error: &Error) -> Result<JsonFault, AllocError> {
    if error.is_eof() {
        return Ok(if error.line() == 1 && error.column() == 0 {
            JsonFault::Empty
        } else {
            JsonFault::EndsTooSoon
        });
    }
    let said = error.to_string(alloc)?;
    if said.as_str().starts_with("number") {
        Ok(JsonFault::TooLarge)
    } else {
        Ok(JsonFault::Unexpected)
    }
}
