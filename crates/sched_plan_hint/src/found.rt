//! What was found where something else is wanted. Nothing is proved of these texts.
use sched_time::NoMemory;
use serde_json::Value;
use std::alloc::Global;
use std::fmt::Write;

// The most characters that are shown.
const MAX_SHOWN: usize = 60;

/// Adds what was found, as JSON: `, got {"fixed":0}`, and of a long value the first 60 characters and `..`. Fails only
/// with `NoMemory`.
pub fn push_found(alloc: Global, text: &mut String, value: &Value) -> Result<(), NoMemory> {
    let found = value.to_string(alloc)?;
    text.push_str(", got ")?;
    push_shown(text, found.as_str())
}

/// Adds what somebody wrote, and of a long text the first 60 characters and `..`. Fails only with `NoMemory`.
pub(crate) fn push_shown(text: &mut String, written: &str) -> Result<(), NoMemory> {
    let mut shown = 0usize;
    for letter in written.chars() {
        if shown >= MAX_SHOWN {
            text.push_str("..")?;
            return Ok(());
        }
        push_letter(text, letter)?;
        shown += 1;
    }
    Ok(())
}

// Adds a letter that somebody wrote, escaped as in JSON if a terminal would act on it.
fn push_letter(text: &mut String, letter: char) -> Result<(), NoMemory> {
    if is_seen(letter) {
        text.push(letter)?;
    } else {
        write!(text, "\\u{:04x}", letter as u32)?;
    }
    Ok(())
}

// Whether it is no control character, ends no line, and does not turn the direction of a text.
fn is_seen(letter: char) -> bool {
    match letter as u32 {
        0..=0x1f | 0x7f..=0x9f => false,
        0x61c | 0x200e..=0x200f | 0x2028..=0x202e | 0x2066..=0x2069 => false,
        _ => true,
    }
}
