//! How many there are of something, in words.
use sched_time::NoMemory;
use std::fmt::Write;

/// Adds how many there are of what this word names: `1 node`, `8 nodes`.
pub fn push_count(text: &mut String, count: u64, word: &str) -> Result<(), NoMemory> {
    write!(text, "{count} {word}")?;
    if count != 1 {
        text.push('s')?;
    }
    Ok(())
}
