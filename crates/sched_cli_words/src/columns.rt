//! Help within the columns of a terminal. Nothing is proved of it, since clap's contracts say nothing of its texts.
use std::alloc::{AllocError, Global};

// The columns of a line.
const COLUMNS: usize = 80;

/// The text, each longer line of it broken at spaces. A line goes on below the place at which its own text begins: what
/// stands after the last two spaces.
pub(crate) fn within_columns(alloc: Global, text: &str) -> Result<String, AllocError> {
    let mut broken = String::new(alloc);
    for (place, line) in text.split('\n').enumerate() {
        if place > 0 {
            broken.push('\n')?;
        }
        push_line(&mut broken, line)?;
    }
    Ok(broken)
}

// Adds a line, broken where it is too long.
fn push_line(text: &mut String, line: &str) -> Result<(), AllocError> {
    let margin = match line.rfind("  ") {
        Some(spaces) => spaces.saturating_add(2),
        None => 0,
    };
    let mut column = 0usize;
    for (place, word) in line.split(' ').enumerate() {
        let end = column.saturating_add(1).saturating_add(word.len());
        if place == 0 {
            column = word.len();
        } else if end > COLUMNS && column > margin && !word.is_empty() {
            push_margin(text, margin)?;
            column = margin.saturating_add(word.len());
        } else {
            text.push(' ')?;
            column = end;
        }
        text.push_str(word)?;
    }
    Ok(())
}

// Adds the beginning of a line that goes on.
fn push_margin(text: &mut String, margin: usize) -> Result<(), AllocError> {
    text.push('\n')?;
    for _ in 0..margin {
        text.push(' ')?;
    }
    Ok(())
}
