//! Why a command line is bad, as one line. Nothing is proved of it, since clap's contracts say nothing of its texts.
use clap::Error;
use clap::error::ErrorKind;
use std::alloc::{AllocError, Global};

/// What clap's error says of the words, as one line: without its usage, and with what it is near to; where no command
/// was named how to get help.
pub(crate) fn reason(alloc: Global, error: &Error) -> Result<String, AllocError> {
    let text = error.to_string(alloc)?;
    let text = text.as_str();
    let mut line = String::new(alloc);
    for part in text.strip_prefix("error: ").unwrap_or(text).split('\n') {
        let part = part.trim();
        if part.starts_with("Usage:") || part.starts_with("For more information") {
            break;
        }
        push_part(&mut line, part)?;
    }
    match error.kind() {
        ErrorKind::MissingSubcommand | ErrorKind::InvalidSubcommand => {
            push_part(&mut line, "zsched --help lists the commands")?
        }
        _ => {}
    }
    Ok(line)
}

// Adds a part of the line, after a semicolon where it is not the first.
fn push_part(line: &mut String, part: &str) -> Result<(), AllocError> {
    if part.is_empty() {
        return Ok(());
    }
    if !line.is_empty() {
        line.push_str("; ")?;
    }
    line.push_str(part)
}
