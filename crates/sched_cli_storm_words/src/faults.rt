//! Why options ask for no storm.
use std::alloc::{AllocError, Global};
use std::error::Error;
use std::fmt;

/// Why options ask for no storm.
#[derive(Debug, Drop)]
pub enum StormFault {
    /// A value is outside its range, or spells nothing: which one and what is wanted, in a line.
    Bad(String),
    /// A growth was refused.
    NoMemory,
}

impl StormFault {
    /// `Bad` for this reason, or `NoMemory` where there is none to keep it.
    pub(crate) fn bad(alloc: Global, why: &str) -> StormFault {
        match String::from_str(alloc, why) {
            Ok(why) => StormFault::Bad(why),
            Err(_) => StormFault::NoMemory,
        }
    }

    /// `Bad` since this value of an option is not what is wanted.
    pub(crate) fn value(alloc: Global, option: &str, value: &str, wanted: &str) -> StormFault {
        match value_reason(alloc, option, value, wanted) {
            Ok(why) => StormFault::Bad(why),
            Err(_) => StormFault::NoMemory,
        }
    }
}

// Why this value of an option is bad, by the first line of it.
fn value_reason(
    alloc: Global,
    option: &str,
    value: &str,
    wanted: &str,
) -> Result<String, AllocError> {
    let line = match value.split_once('\n') {
        Some((front, _)) => front,
        None => value,
    };
    format!(in alloc; "invalid value '{line}' for '{option}': {wanted}")
}

impl fmt::Display for StormFault {
    fn fmt<W: fmt::Write>(&self, f: &mut fmt::Formatter<W>) -> fmt::Result {
        match self {
            StormFault::Bad(why) => f.write_str(why.as_str()),
            StormFault::NoMemory => f.write_str("no memory"),
        }
    }
}

impl Error for StormFault {}

impl From<AllocError> for StormFault {
    fn from(_: AllocError) -> Self {
        StormFault::NoMemory
    }
}
