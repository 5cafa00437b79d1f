//! Why a pass was not split.
ghost use Rattle.std.specs.Prelude.{Some};
ghost use Rattle.sched_limit_request.specs.Fault.{fault_text};

use std::error::Error;
use std::fmt;

/// Why a pass of a limit was not split.
#[derive(Clone, Copy, Debug, PartialEq, Eq, Drop)]
pub enum SplitFault {
    /// A growth was refused.
    NoMemory,
    /// The pass has one part, which it keeps.
    TooManyPasses,
}

impl fmt::Display for SplitFault {
    ghost output = { λ fault. Some (fault_text fault) };

    fn fmt<W: fmt::Write>(&self, f: &mut fmt::Formatter<W>) -> fmt::Result {
        f.write_str(match self {
            SplitFault::NoMemory => "no memory",
            SplitFault::TooManyPasses => "the pass has one part, which it keeps",
        })
    }
}

impl Error for SplitFault {}
