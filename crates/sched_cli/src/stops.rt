//! Where the program stopped, and what it tells of that.
ghost use Rattle.std.specs.Prelude.{◌≡◌, IfOk};
ghost use Rattle.sched_cli.specs.Stops.{TellsError, IsUnopened, IsUnwritten};

use sched_cli_plan::PrintFault;
use sched_cli_pool::PoolFault;
use sched_time::NoMemory;
use std::alloc::Global;
use std::error::Error;
use std::io::ErrorKind;
use std::{fmt, io};

/// How the stream that is written to is named.
pub(crate) const STANDARD_OUTPUT: &str = "standard output";

/// What is told beside the line of a fault.
#[derive(Debug, Drop)]
pub enum Told {
    /// Nothing at all, not even that line: nobody reads what the program writes.
    Quiet,
    /// That line alone.
    Alone,
    /// A second line after it.
    More(String),
}

/// Why the program stopped, and what it tells of that on standard error.
#[derive(Debug, Drop)]
pub struct Stop {
    /// Why it stopped.
    pub fault: PoolFault,
    /// What is told beside the line of the fault; `NoMemory` where there was none for it.
    pub told: Result<Told, NoMemory>,
}

impl Stop {
    ghost use Rattle.sched_cli.specs.Stops.{is_quiet, stop_status};

    /// The file of this name was not opened.
    pub fn unopened(alloc: Global, name: &str, error: io::Error) -> Stop
        ensures { IsUnopened name.now error result }
    {
        if error.kind() == ErrorKind::OutOfMemory {
            return Stop {
                fault: PoolFault::Print(PrintFault::NoMemory),
                told: Ok(Told::Alone),
            };
        }
        Stop {
            fault: PoolFault::Print(PrintFault::ReadFailed),
            told: tell_error(alloc, name, error),
        }
    }

    /// A text that the command line asked for, as its help, was not written.
    pub fn unwritten(alloc: Global, error: io::Error) -> Stop
        ensures { IsUnwritten error result }
    {
        Stop {
            fault: PoolFault::Print(PrintFault::WriteFailed),
            told: tell_error(alloc, STANDARD_OUTPUT, error),
        }
    }

    /// The status that the program exits with: that of the fault, or of `NoMemory` where there was none to tell it.
    pub fn status(&self) -> u8
        ensures { result ≡ stop_status self.now }
    {
        match &self.told {
            Ok(_) => self.fault.status(),
            Err(_) => PrintFault::NoMemory.status(),
        }
    }

    /// Whether nothing is told.
    pub fn is_quiet(&self) -> bool
        ensures { result ≡ is_quiet self.now.told }
    {
        matches!(&self.told, Ok(Told::Quiet))
    }
}

// The lines that are told, without the last line feed.
impl fmt::Display for Stop {
    ghost use Rattle.std.specs.Prelude.{Some};
    ghost use Rattle.sched_cli.specs.Stops.{stop_text};

    ghost output = { λ stop. Some (stop_text stop) };

    fn fmt<W: fmt::Write>(&self, f: &mut fmt::Formatter<W>) -> fmt::Result {
        match &self.told {
            Ok(Told::Quiet) => Ok(()),
            Ok(Told::More(line)) => write!(f, "{}\n{}", self.fault, line.as_str()),
            Ok(Told::Alone) => fmt::Display::fmt(&self.fault, f),
            Err(_) => fmt::Display::fmt(&PrintFault::NoMemory, f),
        }
    }
}

impl Error for Stop {}

/// What is told of the stream of this name where a call on it failed: `NAME: REASON`, and nothing of a pipe that nobody
/// reads.
pub(crate) fn tell_error(alloc: Global, name: &str, error: io::Error) -> Result<Told, NoMemory>
    ensures { IfOk result (TellsError name.now error) }
{
    if error.kind() == ErrorKind::BrokenPipe {
        return Ok(Told::Quiet);
    }
    let reason = error.to_string(alloc)?;
    let mut line = String::from_str(alloc, name)?;
    line.push_str(": ")?;
    line.push_str(reason.as_str())?;
    Ok(Told::More(line))
}
