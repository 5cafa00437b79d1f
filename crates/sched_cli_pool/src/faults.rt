use sched_cli_plan::PrintFault;
use sched_time::NoMemory;
use std::error::Error;
use std::fmt;

/// Why printing a pool from a reader to a writer stopped.
#[derive(Clone, Copy, Debug, PartialEq, Eq)]
pub enum PoolFault {
    /// Reading the jobs or writing their text stopped, as it does of a plan, or memory was refused while they ran.
    Print(PrintFault),
    /// The system started no thread. Nothing was written.
    NotStarted,
    /// A job did not end as won, schedule done or budget refused. The whole text was written.
    Unfinished,
    /// An ended job is not the one read at its place. Nothing was written.
    Mixed,
}

impl PoolFault {
    ghost use Rattle.std.specs.Prelude.{◌≡◌};
    ghost use Rattle.sched_cli_pool.specs.PoolStatus.{pool_status};

    /// The status that the program exits with.
    pub fn status(&self) -> u8
        ensures { result ≡ pool_status self.now }
    {
        match self {
            PoolFault::Print(fault) => fault.status(),
            PoolFault::Unfinished => 6,
            PoolFault::NotStarted => 7,
            PoolFault::Mixed => 8,
        }
    }
}

// The line that the program tells of it, without a line feed.
impl fmt::Display for PoolFault {
    ghost use Rattle.std.specs.Prelude.{Some};
    ghost use Rattle.sched_cli_pool.specs.PoolStatus.{pool_line};

    ghost output = { λ fault. Some (pool_line fault) };

    fn fmt<W: fmt::Write>(&self, f: &mut fmt::Formatter<W>) -> fmt::Result {
        match self {
            PoolFault::Print(fault) => fmt::Display::fmt(fault, f),
            PoolFault::Unfinished => f.write_str("zsched: not finished"),
            PoolFault::NotStarted => f.write_str("zsched: worker not started"),
            PoolFault::Mixed => f.write_str("zsched: jobs mixed up"),
        }
    }
}

impl Error for PoolFault {}

impl From<PrintFault> for PoolFault {
    ghost use Rattle.sched_cli_pool.specs.declared.faults.PoolFault.TheVariants.{Print};
    ghost use Rattle.std.specs.Prelude.{◌≡◌};

    ghost from_gives = { λ stopped fault. fault ≡ Print stopped };

    fn from(stopped: PrintFault) -> Self {
        PoolFault::Print(stopped)
    }
}

impl From<NoMemory> for PoolFault {
    ghost use Rattle.sched_cli_pool.specs.declared.faults.PoolFault.TheVariants.{Print};
    ghost use Rattle.sched_cli_plan.specs.declared.faults.PrintFault.TheVariants.{NoMemory};
    ghost use Rattle.std.specs.Prelude.{◌≡◌};

    ghost from_gives = { λ _ fault. fault ≡ Print NoMemory };

    fn from(_: NoMemory) -> Self {
        PoolFault::Print(PrintFault::NoMemory)
    }
}
