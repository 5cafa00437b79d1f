use sched_plan::PlanFault;
use sched_plan_json::ReadFault;
use sched_time::NoMemory;
use std::alloc::AllocError;
use std::error::Error;
use std::fmt;

/// Why printing from a reader to a writer stopped.
#[derive(Clone, Copy, Debug, PartialEq, Eq)]
pub enum PrintFault {
    /// A read failed. Nothing was written.
    ReadFailed,
    /// The input has more than 1,048,576 bytes. Nothing was written.
    TooLong,
    /// The input is no JSON text. Nothing was written.
    NotJson,
    /// The input is JSON, but no plan or no jobs. Nothing was written.
    NotAPlan,
    /// A number lies outside its range. Nothing was written.
    OutOfRange,
    /// A plan is deeper than 32. Nothing was written.
    TooDeep,
    /// A plan has more than 256 nodes. Nothing was written.
    TooMany,
    /// A growth was refused. A front of the text may have been written.
    NoMemory,
    /// A write failed. A front of the text was written.
    WriteFailed,
}

impl PrintFault {
    ghost use Rattle.std.specs.Prelude.{◌≡◌};
    ghost use Rattle.sched_cli_plan.specs.PrintStatus.{print_status};

    /// The status that the program exits with.
    pub fn status(&self) -> u8
        ensures { result ≡ print_status self.now }
    {
        match self {
            PrintFault::TooLong
            | PrintFault::NotJson
            | PrintFault::NotAPlan
            | PrintFault::OutOfRange
            | PrintFault::TooDeep
            | PrintFault::TooMany => 3,
            PrintFault::ReadFailed | PrintFault::WriteFailed => 4,
            PrintFault::NoMemory => 5,
        }
    }
}

// The line that the program tells of it, without a line feed.
impl fmt::Display for PrintFault {
    ghost use Rattle.std.specs.Prelude.{Some};
    ghost use Rattle.sched_cli_plan.specs.PrintStatus.{print_line};

    ghost output = { λ fault. Some (print_line fault) };

    fn fmt<W: fmt::Write>(&self, f: &mut fmt::Formatter<W>) -> fmt::Result {
        f.write_str(match self {
            PrintFault::ReadFailed => "zsched: read failed",
            PrintFault::TooLong => "zsched: input too long",
            PrintFault::NotJson => "zsched: not JSON",
            PrintFault::NotAPlan => "zsched: not a plan",
            PrintFault::OutOfRange => "zsched: number out of range",
            PrintFault::TooDeep => "zsched: too deep",
            PrintFault::TooMany => "zsched: too many nodes",
            PrintFault::NoMemory => "zsched: no memory",
            PrintFault::WriteFailed => "zsched: write failed",
        })
    }
}

impl Error for PrintFault {}

impl From<AllocError> for PrintFault {
    ghost use Rattle.sched_cli_plan.specs.declared.faults.PrintFault.TheVariants.{NoMemory};
    ghost use Rattle.std.specs.Prelude.{◌≡◌};

    ghost from_gives = { λ _ fault. fault ≡ NoMemory };

    fn from(_: AllocError) -> Self {
        PrintFault::NoMemory
    }
}

impl From<NoMemory> for PrintFault {
    ghost use Rattle.sched_cli_plan.specs.declared.faults.PrintFault.TheVariants.{NoMemory};
    ghost use Rattle.std.specs.Prelude.{◌≡◌};

    ghost from_gives = { λ _ fault. fault ≡ NoMemory };

    fn from(_: NoMemory) -> Self {
        PrintFault::NoMemory
    }
}

impl From<ReadFault> for PrintFault {
    ghost use Rattle.std.specs.Prelude.{◌≡◌};
    ghost use Rattle.sched_cli_plan.specs.Refusal.{refusal_of};

    ghost from_gives = { λ refused fault. fault ≡ refusal_of refused };

    fn from(refused: ReadFault) -> Self {
        match refused {
            ReadFault::NotAPlan => PrintFault::NotAPlan,
            ReadFault::Plan(PlanFault::OutOfRange) => PrintFault::OutOfRange,
            ReadFault::Plan(PlanFault::TooDeep) => PrintFault::TooDeep,
            ReadFault::Plan(PlanFault::TooMany) => PrintFault::TooMany,
            ReadFault::Plan(PlanFault::NoMemory) => PrintFault::NoMemory,
        }
    }
}
