//! Printing what a text is.
ghost use Rattle.std.specs.Prelude.{◌≡◌, ◌≢◌, Err};
ghost use Rattle.sched_cli_plan.specs.Whole.{count_of_reads, count_of_writes};
ghost use Rattle.sched_cli_check.specs.Checking.{PrintsCheck, PutsText};
ghost use Rattle.sched_cli_check.specs.Reporting.{text_of, answer_of};

use crate::reports::{Report, report_bytes};
use sched_cli_plan::{PrintFault, Sink, Source, put_all, read_all};
use std::alloc::Global;

/// Reads a plan or jobs as JSON from `reader`, an array as jobs and any other value as a plan, and writes to `writer` a
/// line that says what it is, or `PLACE: HINT` for its first fault, or where it stops being JSON.
///
/// Refused as `ReadFailed` and `TooLong` with nothing written; as `NotJson`, `NotAPlan`, `OutOfRange`, `TooDeep` and
/// `TooMany`, as reading answers, after the line was written; and as `NoMemory` and `WriteFailed`.
#[tactic(auto, using(crate::proofs::Puts::told_put, crate::proofs::Puts::put_no_read))]
pub fn print_check<R: Source, W: Sink>(
    alloc: Global,
    reader: &mut R,
    writer: &mut W,
) -> Result<(), PrintFault>
    ensures text { PrintsCheck
        (R.left reader.old) (R.left reader.new) (W.taken writer.old) (W.taken writer.new) result }
    ensures reads { R.failures reader.new ≡ count_of_reads result (R.failures reader.old) }
    ensures writes { W.failures writer.new ≡ count_of_writes result (W.failures writer.old) }
{
    let bytes = read_all(alloc, reader)?;
    let report = report_bytes(alloc, bytes.as_slice())?;
    put_report(writer, &report)
}

// Writes what is told, and answers the fault that it tells of.
fn put_report<W: Sink>(writer: &mut W, report: &Report) -> Result<(), PrintFault>
    ensures text { PutsText (text_of report.now) (answer_of report.now)
        (W.taken writer.old) (W.taken writer.new) result }
    ensures writes { W.failures writer.new ≡ count_of_writes result (W.failures writer.old) }
{
    match report {
        Report::Read(text) => put_all(writer, text.as_bytes()),
        Report::NotJson(text) => put_fault(writer, text.as_bytes(), PrintFault::NotJson),
        Report::Refused(fault, text) => {
            put_fault(writer, text.as_bytes(), PrintFault::from(*fault))
        }
    }
}

// Writes all of `bytes`, and answers this fault then.
fn put_fault<W: Sink>(writer: &mut W, bytes: &[u8], fault: PrintFault) -> Result<(), PrintFault>
    requires { fault ≢ PrintFault.WriteFailed }
    ensures text { PutsText bytes.now (Err fault) (W.taken writer.old) (W.taken writer.new) result }
    ensures writes { W.failures writer.new ≡ count_of_writes result (W.failures writer.old) }
{
    put_all(writer, bytes)?;
    Err(fault)
}
