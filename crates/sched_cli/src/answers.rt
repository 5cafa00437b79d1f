//! What the program does with an input, and what it tells where it stops.
ghost use Rattle.std.specs.Prelude.{◌≡◌, IfOk, IfErr};
ghost use Rattle.sched_cli_plan.specs.Counted.{inner_of, failures_of, last_of};
ghost use Rattle.sched_cli_pool.specs.JobsPrinting.{count_of_pool_reads, count_of_pool_writes};
ghost use Rattle.sched_cli.specs.Answering.{Answers, Tells, TellsFault, TellsStream, TellsText, IsLineOf, name_of};
ghost use Rattle.sched_cli.specs.Answering.{stopped};

use crate::stops::{STANDARD_OUTPUT, Stop, Told, tell_error};
use crate::storms::tell_storm;
use crate::texts::print_text;
use sched_cli_check::jobs_fault;
use sched_cli_plan::{Counted, PrintFault, read_all};
use sched_cli_pool::PoolFault;
use sched_cli_words::{Asked, Origin};
use sched_plan_hint::{ToldFault, plan_fault};
use sched_time::NoMemory;
use std::alloc::{AllocGlobal, Global};
use std::io;
use std::io::{Read, Write};
use std::random::RandomSource;
use std::sync::Wait;
use std::thread::Threads;

// The errors of the last read and of the last write that failed.
#[derive(Clone, Copy)]
struct Failed {
    read: Option<io::Error>,
    written: Option<io::Error>,
}

/// Does what is asked for: reads a text to its end, and writes what is printed of it.
///
/// Stops as `print_plan`, `print_course`, `print_pool`, `print_quota_pool`, `print_storm` and `print_check` do, with
/// what is told of it: of a read or a write that failed the name of the stream and the system's reason, of a text that
/// is no plan or no jobs its first fault and the place, and nothing at all where nobody reads what is written.
#[tactic(auto, using(crate::proofs::Answered::of_answers))]
pub fn answer<R, S: Read, W: Write>(
    rt: &R,
    alloc: Global,
    reader: &mut Counted<S>,
    writer: &mut Counted<W>,
    asked: &Asked,
) -> Result<(), Stop>
where
    R: Threads + Wait + RandomSource + AllocGlobal + Sync,
    ensures text { Answers asked.now (S.remaining (inner_of reader.old)) (S.remaining (inner_of reader.new))
        (W.contents (inner_of writer.old)) (W.contents (inner_of writer.new)) (stopped result) }
    ensures told { IfErr result (λ stop. IfOk stop.told (Tells asked.now
        (S.remaining (inner_of reader.old)) (S.remaining (inner_of reader.new))
        (last_of reader.new) (last_of writer.new) stop.fault)) }
    ensures reads { failures_of reader.new ≡ count_of_pool_reads (stopped result) (failures_of reader.old) }
    ensures writes { failures_of writer.new ≡ count_of_pool_writes (stopped result) (failures_of writer.old) }
{
    let bytes = match read_all(alloc, reader) {
        Ok(bytes) => bytes,
        Err(unread) => {
            let fault = PoolFault::Print(unread);
            let failed = errors_of(reader, writer);
            let told = tell(alloc, fault, asked, &[], &failed);
            return Err(Stop { fault, told });
        }
    };
    match print_text(rt, alloc, bytes.as_slice(), writer, asked) {
        Ok(()) => Ok(()),
        Err(fault) => {
            let failed = errors_of(reader, writer);
            let told = tell(alloc, fault, asked, bytes.as_slice(), &failed);
            Err(Stop { fault, told })
        }
    }
}

// The errors of these streams.
fn errors_of<S, W>(reader: &Counted<S>, writer: &Counted<W>) -> Failed
    ensures read { result.read ≡ last_of reader.now }
    ensures written { result.written ≡ last_of writer.now }
{
    Failed {
        read: reader.last_error(),
        written: writer.last_error(),
    }
}

// What is told of this fault.
fn tell(
    alloc: Global,
    fault: PoolFault,
    asked: &Asked,
    bytes: &[u8],
    failed: &Failed,
) -> Result<Told, NoMemory>
    ensures { IfOk result
        (TellsFault asked.now failed.now.read failed.now.written (TellsText asked.now bytes.now) fault) }
{
    match fault {
        PoolFault::Print(PrintFault::ReadFailed) => {
            tell_stream(alloc, name_of(asked.origin()), failed.read)
        }
        PoolFault::Print(PrintFault::WriteFailed) => {
            tell_stream(alloc, STANDARD_OUTPUT, failed.written)
        }
        PoolFault::Print(
            PrintFault::NotJson
            | PrintFault::NotAPlan
            | PrintFault::OutOfRange
            | PrintFault::TooDeep
            | PrintFault::TooMany,
        ) => tell_text(alloc, asked, bytes),
        PoolFault::Print(PrintFault::TooLong | PrintFault::NoMemory)
        | PoolFault::NotStarted
        | PoolFault::Unfinished
        | PoolFault::Mixed => Ok(Told::Alone),
    }
}

// How a text's origin is named.
fn name_of(origin: &Origin) -> &str
    ensures { result.now ≡ name_of origin.now }
{
    match origin {
        Origin::StandardInput => "standard input",
        Origin::File(name) => name.as_str(),
    }
}

// What is told of the stream of this name, whose last failed call had this error.
fn tell_stream(alloc: Global, name: &str, error: Option<io::Error>) -> Result<Told, NoMemory>
    ensures { IfOk result (TellsStream name.now error) }
{
    match error {
        Some(error) => tell_error(alloc, name, error),
        None => Ok(Told::Alone),
    }
}

// What is told of a text that is refused.
fn tell_text(alloc: Global, asked: &Asked, bytes: &[u8]) -> Result<Told, NoMemory>
    ensures { IfOk result (TellsText asked.now bytes.now) }
{
    match asked {
        Asked::Plan(_, _) | Asked::Course(_, _) => {
            let found = plan_fault(alloc, bytes)?;
            tell_found(alloc, &found)
        }
        Asked::Pool(_, _) | Asked::Quota(_, _) => {
            let found = jobs_fault(alloc, bytes)?;
            tell_found(alloc, &found)
        }
        Asked::Storm(options, _) => tell_storm(alloc, options, bytes),
        Asked::Check(_) => Ok(Told::Alone),
    }
}

/// The line of this fault, if there is one.
pub(crate) fn tell_found(alloc: Global, found: &Option<ToldFault>) -> Result<Told, NoMemory>
    ensures { IfOk result (IsLineOf found.now) }
{
    match found {
        Some(fault) => {
            let line = fault.text(alloc)?;
            Ok(Told::More(line))
        }
        None => Ok(Told::Alone),
    }
}
