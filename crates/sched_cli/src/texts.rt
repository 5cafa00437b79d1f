//! Printing what is asked for of a text that is there as a whole.
ghost use Rattle.std.specs.Prelude.{◌≡◌};
ghost use Rattle.sched_cli_pool.specs.JobsPrinting.{count_of_pool_reads, count_of_pool_writes};
ghost use Rattle.sched_cli.specs.Answering.{AnswersText, as_answer};

use crate::storms::storm_text;
use sched_cli_check::print_check;
use sched_cli_plan::{Given, PrintFault, Sink, print_course, print_plan};
use sched_cli_pool::{PoolFault, print_pool, print_quota_pool};
use sched_cli_words::Asked;
use std::alloc::{AllocGlobal, Global};
use std::random::RandomSource;
use std::sync::Wait;
use std::thread::Threads;

/// Does what is asked for with this text, and writes what is printed of it. No read fails.
pub(crate) fn print_text<R, W: Sink>(
    rt: &R,
    alloc: Global,
    bytes: &[u8],
    writer: &mut W,
    asked: &Asked,
) -> Result<(), PoolFault>
where
    R: Threads + Wait + RandomSource + AllocGlobal + Sync,
    ensures text { AnswersText bytes.now asked.now (W.taken writer.old) (W.taken writer.new) result }
    ensures reads { 0 ≡ count_of_pool_reads result 0 }
    ensures writes { W.failures writer.new ≡ count_of_pool_writes result (W.failures writer.old) }
{
    let mut reader = Given::new(bytes);
    match asked {
        Asked::Plan(options, _) => as_answer(print_plan(alloc, &mut reader, writer, options)),
        Asked::Course(course, _) => as_answer(print_course(alloc, &mut reader, writer, course)),
        Asked::Pool(options, _) => print_pool(rt, alloc, &mut reader, writer, options),
        Asked::Quota(options, _) => print_quota_pool(rt, alloc, &mut reader, writer, options),
        Asked::Storm(options, _) => storm_text(alloc, bytes, writer, options),
        Asked::Check(_) => as_answer(print_check(alloc, &mut reader, writer)),
    }
}

// What is answered of a printing.
fn as_answer(printed: Result<(), PrintFault>) -> Result<(), PoolFault>
    ensures { result ≡ as_answer printed }
{
    match printed {
        Ok(()) => Ok(()),
        Err(fault) => Err(PoolFault::Print(fault)),
    }
}
