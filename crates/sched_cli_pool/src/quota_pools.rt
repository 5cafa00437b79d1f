//! Printing a pool on a quota.
ghost use Rattle.std.specs.Prelude.{◌≡◌, ◌++◌, string_bytes, IfOk, IfErr};
ghost use Rattle.sched_cli_pool.specs.PoolText.{lines_from};
ghost use Rattle.sched_cli_pool.specs.JobsPrinting.{IsRunFault, count_of_pool_reads, count_of_pool_writes};
ghost use Rattle.sched_cli_pool.specs.QuotaPrinting.{RunsOnQuota, PrintsQuotaPool};

use crate::ended::{Ended, write_ended};
use crate::faults::PoolFault;
use crate::lines::push_windows;
use crate::pools::jobs_in;
use sched_cli_plan::{PrintFault, Sink, Source, read_all};
use sched_cli_words::QuotaOptions;
use sched_pool_json::JobRead;
use sched_pool_scripted::{QuotaBatch, QuotaBatchFault, run_on_quota};
use std::alloc::{AllocGlobal, Global};
use std::random::RandomSource;
use std::sync::Wait;

/// Reads jobs as JSON from `reader`, runs them on one thread as the options say, all on one quota, and writes to
/// `writer` a line for each job, in the order in which they were read, and one for the total.
///
/// Refused as `print_pool` is, but never as `NotStarted`.
pub fn print_quota_pool<R, S: Source, W: Sink>(
    rt: &R,
    alloc: Global,
    reader: &mut S,
    writer: &mut W,
    options: &QuotaOptions,
) -> Result<(), PoolFault>
where
    R: Wait + RandomSource + AllocGlobal,
    ensures text { PrintsQuotaPool options.now
        (S.left reader.old) (S.left reader.new) (W.taken writer.old) (W.taken writer.new) result }
    ensures reads { S.failures reader.new ≡ count_of_pool_reads result (S.failures reader.old) }
    ensures writes { W.failures writer.new ≡ count_of_pool_writes result (W.failures writer.old) }
{
    let bytes = read_all(alloc, reader)?;
    let jobs = jobs_in(alloc, &bytes)?;
    let ended = run_jobs(rt, alloc, &jobs, options)?;
    write_ended(alloc, &ended, writer)
}

// Runs the jobs as the options say.
fn run_jobs<R>(
    rt: &R,
    alloc: Global,
    jobs: &[JobRead],
    options: &QuotaOptions,
) -> Result<Ended, PoolFault>
where
    R: Wait + RandomSource + AllocGlobal,
    ensures ok { IfOk result (λ ended. RunsOnQuota options.now jobs.now ended.ends.items
        (lines_from 0 ended.ends.items ++ string_bytes ended.total)) }
    ensures err { IfErr result (IsRunFault ⊥) }
{
    let QuotaOptions { terms, turns } = *options;
    let QuotaBatch {
        ends,
        granted,
        windows,
    } = match run_on_quota(rt, jobs, terms, turns) {
        Ok(batch) => batch,
        Err(QuotaBatchFault::NoMemory) => return Err(PoolFault::Print(PrintFault::NoMemory)),
        Err(QuotaBatchFault::Mixed) => return Err(PoolFault::Mixed),
    };
    let mut total = String::new(alloc);
    push_windows(&mut total, granted, windows)?;
    Ok(Ended { ends, total })
}
