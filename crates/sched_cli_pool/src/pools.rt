//! Printing a pool on a budget.
ghost use Rattle.std.specs.Prelude.{◌≡◌, ◌≤◌, ◌++◌, length, string_bytes, vec_len, IfOk, IfErr};
ghost use Rattle.sched_cli_pool.specs.PoolText.{lines_from};
ghost use Rattle.sched_cli_pool.specs.JobsPrinting.{ReadsJobs, IsRunFault, count_of_pool_reads, count_of_pool_writes};
ghost use Rattle.sched_cli_pool.specs.PoolPrinting.{RunsOnBudget, PrintsPool};

use crate::ended::{Ended, write_ended};
use crate::faults::PoolFault;
use crate::lines::push_total;
use sched_cli_plan::{PrintFault, Sink, Source, read_all, read_value};
use sched_cli_words::PoolOptions;
use sched_pool_json::{JobRead, read_jobs};
use sched_pool_scripted::{Batch, BatchFault, run_batch};
use std::alloc::{AllocGlobal, Global};
use std::random::RandomSource;
use std::sync::Wait;
use std::thread::Threads;

/// Reads jobs as JSON from `reader`, runs them as the options say, all on one budget, and writes to `writer` a line for
/// each job, in the order in which they were read, and one for the total.
///
/// Refused as the `PrintFault`s `ReadFailed`, `TooLong`, `NotJson`, `NotAPlan`, `OutOfRange`, `TooDeep` and `TooMany`,
/// and as `NotStarted` and `Mixed`, with nothing written; as the `PrintFault`s `NoMemory` and `WriteFailed` with a
/// front of the text written; and as `Unfinished`, after the whole text, where a job did not end as won, schedule done
/// or budget refused.
pub fn print_pool<R, S: Source, W: Sink>(
    rt: &R,
    alloc: Global,
    reader: &mut S,
    writer: &mut W,
    options: &PoolOptions,
) -> Result<(), PoolFault>
where
    R: Threads + Wait + RandomSource + AllocGlobal + Sync,
    ensures text { PrintsPool options.now
        (S.left reader.old) (S.left reader.new) (W.taken writer.old) (W.taken writer.new) result }
    ensures reads { S.failures reader.new ≡ count_of_pool_reads result (S.failures reader.old) }
    ensures writes { W.failures writer.new ≡ count_of_pool_writes result (W.failures writer.old) }
{
    let bytes = read_all(alloc, reader)?;
    let jobs = jobs_in(alloc, &bytes)?;
    let ended = run_jobs(rt, alloc, &jobs, options)?;
    write_ended(alloc, &ended, writer)
}

// Runs the jobs as the options say.
fn run_jobs<R>(
    rt: &R,
    alloc: Global,
    jobs: &[JobRead],
    options: &PoolOptions,
) -> Result<Ended, PoolFault>
where
    R: Threads + Wait + RandomSource + AllocGlobal + Sync,
    requires { length jobs.now ≤ 4096 }
    ensures ok { IfOk result (λ ended. RunsOnBudget options.now jobs.now ended.ends.items
        (lines_from 0 ended.ends.items ++ string_bytes ended.total)) }
    ensures err { IfErr result (IsRunFault (Unit {0})) }
{
    let PoolOptions {
        workers,
        budget,
        turns,
    } = *options;
    let Batch { ends, granted } = match run_batch(rt, jobs, budget, workers, turns) {
        Ok(batch) => batch,
        Err(BatchFault::NoMemory) => return Err(PoolFault::Print(PrintFault::NoMemory)),
        Err(BatchFault::NotStarted) => return Err(PoolFault::NotStarted),
        Err(BatchFault::Mixed) => return Err(PoolFault::Mixed),
    };
    let mut total = String::new(alloc);
    push_total(&mut total, granted, budget)?;
    Ok(Ended { ends, total })
}

/// The jobs that the bytes spell.
#[tactic(auto, using(crate::proofs::JobsFaults::jobs_in_no_value, crate::proofs::JobsFaults::jobs_refused))]
pub(crate) fn jobs_in(alloc: Global, bytes: &[u8]) -> Result<Vec<JobRead>, PrintFault>
    ensures jobs { ReadsJobs bytes.now result }
    ensures few { IfOk result (λ jobs. vec_len jobs ≤ 4096) }
{
    let value = read_value(alloc, bytes)?;
    Ok(read_jobs(alloc, &value)?)
}
