//! What is printed of jobs that have ended.
ghost use Rattle.std.specs.Prelude.{◌≡◌, ◌++◌, string_bytes};
ghost use Rattle.sched_cli_pool.specs.PoolText.{lines_from};
ghost use Rattle.sched_cli_plan.specs.Printing.{WritesText};
ghost use Rattle.sched_cli_plan.specs.Whole.{count_of_writes};
ghost use Rattle.sched_cli_pool.specs.JobsPrinting.{WritesPool, count_of_pool_writes, is_answered, all_answered};

use crate::faults::PoolFault;
use crate::lines::push_line;
use sched_cli_plan::{PrintFault, Sink, put_all, put_long};
use sched_effect::{Effect, Scripted};
use sched_retry::RetryEnd;
use sched_task::How;
use std::alloc::Global;

/// Jobs that have ended, and the line of their total.
#[derive(Drop)]
pub(crate) struct Ended {
    pub(crate) ends: Vec<RetryEnd<Scripted>>,
    pub(crate) total: String,
}

/// Writes the line of each job and that of the total, and tells whether each of the jobs answered.
pub(crate) fn write_ended<W: Sink>(
    alloc: Global,
    ended: &Ended,
    writer: &mut W,
) -> Result<(), PoolFault>
    ensures text { WritesPool (W.taken writer.old) (W.taken writer.new) ended.now.ends.items
        (lines_from 0 ended.now.ends.items ++ string_bytes ended.now.total) result }
    ensures counts { W.failures writer.new ≡ count_of_pool_writes result (W.failures writer.old) }
{
    write_lines(alloc, &ended.ends, ended.total.as_str(), writer)?;
    if have_answered(&ended.ends) {
        Ok(())
    } else {
        Err(PoolFault::Unfinished)
    }
}

// Writes the line of each job, many at a time, and the last line.
fn write_lines<W: Sink>(
    alloc: Global,
    ends: &[RetryEnd<Scripted>],
    last: &str,
    writer: &mut W,
) -> Result<(), PrintFault>
    ensures text { WritesText (W.taken writer.old) (W.taken writer.new) (lines_from 0 ends.now ++ last.now) result }
    ensures counts { W.failures writer.new ≡ count_of_writes result (W.failures writer.old) }
{
    let mut lines = String::new(alloc);
    for (number, end) in ends.iter().enumerate() {
        push_line(
            &mut lines,
            number,
            end.how(),
            end.effect().runs(),
            end.granted(),
        )?;
        put_long(writer, &mut lines)?;
    }
    lines.push_str(last)?;
    put_all(writer, lines.as_bytes())
}

// Whether each job won, or ended with a failure.
fn have_answered(ends: &[RetryEnd<Scripted>]) -> bool
    ensures { result ≡ all_answered ends.now }
{
    for end in ends {
        if !has_answered(end) {
            return false;
        }
    }
    true
}

// Whether the job won, or ended with a failure.
fn has_answered(end: &RetryEnd<Scripted>) -> bool
    ensures { result ≡ is_answered end.now.over }
{
    matches!(
        end.how(),
        Some(How::Won | How::ScheduleDone | How::BudgetRefused)
    )
}
