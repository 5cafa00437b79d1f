//! The lines of jobs that have ended, and of their total.
ghost use Rattle.std.specs.Prelude.{◌≡◌, OnOk};
ghost use Rattle.sched_cli_pool.specs.PoolText.{Adds, last_code, ending_text, line_text, total_text, windows_text};

use sched_effect::Ran;
use sched_task::{How, RunFault};
use sched_time::NoMemory;
use std::fmt::Write;

/// Adds the line of one job at the end, with its line feed: `job K: won C, granted G` and the like, where C is the code
/// of its last finished run. Fails only with `NoMemory`.
pub fn push_line(
    lines: &mut String,
    number: usize,
    how: Option<How>,
    runs: &[Ran],
    granted: u64,
) -> Result<(), NoMemory>
    ensures { OnOk result (Adds lines.old (line_text number how runs.now granted) lines.new) }
{
    write!(lines, "job {number}: ")?;
    push_ending(lines, how, last_code(runs))?;
    write!(lines, ", granted {granted}\n")?;
    Ok(())
}

/// Adds the line of the total at the end. Fails only with `NoMemory`.
pub fn push_total(lines: &mut String, granted: u64, limit: u64) -> Result<(), NoMemory>
    ensures { OnOk result (Adds lines.old (total_text granted limit) lines.new) }
{
    write!(lines, "granted {granted} of {limit}\n")?;
    Ok(())
}

/// Adds the line of the total of a quota at the end: `granted T in W windows`. Fails only with `NoMemory`.
pub fn push_windows(lines: &mut String, granted: u64, windows: usize) -> Result<(), NoMemory>
    ensures { OnOk result (Adds lines.old (windows_text granted windows) lines.new) }
{
    write!(lines, "granted {granted} in {windows} windows\n")?;
    Ok(())
}

// Adds how a job ended.
fn push_ending(lines: &mut String, how: Option<How>, code: u64) -> Result<(), NoMemory>
    ensures { OnOk result (Adds lines.old (ending_text how code) lines.new) }
{
    match how {
        Some(How::Won) => write!(lines, "won {code}")?,
        Some(How::ScheduleDone) => write!(lines, "schedule done, failure {code}")?,
        Some(How::BudgetRefused) => write!(lines, "budget refused, failure {code}")?,
        Some(How::DeadlinePassed) => write!(lines, "deadline passed, failure {code}")?,
        Some(How::Failed) => write!(lines, "failed {code}")?,
        Some(How::Cancelled) => lines.push_str("cancelled")?,
        Some(How::Broken(RunFault::NoMemory)) => lines.push_str("broken, no memory")?,
        Some(How::Broken(RunFault::JournalFull)) => lines.push_str("broken, journal full")?,
        Some(How::Broken(RunFault::Backwards)) => lines.push_str("broken, clock went back")?,
        None => lines.push_str("not over")?,
    }
    Ok(())
}

// The code of the last run, or 0 where none has finished.
fn last_code(runs: &[Ran]) -> u64
    ensures { result ≡ last_code runs.now }
{
    match runs.last() {
        Some(Ran::Won(code) | Ran::Lost(code)) => code.get(),
        None => 0,
    }
}
