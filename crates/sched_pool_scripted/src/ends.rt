//! Whether the jobs that ended are those that were read.
ghost use Rattle.std.specs.Prelude.{◌≡◌, IsTrue};
ghost use Rattle.sched_pool_scripted.specs.Ends.{IsEndOf, AreEndsOf};

use sched_effect::{Ran, Scripted};
use sched_pool_json::JobRead;
use sched_retry::RetryEnd;

/// Whether each job that was read has its end, in order: with its plan, and with its script.
pub(crate) fn are_ends_of(jobs: &[JobRead], ends: &[RetryEnd<Scripted>]) -> bool
    ensures { IsTrue result → AreEndsOf jobs.now ends.now }
{
    if jobs.len() != ends.len() {
        return false;
    }
    for (at, job) in jobs.iter().enumerate() {
        if !is_end_of(job, &ends[at]) {
            return false;
        }
    }
    true
}

// Whether the job ended so: with its plan, and with its script.
fn is_end_of(job: &JobRead, end: &RetryEnd<Scripted>) -> bool
    ensures { IsTrue result → IsEndOf job.now end.now }
{
    job.plan().same(end.driver().plan()) && same_runs(job.script(), end.effect().script())
}

// Whether both have the same runs in the same order.
fn same_runs(runs: &[Ran], others: &[Ran]) -> bool
    ensures { IsTrue result → runs.now ≡ others.now }
{
    if runs.len() != others.len() {
        return false;
    }
    for (at, run) in runs.iter().enumerate() {
        if !same_run(*run, others[at]) {
            return false;
        }
    }
    true
}

// Whether both went the same way, with the same code.
fn same_run(run: Ran, other: Ran) -> bool
    ensures { IsTrue result → run ≡ other }
{
    match run {
        Ran::Won(code) => match other {
            Ran::Won(same) => code == same,
            Ran::Lost(_) => false,
        },
        Ran::Lost(code) => match other {
            Ran::Lost(same) => code == same,
            Ran::Won(_) => false,
        },
    }
}
