//! A job that was read as a retry.
ghost use Rattle.std.specs.Prelude.{◌≡◌, false, IfOk};
ghost use Rattle.sched_task_law.specs.Past.{nothing_until};

use sched_driver::Driver;
use sched_effect::Scripted;
use sched_pool_json::JobRead;
use sched_retry::Retry;
use sched_ticket_draws::Draws;
use sched_time::NoMemory;
use std::alloc::Global;

/// A retry of the job: its runs go as the job's script says, by the job's plan, and its tickets are drawn by this
/// value. Fails only with `NoMemory`.
pub(crate) fn retry_of<D: Draws>(
    alloc: Global,
    job: &JobRead,
    drawing: D,
) -> Result<Retry<Scripted, D>, NoMemory>
    ensures past { IfOk result (λ retry. retry.past ≡ nothing_until job.now.plan None) }
    ensures drawing { IfOk result (λ retry. retry.drawing ≡ drawing) }
    ensures had { IfOk result (λ retry. retry.had ≡ D.grants.granted drawing) }
    ensures untaken { IfOk result (λ retry. retry.untaken ≡ false) }
{
    let script = Vec::from_slice(alloc, job.script())?;
    let Some(effect) = Scripted::new(script) else {
        unreachable!()
    };
    let plan = job.plan().copy(alloc).map_err(|_| NoMemory)?;
    let driver = Driver::new(alloc, plan)?;
    Ok(Retry::new(alloc, effect, driver, drawing))
}
