//! The jobs as retries on a board.
ghost use Rattle.std.specs.Prelude.{◌≡◌, ◌≤◌, ◌<◌, ◌+◌, [], length, None, IfOk, OnOk};
ghost use Rattle.sched_ticket.specs.Held.{IsOf};

use crate::batches::BatchFault;
use crate::retries::retry_of;
use sched_effect::Scripted;
use sched_pool::{AddFault, Board};
use sched_pool_json::JobRead;
use sched_ticket::{Budget, Naming, Pass};
use sched_ticket_draws::OnBudget;
use std::alloc::Global;

/// A board with a retry of each job, in order, each with a pass of its own split off. The pass keeps its tickets.
pub(crate) fn boarded<'a, N: Naming>(
    alloc: Global,
    jobs: &[JobRead],
    budget: &'a Budget,
    pass: &mut Pass,
) -> Result<Board<'a, Scripted, N>, BatchFault>
    requires name { budget.now ≡ N.budget }
    requires of { IsOf budget.now pass.old }
    requires few { length jobs.now ≤ 4096 }
    ensures board { IfOk result (λ board. board ≡ record { jobs = length jobs.now; claims = None }) }
    ensures of { IsOf budget.now pass.new }
    ensures tickets { pass.new.has.tickets ≡ pass.old.has.tickets }
{
    let mut board = Board::new(alloc, budget);
    for job in jobs {
        let Ok(own) = pass.split(budget) else {
            return Err(BatchFault::Mixed);
        };
        enter(alloc, &mut board, job, own, budget)?;
    }
    Ok(board)
}

// Adds a retry of the job, with this pass, to a board that is open and has room.
fn enter<'a, N: Naming>(
    alloc: Global,
    board: &mut Board<'a, Scripted, N>,
    job: &JobRead,
    own: Pass,
    budget: &'a Budget,
) -> Result<(), BatchFault>
    requires name { budget.now ≡ N.budget }
    requires of { IsOf budget.now own }
    requires none { own.has.tickets ≡ [] }
    requires open { board.old.claims ≡ None }
    requires room { board.old.jobs < 4096 }
    ensures { OnOk result (board.new ≡ record board.old { jobs = board.old.jobs + 1 }) }
{
    let retry = retry_of(alloc, job, OnBudget::new(own, budget))?;
    match board.add(retry) {
        Ok(_) => Ok(()),
        Err(refused) => match refused.fault {
            AddFault::NoMemory => Err(BatchFault::NoMemory),
            AddFault::Sealed | AddFault::BoardFull => unreachable!(),
        },
    }
}
