//! What a task hands out once it is over.
ghost use Rattle.std.specs.Prelude.{◌≡◌, Some, IfSome};
ghost use Rattle.sched_run_machine.specs.Runner.{given_by};
ghost use Rattle.sched_retry.specs.Ending.{how_of, over_by, CanEnd, CanBeOver, HandsOut};

use sched_run_machine::Polled;
use sched_task::{How, RunFault};

/// How a retry or a repeat ended, with what it ended with.
#[derive(Drop)]
pub enum Ending<I: Drop, F: Drop> {
    /// The first success of a retry.
    Won(I),
    /// The first failure of a repeat.
    Failed(F),
    /// What the last run gave, at which the schedule was done: of a retry a failure, of a repeat a success.
    ScheduleDone(Result<I, F>),
    /// The failure at which the budget had no ticket.
    BudgetRefused(F),
    /// Its next run would have begun past its deadline.
    DeadlinePassed,
    /// It was cancelled.
    Cancelled,
    /// It could not go on.
    Broken(RunFault),
}

impl<I: Drop, F: Drop> Ending<I, F> {
    /// How the task ended.
    pub fn how(&self) -> How
        ensures { result ≡ how_of self.now }
    {
        match self {
            Ending::Won(_) => How::Won,
            Ending::Failed(_) => How::Failed,
            Ending::ScheduleDone(_) => How::ScheduleDone,
            Ending::BudgetRefused(_) => How::BudgetRefused,
            Ending::DeadlinePassed => How::DeadlinePassed,
            Ending::Cancelled => How::Cancelled,
            Ending::Broken(cause) => How::Broken(*cause),
        }
    }
}

// The ending of a task whose run gave this when it was polled and which is over so, or `None` where it goes on.
pub(crate) fn ending_of<I: Drop, F: Drop>(
    polled: Polled<I, F>,
    over: Option<How>,
) -> Option<Ending<I, F>>
    requires { CanBeOver polled over }
    ensures over { over ≡ over_by result }
    ensures value { IfSome result (HandsOut (given_by polled)) }
{
    match polled {
        Polled::Pending => None,
        Polled::CannotBegin | Polled::CannotRun => Some(Ending::Broken(RunFault::NoMemory)),
        Polled::Finished(run) => match over {
            None => None,
            Some(how) => Some(ended_by(run, how)),
        },
    }
}

// The ending of a task that a run ended so.
fn ended_by<I: Drop, F: Drop>(run: Result<I, F>, how: How) -> Ending<I, F>
    requires { CanEnd run how }
    ensures over { how ≡ how_of result }
    ensures value { HandsOut (Some run) result }
{
    match run {
        Ok(item) => match how {
            How::Won => Ending::Won(item),
            How::ScheduleDone => Ending::ScheduleDone(Ok(item)),
            How::Broken(cause) => Ending::Broken(cause),
            How::BudgetRefused | How::DeadlinePassed | How::Failed | How::Cancelled =>
                unreachable!(),
        },
        Err(fault) => match how {
            How::Failed => Ending::Failed(fault),
            How::ScheduleDone => Ending::ScheduleDone(Err(fault)),
            How::BudgetRefused => Ending::BudgetRefused(fault),
            How::Broken(cause) => Ending::Broken(cause),
            How::Won | How::DeadlinePassed | How::Cancelled => unreachable!(),
        },
    }
}
