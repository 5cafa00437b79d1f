//! How calls of a closure ended, with what the last one gave.
ghost use Rattle.std.specs.Prelude.{◌≡◌, Some, true, false, is_some};
ghost use Rattle.sched_effect.specs.Runs.{ran_by};
ghost use Rattle.sched_closure.specs.Endings.{how_of, gave, how_of_repeat, gave_of_repeat, EndsCalls};

use sched_effect::Coded;
use sched_task::{How, RunFault};

/// How a closure that is called until it succeeds ended. Whatever its last call gave is in it.
#[derive(Drop)]
pub enum CallEnding<I: Drop, F: Drop> {
    /// The first success.
    Won(I),
    /// The failure at which the schedule was done.
    ScheduleDone(F),
    /// The failure at which the budget had no ticket.
    BudgetRefused(F),
    /// The failure before a wait that went past the deadline.
    DeadlinePassed(F),
    /// Why it could not go on, and the failure at which that was.
    Broken(RunFault, F),
}

impl<I: Drop, F: Drop> CallEnding<I, F> {
    /// How it ended.
    pub fn how(&self) -> How
        ensures { result ≡ how_of self.now }
    {
        match self {
            CallEnding::Won(_) => How::Won,
            CallEnding::ScheduleDone(_) => How::ScheduleDone,
            CallEnding::BudgetRefused(_) => How::BudgetRefused,
            CallEnding::DeadlinePassed(_) => How::DeadlinePassed,
            CallEnding::Broken(cause, _) => How::Broken(*cause),
        }
    }

    /// What the last call gave: its item, or its fault, whatever ended the retry at that.
    pub fn into_result(self) -> Result<I, F>
        ensures { result ≡ gave self }
    {
        match self {
            CallEnding::Won(item) => Ok(item),
            CallEnding::ScheduleDone(fault) => Err(fault),
            CallEnding::BudgetRefused(fault) => Err(fault),
            CallEnding::DeadlinePassed(fault) => Err(fault),
            CallEnding::Broken(_, fault) => Err(fault),
        }
    }
}

/// How a closure that is called again after each success ended. Whatever its last call gave is in it.
#[derive(Drop)]
pub enum RepeatCallEnding<I: Drop, F: Drop> {
    /// The success at which the schedule was done.
    ScheduleDone(I),
    /// The success before a wait that went past the deadline.
    DeadlinePassed(I),
    /// The first failure.
    Failed(F),
    /// Why it could not go on, and the success at which that was.
    Broken(RunFault, I),
}

impl<I: Drop, F: Drop> RepeatCallEnding<I, F> {
    /// How it ended.
    pub fn how(&self) -> How
        ensures { result ≡ how_of_repeat self.now }
    {
        match self {
            RepeatCallEnding::ScheduleDone(_) => How::ScheduleDone,
            RepeatCallEnding::DeadlinePassed(_) => How::DeadlinePassed,
            RepeatCallEnding::Failed(_) => How::Failed,
            RepeatCallEnding::Broken(cause, _) => How::Broken(*cause),
        }
    }

    /// What the last call gave: its item, whatever ended the repeat at that, or its fault.
    pub fn into_result(self) -> Result<I, F>
        ensures { result ≡ gave_of_repeat self }
    {
        match self {
            RepeatCallEnding::ScheduleDone(item) => Ok(item),
            RepeatCallEnding::DeadlinePassed(item) => Ok(item),
            RepeatCallEnding::Failed(fault) => Err(fault),
            RepeatCallEnding::Broken(_, item) => Ok(item),
        }
    }
}

/// The ending of a retry whose last call gave this, and which is over so.
pub(crate) fn retry_ending<I: Coded + Drop, F: Coded + Drop>(
    outcome: Result<I, F>,
    over: Option<How>,
) -> CallEnding<I, F>
    requires over { is_some over ≡ true }
    requires ends { EndsCalls false (ran_by I.coded F.coded outcome) over }
    ensures over { over ≡ Some (how_of result) }
    ensures gave { gave result ≡ outcome }
{
    match outcome {
        Ok(item) => CallEnding::Won(item),
        Err(fault) => match over {
            Some(How::ScheduleDone) => CallEnding::ScheduleDone(fault),
            Some(How::BudgetRefused) => CallEnding::BudgetRefused(fault),
            Some(How::DeadlinePassed) => CallEnding::DeadlinePassed(fault),
            Some(How::Broken(cause)) => CallEnding::Broken(cause, fault),
            None | Some(How::Won | How::Failed | How::Cancelled) => unreachable!(),
        },
    }
}

/// The ending of a repeat whose last call gave this, and which is over so.
pub(crate) fn repeat_ending<I: Coded + Drop, F: Coded + Drop>(
    outcome: Result<I, F>,
    over: Option<How>,
) -> RepeatCallEnding<I, F>
    requires over { is_some over ≡ true }
    requires ends { EndsCalls true (ran_by I.coded F.coded outcome) over }
    ensures over { over ≡ Some (how_of_repeat result) }
    ensures gave { gave_of_repeat result ≡ outcome }
{
    match outcome {
        Err(fault) => RepeatCallEnding::Failed(fault),
        Ok(item) => match over {
            Some(How::ScheduleDone) => RepeatCallEnding::ScheduleDone(item),
            Some(How::DeadlinePassed) => RepeatCallEnding::DeadlinePassed(item),
            Some(How::Broken(cause)) => RepeatCallEnding::Broken(cause, item),
            None | Some(How::Won | How::BudgetRefused | How::Failed | How::Cancelled) =>
                unreachable!(),
        },
    }
}
