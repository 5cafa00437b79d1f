//! How a retry goes on to its fallback.
ghost use Rattle.std.specs.Prelude.{◌≡◌, true, Some, is_some, IfSome};
ghost use Rattle.sched_retry_or.specs.Stops.{or_stopped, unless_stop, EndsRetry};

use crate::endings::RetryOrEnding;
use sched_plan::Val;
use sched_retry::Ending;
use sched_run_machine::GivesOutput;
use sched_task::How;

// What the ending of the retry beneath leaves: the failure at which that stopped, or an ending.
pub(crate) fn or_stopped<I: Drop, F: Drop>(
    ending: Option<Ending<I, F>>,
) -> (Option<F>, Option<RetryOrEnding<I, F>>)
    requires { IfSome ending EndsRetry }
    ensures { result ≡ or_stopped ending }
{
    match ending {
        None => (None, None),
        Some(Ending::Won(item)) => (None, Some(RetryOrEnding::Won(item))),
        Some(Ending::ScheduleDone(Err(fault))) => (Some(fault), None),
        Some(Ending::BudgetRefused(fault)) => (Some(fault), None),
        Some(Ending::DeadlinePassed) => (None, Some(RetryOrEnding::DeadlinePassed)),
        Some(Ending::Cancelled) => (None, Some(RetryOrEnding::Cancelled)),
        Some(Ending::Broken(cause)) => (None, Some(RetryOrEnding::Broken(cause))),
        Some(Ending::Failed(_)) => unreachable!(),
        Some(Ending::ScheduleDone(Ok(_))) => unreachable!(),
    }
}

// How a retry with a fallback is over where the retry beneath is over so: where that stops, the fallback is asked.
pub(crate) fn unless_stop(over: Option<How>) -> Option<How>
    ensures { result ≡ unless_stop over }
{
    match over {
        Some(How::ScheduleDone | How::BudgetRefused) => None,
        None
        | Some(How::Won | How::DeadlinePassed | How::Failed | How::Cancelled | How::Broken(_)) => {
            over
        }
    }
}

// The driver's last output, where it has given one.
pub(crate) fn last_output<R: GivesOutput>(driver: &R) -> &Val
    requires { is_some (R.outputs driver.now) ≡ true }
    ensures { R.outputs driver.now ≡ Some result.now }
{
    driver.last().unwrap()
}
