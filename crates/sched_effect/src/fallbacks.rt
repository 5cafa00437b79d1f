//! What answers instead of an effect that has failed for good.
ghost use Rattle.std.specs.Prelude.{◌≡◌, ℕ, Option, option_map};
ghost use Rattle.futures.specs.Task.{Keeps};
ghost use Rattle.sched_plan.specs.Datum.{Datum};
ghost use Rattle.sched_effect.specs.Runs.{Falls};
ghost use Rattle.sched_effect.specs.declared.ran.Ran.{Ran as Finished};

use crate::effects::Effect;
use crate::ran::Ran;
use futures::task::{Context, Poll};
use sched_plan::Val;
use sched_time::{Millis, NoMemory};

/// What is asked with the last failure of an effect, once its schedule is done or its budget is refused.
/// It keeps what it was asked with last, and what it answered.
pub trait Fallback<X: Effect>: Drop {
    // The code of the fault and the schedule's output that it was asked with last.
    ghost asked: { Self → Option (ℕ × Datum) };

    // Its answer to that.
    ghost answered: { Self → Option Finished };

    /// Asks with this fault and the driver's last output.
    fn poll_fallback(
        &mut self,
        fault: &X::Fault,
        output: &Val,
        cx: &mut Context<'_>,
    ) -> Poll<Result<Result<X::Item, X::Fault>, NoMemory>>
        ensures falls { Falls X.Item.coded X.Fault.coded result (X.Fault.coded fault.now) output.now
            (asked self.new) (answered self.new) }
        ensures kept { Keeps cx.old cx.new };

    /// The code of the fault and the output that it was asked with last.
    fn asked(&self) -> Option<(Millis, &Val)>
        ensures { option_map (λ ask. (ask.0, ask.1.now)) result ≡ asked self.now };

    /// Its answer to that, by its code, or `None` where it has none yet.
    fn answered(&self) -> Option<Ran>
        ensures { result ≡ answered self.now };
}
