//! What is repeated and retried.
ghost use Rattle.std.specs.Prelude.{◌≡◌, ◌++◌, [], List};
ghost use Rattle.futures.specs.Task.{Keeps};
ghost use Rattle.sched_effect.specs.Runs.{ended_by};
ghost use Rattle.sched_effect.specs.declared.ran.Ran.{Ran as Finished};

use crate::ran::{Coded, Ran};
use futures::task::{Context, Poll};
use sched_time::NoMemory;

/// Work that can be run again and again, one run after another. It keeps the list of its finished runs.
pub trait Effect: Drop {
    type Item: Coded + Drop;

    type Fault: Coded + Drop;

    // The finished runs, oldest first.
    ghost finished: { Self → List Finished };

    // Holds of an effect that has not begun its first run.
    ghost fresh: { Self → Type 0 };

    /// Polls the run under way, or begins one where there is none: the first poll, and each one after a `Ready`.
    /// A run that ends is listed; one that is pending, or that ends as `NoMemory`, is not.
    fn poll_run(
        &mut self,
        cx: &mut Context<'_>,
    ) -> Poll<Result<Result<Self::Item, Self::Fault>, NoMemory>>
        ensures runs { finished self.new ≡ finished self.old ++ ended_by Self.Item.coded Self.Fault.coded result }
        ensures kept { Keeps cx.old cx.new };

    /// The finished runs, oldest first.
    fn runs(&self) -> &[Ran]
        ensures { result.now ≡ finished self.now };

    // What has not begun has finished nothing.
    ghost unused: { (effect : Self) → fresh effect → finished effect ≡ [] };
}
