//! Tasks that a loop polls at moments.
ghost use Rattle.std.specs.Prelude.{◌≡◌, ℕ, Bool, true, Option, None, is_some};
ghost use Rattle.futures.specs.Task.{Keeps};
ghost use Rattle.sched_time.specs.declared.numbers.Tick.{Tick as Ticked};
ghost use Rattle.sched_task.specs.Course.{is_ready};
ghost use Rattle.sched_task.specs.declared.endings.How.{How as Ending};

use crate::endings::How;
use futures::task::{Context, Poll};
use sched_time::{Moment, Tick};
use std::alloc::Global;

/// What is polled at moments until it is over. It may wait for a moment, and is not to be polled before that.
pub trait Task: Drop {
    // How it ended, where it is over.
    ghost ended: { Self → Option Ending };

    // The moment that it waits for, if any.
    ghost waits_for: { Self → Option ℕ };

    // Holds of a task, the tick of a poll, whether that poll was ready, and the task after it.
    ghost one_poll: { Self → Ticked → Bool → Self → Type 0 };

    // Holds of a task and what `cancel` makes of it.
    ghost gives_up: { Self → Self → Type 0 };

    /// Polls the task once at the tick: ready where it is over after this poll.
    fn poll_at(&mut self, alloc: Global, tick: &Tick, cx: &mut Context<'_>) -> Poll<()>
        ensures poll { one_poll self.old tick.entry.now (is_ready result) self.new }
        ensures answers { is_ready result ≡ is_some (ended self.new) }
        ensures kept { Keeps cx.old cx.new };

    /// The moment that it waits for, or `None` where it waits for none.
    fn due(&self) -> Option<Moment>
        ensures { result ≡ waits_for self.now };

    /// How it ended, or `None` where it is not over.
    fn over(&self) -> Option<How>
        ensures { result ≡ ended self.now };

    /// Ends a task that is not over as `Cancelled`.
    fn cancel(&mut self)
        ensures { gives_up self.old self.new };

    // What is over waits for nothing.
    ghost rests: { (task : Self) → is_some (ended task) ≡ true → waits_for task ≡ None };
}
