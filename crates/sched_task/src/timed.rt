//! A task as a future.
ghost use Rattle.std.specs.Prelude.{◌≡◌, ⊤, ℕ, true, List, Some, IsSome, IsSomeAnd, is_some};
ghost use Rattle.sched_task.specs.Course.{Course, Turn};

use crate::clocks::{Clock, moment_at};
use crate::tasks::Task;
use crate::words::four_words;
use futures::Future;
use futures::task::{Context, Poll};
use rand_core::Rng;
use sched_time::Tick;
use std::alloc::Global;
use std::marker::Model;

/// A task by a clock and a generator of random words, as a future that gives the task once it is over.
///
/// Each poll of it polls the task once. The moment is what the clock answers to `wait_until` where the task waits for a
/// moment, else to `now`; the words are the generator's next four. Where the task goes on, it asks to be polled again
/// at once. It is not to be polled after it was ready.
#[derive(Drop)]
pub struct Timed<T, C, G> {
    alloc: Global,
    task: Option<T>,
    clock: C,
    rng: G,
}

impl<T, C, G> Model for Timed<T, C, G> {
    ghost use Rattle.sched_task.specs.Course.{Timing};

    ghost Value = { Timing T C G };

    ghost view = { λ timed. record { task = timed.task; clock = timed.clock; rng = timed.rng } };
}

impl<T: Task, C: Clock, G: Rng> Timed<T, C, G> {
    /// The task by this clock and this generator. The allocator is for the task's polls.
    pub fn new(alloc: Global, task: T, clock: C, rng: G) -> Self
        ensures { result ≡ record { task = Some task; clock = clock; rng = rng } }
    {
        Timed {
            alloc,
            task: Some(task),
            clock,
            rng,
        }
    }
}

impl<T: Task, C: Clock + Drop, G: Rng + Drop> Future for Timed<T, C, G> {
    type Output = T;

    // Its task was not given yet.
    ghost can_poll = { λ timed. IsSome timed.task };

    // A pending poll has asked for another one.
    ghost needs = { λ _ _. ⊤ };

    ghost gives = { λ timed out. (is_some (T.ended out) ≡ true)
        × IsSomeAnd timed.task (λ task. (turns : List (Turn T C))
        × Course T.waits_for T.one_poll C.tells C.waits task timed.clock (G.stream timed.rng) turns out) };

    fn poll(&mut self, cx: &mut Context<'_>) -> Poll<T> {
        let Some(mut task) = self.task.take() else {
            unreachable!();
        };
        let now = moment_at(&mut self.clock, task.due());
        let words = four_words(&mut self.rng);
        match task.poll_at(self.alloc, &Tick { now, words }, cx) {
            Poll::Ready(()) => Poll::Ready(task),
            Poll::Pending => {
                self.task = Some(task);
                cx.yield_now()
            }
        }
    }
}
