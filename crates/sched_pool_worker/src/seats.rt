//! A claimed job as a task of the loop.
ghost use Rattle.std.specs.Prelude.{◌≡◌};

use crate::gates::Gate;
use futures::task::{Context, Poll};
use sched_task::{How, Task};
use sched_time::{Moment, Tick};
use std::alloc::Global;
use std::marker::Model;
use std::sync::{Mutex, Wait};

/// A claimed job behind its lock, and what the lock showed last. A cancel beside it can overtake the moment that it
/// waits for; what is over stays so.
#[derive(Drop)]
pub(crate) struct Seat<'b, T, R, Q> {
    rt: &'b R,
    gate: &'b Q,
    job: &'b Mutex<T>,
    number: usize,
    over: Option<How>,
    due: Option<Moment>,
}

impl<'b, T, R, Q> Model for Seat<'b, T, R, Q> {
    ghost use Rattle.sched_pool_worker.specs.Working.{Noted};

    ghost Value = { Noted };

    ghost view = { λ s. record { number = s.number; over = s.over; due = s.due } };
}

impl<'b, T: Task, R: Wait, Q: Gate> Seat<'b, T, R, Q> {
    /// The seat of the job with this number, as the job's lock shows it now.
    pub(crate) fn take(
        rt: &'b R,
        gate: &'b Q,
        job: &'b Mutex<T>,
        number: usize,
    ) -> Seat<'b, T, R, Q>
        ensures { result.number ≡ number }
    {
        let mut seat = Seat {
            rt,
            gate,
            job,
            number,
            over: None,
            due: None,
        };
        let locked = job.lock(rt);
        seat.note(&*locked);
        seat
    }

    // Notes what the job shows.
    fn note(&mut self, job: &T)
        ensures { self.new ≡ record { number = self.old.number; over = T.ended job.now; due = T.waits_for job.now } }
    {
        self.over = job.over();
        self.due = job.due();
    }
}

impl<'b, T: Task, R: Wait, Q: Gate> Task for Seat<'b, T, R, Q> {
    ghost use Rattle.std.specs.Prelude.{◌≡◌, None, if◌then◌else◌, is_some, refl};
    ghost use Rattle.sched_pool_worker.specs.Working.{IsPolledSeat};

    ghost ended = { λ s. s.over };

    ghost waits_for = { λ s. if is_some s.over then None else s.due };

    ghost one_poll = { λ s tick ready after. IsPolledSeat s after };

    ghost gives_up = { λ s after. after.number ≡ s.number };

    ghost rests = { λ s over. rw over refl };

    fn poll_at(&mut self, alloc: Global, tick: &Tick, cx: &mut Context<'_>) -> Poll<()> {
        if self.over.is_some() {
            return Poll::Ready(());
        }
        if !self.gate.ready(self.number) {
            return Poll::Pending;
        }
        let mut locked = self.job.lock(self.rt);
        let polled = locked.poll_at(alloc, tick, cx);
        self.note(&*locked);
        drop(locked);
        self.gate.polled(self.number);
        polled
    }

    fn due(&self) -> Option<Moment> {
        if self.over.is_some() { None } else { self.due }
    }

    fn over(&self) -> Option<How> {
        self.over
    }

    fn cancel(&mut self) {
        let mut locked = self.job.lock(self.rt);
        locked.cancel();
        self.note(&*locked);
    }
}
