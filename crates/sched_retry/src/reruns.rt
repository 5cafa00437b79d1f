//! Retries and repeats.
ghost use Rattle.std.specs.Prelude.{◌≡◌, ◌+◌, true, false, length, is_some, IfSome};
ghost use Rattle.sched_driver.specs.Driven.{Driven};
ghost use Rattle.sched_ticket_draws.specs.Freely.{free_grants};
ghost use Rattle.sched_task_law.specs.Kind.{retry, repeats};
ghost use Rattle.sched_task_law.specs.Past.{nothing_yet, bit};
ghost use Rattle.sched_task_law.specs.Law.{Law, is_stop};
ghost use Rattle.sched_run_machine.specs.Retrying.{IsAlong, KeepsLaw};
ghost use Rattle.sched_retry.specs.Ending.{EndingFits};

use crate::endings::{Ending, ending_of};
use crate::ends::RetryEnd;
use futures::task::{Context, Poll};
use sched_driver::Driver;
use sched_effect::{Coded, Effect};
use sched_run_machine::{Aims, Drives, Machine, Repeats, Retries, Runner, ready_where};
use sched_task::{How, Task};
use sched_ticket_draws::{Draws, Unlimited};
use sched_time::{Moment, Tick};
use std::alloc::Global;
use std::marker::Model;

/// An effect that is run again and again, as its driver's schedule says: by its aim a `Retry` or a `Repeat`.
///
/// Over a `Driver`, which keeps its journal, it ends at 65,536 events; over a `Stepper`, which keeps none, it does not.
/// Round either an `Until` sets a deadline.
#[derive(Drop)]
pub struct Rerun<X: Effect, D: Draws, R: Drives, A: Aims> {
    runner: Runner<X>,
    machine: Machine<R, D, A>,
    ending: Option<Ending<X::Item, X::Fault>>,
}

/// An effect that is run until it succeeds, again after each failure, with a ticket for each retry.
pub type Retry<X, D, R = Driver> = Rerun<X, D, R, Retries>;

/// An effect that is run again after each success, until it fails or the schedule is done. It draws no ticket.
pub type Repeat<X, R = Driver> = Rerun<X, Unlimited, R, Repeats>;

impl<X: Effect, D: Draws, R: Drives, A: Aims> Model for Rerun<X, D, R, A> {
    ghost use Rattle.std.specs.Prelude.{is_some};
    ghost use Rattle.sched_run_machine.specs.Retrying.{RetryingOf, coded_retrying};
    ghost use Rattle.sched_run_machine.specs.Of.{made_of, IsTask};

    ghost Value = { RetryingOf R D };

    ghost coded = { coded_retrying R.code D.code };

    ghost use Rattle.sched_retry.specs.Ending.{EndingFits};

    ghost view = { λ r. made_of R.driving D.grants r.machine r.runner (is_some r.ending) };

    ghost invariant = { λ r. IsTask R.driving D.grants (A.kind R.driving.keeps)
        (EndingFits X.Item.coded X.Fault.coded) r.machine r.runner r.ending };
}

impl<X: Effect, D: Draws, R: Drives> Rerun<X, D, R, Retries> {
    /// A retry that has not begun, and that draws its tickets by this value. It takes no memory.
    pub fn new(alloc: Global, effect: X, driver: R, drawing: D) -> Retry<X, D, R>
        requires driver { R.driving.fresh driver }
        requires effect { X.fresh effect }
        ensures past { result.past ≡ nothing_yet driver (R.driving.ends driver) }
        ensures drawing { result.drawing ≡ drawing }
        ensures had { result.had ≡ D.grants.granted drawing }
        ensures untaken { result.untaken ≡ false }
    {
        Rerun {
            runner: Runner::new(alloc, effect),
            machine: Machine::new(driver, drawing),
            ending: None,
        }
    }
}

impl<X: Effect, R: Drives> Rerun<X, Unlimited, R, Repeats> {
    /// A repeat that has not begun. It takes no memory.
    pub fn new(alloc: Global, effect: X, driver: R) -> Repeat<X, R>
        requires driver { R.driving.fresh driver }
        requires effect { X.fresh effect }
        ensures past { result.past ≡ nothing_yet driver (R.driving.ends driver) }
        ensures untaken { result.untaken ≡ false }
    {
        Rerun {
            runner: Runner::new(alloc, effect),
            machine: Machine::repeating(driver),
            ending: None,
        }
    }
}

impl<X: Effect, D: Draws, R: Drives, A: Aims> Rerun<X, D, R, A> {
    /// The ending, once, where the task is over; `None` before that and after it was taken.
    pub fn take_ending(&mut self) -> Option<Ending<X::Item, X::Fault>>
        ensures once { is_some result ≡ self.old.untaken }
        ensures taken { self.new ≡ record self.old { untaken = false } }
        ensures fits { IfSome result (EndingFits X.Item.coded X.Fault.coded self.old.past.over self.old.past.runs) }
    {
        self.ending.take()
    }

    /// The driver, with what it keeps of the runs that stepped it.
    pub fn driver(&self) -> &R
        ensures { result.now ≡ self.now.past.driver }
    {
        self.machine.driver()
    }

    /// The effect, with its finished runs.
    pub fn effect(&self) -> &X
        ensures { X.finished result.now ≡ self.now.past.runs }
    {
        self.runner.effect()
    }

    /// The moments at which runs were begun.
    pub fn begun(&self) -> &[Moment]
        ensures { result.now ≡ self.now.past.begun }
    {
        self.runner.begun()
    }

    /// How many tickets it was granted, without those of earlier retries. Those of a retry are as many as the events of
    /// its journal, less one where the schedule was done or the budget refused a ticket.
    pub fn granted(&self) -> u64
        ensures granted { result ≡ self.now.past.granted }
        ensures tickets { self.now.had + result ≡ D.grants.granted self.now.drawing }
        ensures events { repeats (A.kind R.driving.keeps) ≡ false → (d : Driven) →
            IsAlong R.driving D.grants (A.kind R.driving.keeps) self.now d →
            result + bit (is_stop self.now.past.over) ≡ length d.journal }
    {
        self.machine.granted()
    }

    /// The effect, the driver, and what it drew by, with all its tickets.
    pub fn into_parts(self) -> (X, R, D)
        ensures runs { X.finished result.0 ≡ self.past.runs }
        ensures driver { result.1 ≡ self.past.driver }
        ensures drawing { result.2 ≡ self.drawing }
        ensures stands { D.grants.stands result.2 }
    {
        let Rerun {
            runner,
            machine,
            ending: _,
        } = self;
        let (effect, _) = runner.into_parts();
        let (driver, drawing) = machine.into_parts();
        (effect, driver, drawing)
    }
}

impl<X: Effect, D: Draws> Rerun<X, D, Driver, Retries> {
    /// The end of a retry whose ending was not taken, and what it drew by, with all its tickets. It takes no memory.
    pub fn into_end(self) -> (RetryEnd<X>, D)
        requires untaken { self.untaken ≡ is_some self.past.over }
        ensures end { result.0 ≡ self.past }
        ensures law { Law retry result.0 }
        ensures drawing { result.1 ≡ self.drawing }
        ensures stands { D.grants.stands result.1 }
        ensures granted { D.grants.granted result.1 ≡ self.had + result.0.granted }
        ensures refused { result.0.denied ≡ true → D.grants.refused result.1 }
    {
        let Rerun {
            runner,
            machine,
            ending,
        } = self;
        let over = machine.over();
        let granted = machine.granted();
        let (effect, begun) = runner.into_parts();
        let (driver, drawing) = machine.into_parts();
        let end = RetryEnd {
            effect,
            driver,
            begun,
            over,
            ending,
            granted,
        };
        (end, drawing)
    }
}

impl<X: Effect, D: Draws, R: Drives, A: Aims> Task for Rerun<X, D, R, A> {
    ghost use Rattle.std.specs.Prelude.{◌≡◌};
    ghost use Rattle.sched_task_law.specs.Past.{waits_by, waits_by-over};
    ghost use Rattle.sched_run_machine.specs.Retrying.{TaskPoll, GivesUp as CancelsIt};

    ghost ended = { λ v. v.past.over };

    ghost waits_for = { λ v. waits_by (R.driving.starts v.past.driver) v.past };

    ghost one_poll = { TaskPoll R.driving D.grants (A.kind R.driving.keeps) };

    ghost gives_up = { CancelsIt D.grants };

    ghost rests = { λ v over. waits_by-over (R.driving.starts v.past.driver) v.past over };

    /// Polls the task once at the tick, and is ready where it is over.
    ///
    /// A run is polled, or begun, unless the task is over or waits for a later moment. A success ends a retry, and a
    /// failure a repeat. Another run steps the schedule; where that goes on, a retry draws a ticket, and with one it
    /// waits for the start planned, as a repeat does. Where another run would begin past the deadline it ends as
    /// `DeadlinePassed`. A refused step or growth ends it as `Broken`.
    fn poll_at(&mut self, alloc: Global, tick: &Tick, cx: &mut Context<'_>) -> Poll<()> {
        if self.machine.stays(tick) {
            return ready_where(self.machine.over());
        }
        if self.machine.is_too_late(tick.now) {
            self.machine.time_out(tick);
            self.ending = Some(Ending::DeadlinePassed);
            return Poll::Ready(());
        }
        let polled = self.runner.poll_run(tick, cx);
        self.machine.report_poll(alloc, tick, &polled);
        self.ending = ending_of(polled, self.machine.over());
        ready_where(self.machine.over())
    }

    /// The moment that it waits for, or `None` where it waits for none.
    fn due(&self) -> Option<Moment> {
        self.machine.due()
    }

    /// How it ended, or `None` where it is not over. Whenever it is asked, the law of the task holds.
    fn over(&self) -> Option<How>
        ensures over { result ≡ self.now.past.over }
        ensures law { KeepsLaw R.driving D.grants (A.kind R.driving.keeps) self.now }
    {
        self.machine.over()
    }

    /// Ends a task that is not over as `Cancelled`; one that is over stays as it is.
    fn cancel(&mut self) {
        if self.machine.over().is_some() {
            return;
        }
        self.machine.cancel();
        self.ending = Some(Ending::Cancelled);
    }
}
