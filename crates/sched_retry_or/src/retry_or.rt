//! Retries with a fallback.
ghost use Rattle.std.specs.Prelude.{◌≡◌, ◌+◌, false, is_some, IfSome};
ghost use Rattle.sched_task_law.specs.Past.{nothing_yet};
ghost use Rattle.sched_retry_or.specs.Falling.{FallingLaw};
ghost use Rattle.sched_retry_or.specs.Ending.{RetryOrFits};

use crate::endings::RetryOrEnding;
use crate::stops::{last_output, or_stopped, unless_stop};
use futures::task::{Context, Poll};
use sched_driver::Driver;
use sched_effect::{Coded, Effect, Fallback};
use sched_retry::Retry;
use sched_run_machine::{GivesOutput, ready_where};
use sched_task::{How, RunFault, Task};
use sched_ticket_draws::Draws;
use sched_time::{Moment, Tick};
use std::alloc::Global;
use std::marker::Model;

/// A retry that asks a fallback where its schedule is done or it is refused a ticket, and answers what that gives.
#[derive(Drop)]
pub struct RetryOr<X: Effect, D: Draws, F: Fallback<X>, R: GivesOutput = Driver> {
    retry: Retry<X, D, R>,
    over: Option<How>,
    stopped: Option<X::Fault>,
    ending: Option<RetryOrEnding<X::Item, X::Fault>>,
    fallback: F,
}

impl<X: Effect, D: Draws, F: Fallback<X>, R: GivesOutput> Model for RetryOr<X, D, F, R> {
    ghost use Rattle.std.specs.Prelude.{is_some};
    ghost use Rattle.sched_retry_or.specs.Falling.{Falling, coded_falling, IsFalling};

    ghost Value = { Falling R D };

    ghost coded = { coded_falling R.code D.code };

    ghost view = { λ r. record {
      retrying = r.retry;
      over = r.over;
      untaken = is_some r.ending;
      asked = F.asked r.fallback;
      answered = F.answered r.fallback;
    } };

    ghost invariant = { λ r. IsFalling R.driving R.outputs D.grants X.Item.coded X.Fault.coded record {
      retrying = r.retry;
      over = r.over;
      untaken = is_some r.ending;
      asked = F.asked r.fallback;
      answered = F.answered r.fallback;
    } r.stopped r.ending };
}

impl<X: Effect, D: Draws, F: Fallback<X>, R: GivesOutput> RetryOr<X, D, F, R> {
    /// A retry that has not begun, that draws its tickets by this value, with its fallback. It takes no memory.
    pub fn new(alloc: Global, effect: X, driver: R, drawing: D, fallback: F) -> RetryOr<X, D, F, R>
        requires driver { R.driving.fresh driver }
        requires effect { X.fresh effect }
        ensures past { result.retrying.past ≡ nothing_yet driver (R.driving.ends driver) }
        ensures drawing { result.retrying.drawing ≡ drawing }
        ensures had { result.retrying.had ≡ D.grants.granted drawing }
        ensures untaken { result.untaken ≡ false }
        ensures asked { result.asked ≡ F.asked fallback }
        ensures answered { result.answered ≡ F.answered fallback }
    {
        let retry = Retry::new(alloc, effect, driver, drawing);
        let over = retry.over();
        RetryOr {
            retry,
            over,
            stopped: None,
            ending: None,
            fallback,
        }
    }

    /// The ending, once, where the retry is over; `None` before that and after it was taken.
    pub fn take_ending(&mut self) -> Option<RetryOrEnding<X::Item, X::Fault>>
        ensures once { is_some result ≡ self.old.untaken }
        ensures taken { self.new ≡ record self.old { untaken = false } }
        ensures fits { IfSome result (RetryOrFits X.Item.coded X.Fault.coded
            self.old.over self.old.retrying.past.runs self.old.answered) }
    {
        self.ending.take()
    }

    /// The driver, with what it keeps of the failures.
    pub fn driver(&self) -> &R
        ensures { result.now ≡ self.now.retrying.past.driver }
    {
        self.retry.driver()
    }

    /// The effect, with its finished runs.
    pub fn effect(&self) -> &X
        ensures { X.finished result.now ≡ self.now.retrying.past.runs }
    {
        self.retry.effect()
    }

    /// The moments at which runs were begun.
    pub fn begun(&self) -> &[Moment]
        ensures { result.now ≡ self.now.retrying.past.begun }
    {
        self.retry.begun()
    }

    /// How many tickets it was granted, without those of earlier retries.
    pub fn granted(&self) -> u64
        ensures granted { result ≡ self.now.retrying.past.granted }
        ensures tickets { self.now.retrying.had + result ≡ D.grants.granted self.now.retrying.drawing }
    {
        self.retry.granted()
    }

    /// The effect, the driver, what it drew by, with all its tickets, and the fallback.
    pub fn into_parts(self) -> (X, R, D, F)
        ensures runs { X.finished result.0 ≡ self.retrying.past.runs }
        ensures driver { result.1 ≡ self.retrying.past.driver }
        ensures drawing { result.2 ≡ self.retrying.drawing }
        ensures stands { D.grants.stands result.2 }
        ensures asked { F.asked result.3 ≡ self.asked }
        ensures answered { F.answered result.3 ≡ self.answered }
    {
        let RetryOr {
            retry,
            over: _,
            stopped: _,
            ending: _,
            fallback,
        } = self;
        let (effect, driver, drawing) = retry.into_parts();
        (effect, driver, drawing, fallback)
    }
}

impl<X: Effect, D: Draws, F: Fallback<X>, R: GivesOutput> Task for RetryOr<X, D, F, R> {
    ghost use Rattle.std.specs.Prelude.{◌≡◌};
    ghost use Rattle.sched_retry_or.specs.Falling.{falls_due, falls_due-over, FallingPoll, GivesUp as CancelsIt};

    ghost ended = { λ v. v.over };

    ghost waits_for = { falls_due R.driving };

    ghost one_poll = { FallingPoll R.driving R.outputs D.grants };

    ghost gives_up = { CancelsIt D.grants };

    ghost rests = { falls_due-over R.driving };

    /// Polls the retry once at the tick, and is ready where it is over.
    ///
    /// It is polled as `Retry` is, except that it does not end where the schedule is done or a ticket is refused:
    /// then each later poll asks the fallback once, with the last failure and the driver's last output, until it
    /// answers.
    fn poll_at(&mut self, alloc: Global, tick: &Tick, cx: &mut Context<'_>) -> Poll<()> {
        if self.over.is_some() {
            return Poll::Ready(());
        }
        if let Some(fault) = &self.stopped {
            let output = last_output(self.retry.driver());
            return match self.fallback.poll_fallback(fault, output, cx) {
                Poll::Pending => Poll::Pending,
                Poll::Ready(Err(_)) => {
                    let cause = RunFault::NoMemory;
                    self.over = Some(How::Broken(cause));
                    self.ending = Some(RetryOrEnding::Broken(cause));
                    Poll::Ready(())
                }
                Poll::Ready(Ok(run)) => {
                    self.over = self.retry.over();
                    self.ending = Some(RetryOrEnding::Fallen(run));
                    Poll::Ready(())
                }
            };
        }
        let _ = self.retry.poll_at(alloc, tick, cx);
        let over = self.retry.over();
        let (stopped, ending) = or_stopped(self.retry.take_ending());
        self.over = unless_stop(over);
        self.stopped = stopped;
        self.ending = ending;
        ready_where(self.over)
    }

    /// The moment that it waits for, or `None` where it waits for none, as while its fallback is asked.
    fn due(&self) -> Option<Moment> {
        self.retry.due()
    }

    /// How it ended, or `None` where it is not over. Whenever it is asked, the law of a retry holds.
    fn over(&self) -> Option<How>
        ensures over { result ≡ self.now.over }
        ensures law { FallingLaw R.driving R.outputs D.grants self.now }
    {
        self.over
    }

    /// Ends a retry that is not over as `Cancelled`; one that is over stays as it is.
    fn cancel(&mut self) {
        if self.over.is_some() {
            return;
        }
        self.retry.cancel();
        self.over = Some(How::Cancelled);
        self.ending = Some(RetryOrEnding::Cancelled);
    }
}
