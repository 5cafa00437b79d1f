//! Jobs: retries whose budget is named by their type.
ghost use Rattle.std.specs.Prelude.{◌≡◌, length, is_some};
ghost use Rattle.sched_ticket.specs.Held.{IsOf};
ghost use Rattle.sched_task_law.specs.Kind.{retry};
ghost use Rattle.sched_driver.specs.Driven.{next_start_of};
ghost use Rattle.sched_task_law.specs.Past.{waits_by};
ghost use Rattle.sched_task_law.specs.Law.{Law};
ghost use Rattle.sched_pool_job.specs.Jobs.{IsSeen, IsRefusedBy};

use crate::sights::Seen;
use futures::task::{Context, Poll};
use sched_effect::Effect;
use sched_retry::{Retry, RetryEnd};
use sched_task::{How, Task};
use sched_ticket::{Budget, Naming, Pass};
use sched_ticket_draws::OnBudget;
use sched_time::{Moment, Tick};
use std::alloc::Global;
use std::marker::{Model, PhantomData};

/// A retry that draws on the budget `N`, and whose ending is taken with the job alone.
#[derive(Drop)]
pub struct Job<'a, X: Effect, N: Naming> {
    retry: Retry<X, OnBudget<&'a Budget>>,
    name: PhantomData<N>,
}

impl<'a, X: Effect, N: Naming> Model for Job<'a, X, N> {
    ghost use Rattle.sched_ticket_draws.specs.Budgets.{OfBudget};
    ghost use Rattle.sched_driver.specs.Driven.{coded_driven};
    ghost use Rattle.sched_run_machine.specs.Retrying.{Retrying, coded_retrying};
    ghost use Rattle.sched_pool_job.specs.Jobs.{IsJob, coded_of_budget};

    ghost Value = { Retrying OfBudget };

    ghost coded = { coded_retrying coded_driven coded_of_budget };

    ghost view = { λ j. j.retry };

    ghost invariant = { λ j. IsJob N.budget j.retry };
}

impl<'a, X: Effect, N: Naming> Job<'a, X, N> {
    /// A job of this retry, whose pass had no ticket before it. It takes no memory.
    pub fn new(retry: Retry<X, OnBudget<&'a Budget>>) -> Job<'a, X, N>
        requires of { retry.drawing.budget ≡ N.budget }
        requires had { retry.had ≡ 0 }
        requires untaken { retry.untaken ≡ is_some retry.past.over }
        ensures { result ≡ retry.entry }
    {
        Job {
            retry,
            name: PhantomData,
        }
    }

    /// What it shows now.
    pub fn seen(&self) -> Seen
        ensures over { result.over ≡ self.now.past.over }
        ensures due { result.due ≡ waits_by (next_start_of self.now.past.driver) self.now.past }
        ensures events { result.events ≡ length self.now.past.driver.journal }
        ensures granted { result.granted ≡ self.now.past.granted }
        ensures law { IsSeen result }
    {
        Seen {
            over: self.retry.over(),
            due: self.retry.due(),
            events: self.retry.driver().journal().len(),
            granted: self.retry.granted(),
        }
    }

    /// Its end, and the pass with the tickets that it was granted.
    pub fn into_end(self) -> (RetryEnd<X>, Pass)
        ensures end { result.0 ≡ self.entry.past }
        ensures pass { result.1 ≡ self.entry.drawing.pass }
        ensures of { IsOf N.budget result.1 }
        ensures granted { result.0.granted ≡ length result.1.has.tickets }
        ensures refused { IsRefusedBy result.1 result.0 }
        ensures law { Law retry result.0 }
    {
        let Job { retry, name: _ } = self;
        let (end, drawing) = retry.into_end();
        let (pass, _) = drawing.into_parts();
        (end, pass)
    }
}

impl<'a, X: Effect, N: Naming> Task for Job<'a, X, N> {
    ghost use Rattle.std.specs.Prelude.{◌≡◌};
    ghost use Rattle.sched_task_law.specs.Kind.{retry};
    ghost use Rattle.sched_driver.specs.Driven.{next_start_of};
    ghost use Rattle.sched_task_law.specs.Past.{waits_by, waits_by-over};
    ghost use Rattle.sched_ticket_draws.specs.Budgets.{budget_grants};
    ghost use Rattle.sched_run_machine.specs.Retrying.{RetryPoll, GivesUp};

    ghost ended = { λ v. v.past.over };

    ghost waits_for = { λ v. waits_by (next_start_of v.past.driver) v.past };

    ghost one_poll = { RetryPoll budget_grants retry };

    ghost gives_up = { GivesUp budget_grants };

    ghost rests = { λ v over. waits_by-over (next_start_of v.past.driver) v.past over };

    fn poll_at(&mut self, alloc: Global, tick: &Tick, cx: &mut Context<'_>) -> Poll<()> {
        self.retry.poll_at(alloc, tick, cx)
    }

    fn due(&self) -> Option<Moment> {
        self.retry.due()
    }

    fn over(&self) -> Option<How> {
        self.retry.over()
    }

    fn cancel(&mut self) {
        self.retry.cancel();
    }
}
