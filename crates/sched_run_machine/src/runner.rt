//! An effect with the beginnings of its runs.
ghost use Rattle.std.specs.Prelude.{◌≡◌, [], is_some};
ghost use Rattle.futures.specs.Task.{Keeps};
ghost use Rattle.sched_task.specs.Course.{is_ready};
ghost use Rattle.sched_task_law.specs.Past.{is_under_way};
ghost use Rattle.sched_run_machine.specs.Runner.{RunPolls};

use futures::task::{Context, Poll};
use sched_effect::Effect;
use sched_task::How;
use sched_time::{Moment, Tick};
use std::alloc::Global;
use std::marker::Model;

/// What a poll of the run under way gave.
#[derive(Drop)]
pub enum Polled<I: Drop, F: Drop> {
    /// There is no memory to note the beginning of a run, and nothing was polled.
    CannotBegin,
    /// The run is not finished.
    Pending,
    /// There is no memory for the run.
    CannotRun,
    /// The run is finished.
    Finished(Result<I, F>),
}

/// An effect, and the moments at which its runs were begun.
#[derive(Drop)]
pub struct Runner<X: Effect> {
    effect: X,
    begun: Vec<Moment>,
}

impl<X: Effect> Model for Runner<X> {
    ghost use Rattle.sched_run_machine.specs.Runner.{Runs};

    ghost Value = { Runs };

    ghost view = { λ r. record { runs = X.finished r.effect; begun = r.begun.items } };
}

impl<X: Effect> Runner<X> {
    /// An effect of which no run has begun. It takes no memory.
    pub fn new(alloc: Global, effect: X) -> Runner<X>
        ensures runs { result.runs ≡ X.finished effect }
        ensures begun { result.begun ≡ [] }
    {
        Runner {
            effect,
            begun: Vec::new(alloc),
        }
    }

    /// The effect.
    pub fn effect(&self) -> &X
        ensures { X.finished result.now ≡ self.now.runs }
    {
        &self.effect
    }

    /// The moments at which runs were begun.
    pub fn begun(&self) -> &[Moment]
        ensures { result.now ≡ self.now.begun }
    {
        &self.begun
    }

    /// The effect and the beginnings.
    pub fn into_parts(self) -> (X, Vec<Moment>)
        ensures runs { X.finished result.0 ≡ self.runs }
        ensures begun { result.1.items ≡ self.begun }
    {
        let Runner { effect, begun } = self;
        (effect, begun)
    }

    // Whether a run was begun and has not finished.
    fn is_under_way(&self) -> bool
        ensures { result ≡ is_under_way self.now.runs self.now.begun }
    {
        self.effect.runs().len() < self.begun.len()
    }

    /// Polls the run under way. Where none is, it first notes the tick's moment as the beginning of one.
    ///
    /// A run that finishes is the one that the effect lists. No clause says how often a run that is pending was polled:
    /// a poll leaves no trace in an effect that a contract could name.
    pub fn poll_run(&mut self, tick: &Tick, cx: &mut Context<'_>) -> Polled<X::Item, X::Fault>
        ensures polls { RunPolls X.Item.coded X.Fault.coded self.old tick.entry.now result self.new }
        ensures kept { Keeps cx.old cx.new }
    {
        if !self.is_under_way() && self.begun.push(tick.now).is_err() {
            return Polled::CannotBegin;
        }
        match self.effect.poll_run(cx) {
            Poll::Pending => Polled::Pending,
            Poll::Ready(Err(_)) => Polled::CannotRun,
            Poll::Ready(Ok(run)) => Polled::Finished(run),
        }
    }
}

/// Ready where it is over.
pub fn ready_where(over: Option<How>) -> Poll<()>
    ensures { is_ready result ≡ is_some over }
{
    match over {
        Some(_) => Poll::Ready(()),
        None => Poll::Pending,
    }
}
