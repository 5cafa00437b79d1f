//! Effects whose runs are futures.
ghost use Rattle.std.specs.Prelude.{◌≡◌, ◌++◌, [], true, false};
ghost use Rattle.futures.specs.Poll.{IfReady, OnPending};
ghost use Rattle.futures.specs.Task.{Keeps};
ghost use Rattle.sched_effect.specs.Runs.{ended_by};

use crate::effects::Effect;
use crate::ran::{Coded, Ran, ran_of};
use futures::Future;
use futures::task::{Context, Poll};
use sched_time::NoMemory;
use std::alloc::Global;
use std::marker::Model;

/// What starts a run: a future that gives the run's item or its fault.
pub trait FutureAction: Drop {
    type Item: Coded + Drop;

    type Fault: Coded + Drop;

    type Run: Future<Output = Result<Self::Item, Self::Fault>>;

    /// Starts a run, which may be polled.
    fn start(&mut self) -> Self::Run
        ensures { Self.Run.can_poll result };
}

/// An effect whose runs are futures, one after another, each polled once in a poll. It keeps the list of its finished
/// runs: room for a run is reserved before it is started, so that nothing that finished is lost where memory is
/// refused.
#[derive(Drop)]
pub struct FutureCall<A: FutureAction> {
    action: A,
    under_way: Option<A::Run>,
    runs: Vec<Ran>,
}

impl<A: FutureAction> Model for FutureCall<A> {
    ghost use Rattle.std.specs.Prelude.{◌≡◌, ◌<◌, true, is_some, IfSome, vec_len, vec_capacity};
    ghost use Rattle.sched_effect.specs.Called.{Awaiting};

    ghost Value = { Awaiting };

    ghost view = { λ call. record { runs = call.runs.items; under_way = is_some call.under_way } };

    ghost invariant = { λ call. IfSome call.under_way (λ run. A.Run.can_poll run)
        × (is_some call.under_way ≡ true → vec_len call.runs < vec_capacity call.runs) };
}

impl<A: FutureAction> FutureCall<A> {
    /// An effect that starts each run by this action. It takes no memory yet.
    pub fn new(alloc: Global, action: A) -> Self
        ensures { result ≡ record { runs = []; under_way = false } }
    {
        FutureCall {
            action,
            under_way: None,
            runs: Vec::new(alloc),
        }
    }
}

impl<A: FutureAction> Effect for FutureCall<A> {
    type Item = A::Item;

    type Fault = A::Fault;

    ghost finished = { λ call. call.runs };

    ghost fresh = { λ call. (call.runs ≡ []) × (call.under_way ≡ false) };

    ghost unused = { λ call new. new.0 };

    /// Polls the run under way once, or starts one and polls that. Where memory is refused none is started.
    fn poll_run(
        &mut self,
        cx: &mut Context<'_>,
    ) -> Poll<Result<Result<A::Item, A::Fault>, NoMemory>>
        ensures runs { self.new.runs ≡ self.old.runs ++ ended_by A.Item.coded A.Fault.coded result }
        ensures kept { Keeps cx.old cx.new }
        ensures pending { OnPending result (self.new.under_way ≡ true) }
        ensures ended { IfReady result (λ _. self.new.under_way ≡ false) }
    {
        let mut run = match self.under_way.take() {
            Some(run) => run,
            None => {
                if self.runs.reserve(1).is_err() {
                    return Poll::Ready(Err(NoMemory));
                }
                self.action.start()
            }
        };
        match run.poll(cx) {
            Poll::Pending => {
                self.under_way = Some(run);
                Poll::Pending
            }
            Poll::Ready(outcome) => {
                self.runs.push_reserved(ran_of(&outcome));
                Poll::Ready(Ok(outcome))
            }
        }
    }

    fn runs(&self) -> &[Ran] {
        &self.runs
    }
}
