//! Effects made of an action.
ghost use Rattle.std.specs.Prelude.{◌≡◌, ⊤, ◌++◌, [], Result};
ghost use Rattle.futures.specs.Task.{Keeps};
ghost use Rattle.sched_effect.specs.Runs.{ended_by};
ghost use Rattle.sched_effect.specs.Called.{RunOnce};

use crate::effects::Effect;
use crate::ran::{Coded, Ran, ran_of};
use futures::task::{Context, Poll};
use sched_time::NoMemory;
use std::alloc::Global;
use std::marker::Model;

/// What is done in a run. A type that may always be taken writes its two types and `run`, and no ghost line.
pub trait Action: Drop {
    type Item: Coded + Drop;

    type Fault: Coded + Drop;

    // Holds of an action that may be taken.
    ghost can_run: { Self → Type 0 } = { λ _. ⊤ };

    // Holds of an action, what it gives where it is taken once, and the action after that.
    ghost gives: { Self → Result Self.Item Self.Fault → Self → Type 0 } = { λ _ _ _. ⊤ };

    /// Takes the action once.
    fn run(&mut self) -> Result<Self::Item, Self::Fault>
        requires { can_run self.old }
        ensures again { can_run self.new }
        ensures gave { gives self.old result self.new };
}

/// An effect whose runs take an action once each. It keeps the list of its finished runs: room for a run is reserved
/// before the action is taken, so that nothing that finished is lost where memory is refused.
#[derive(Drop)]
pub struct Call<A: Action> {
    action: A,
    runs: Vec<Ran>,
}

impl<A: Action> Model for Call<A> {
    ghost use Rattle.sched_effect.specs.Called.{Calling};

    ghost Value = { Calling A };

    ghost view = { λ call. record { action = call.action; runs = call.runs.items } };

    ghost invariant = { λ call. A.can_run call.action };
}

impl<A: Action> Call<A> {
    /// An effect that takes this action in each run. It takes no memory yet.
    pub fn new(alloc: Global, action: A) -> Self
        requires { A.can_run action }
        ensures { result ≡ record { action = action; runs = [] } }
    {
        Call {
            action,
            runs: Vec::new(alloc),
        }
    }
}

impl<A: Action> Effect for Call<A> {
    type Item = A::Item;

    type Fault = A::Fault;

    ghost finished = { λ call. call.runs };

    ghost fresh = { λ call. call.runs ≡ [] };

    ghost unused = { λ call new. new };

    /// Takes the action once. Where memory is refused it is not taken.
    fn poll_run(
        &mut self,
        _cx: &mut Context<'_>,
    ) -> Poll<Result<Result<A::Item, A::Fault>, NoMemory>>
        ensures runs { self.new.runs ≡ self.old.runs ++ ended_by A.Item.coded A.Fault.coded result }
        ensures kept { Keeps _cx.old _cx.new }
        ensures once { RunOnce A.gives self.old.action result self.new.action }
    {
        if self.runs.reserve(1).is_err() {
            return Poll::Ready(Err(NoMemory));
        }
        let run = self.action.run();
        let _ = self.runs.push(ran_of(&run));
        Poll::Ready(Ok(run))
    }

    fn runs(&self) -> &[Ran] {
        &self.runs
    }
}
