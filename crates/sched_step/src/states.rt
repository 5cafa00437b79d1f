ghost use Rattle.std.specs.Prelude.{◌≡◌, ℕ, [], IfOk, IsTrue};
ghost use Rattle.sched_time.specs.declared.numbers.TheConstants.{FAR};
ghost use Rattle.sched_step.specs.Progress.{fits, view_of};
ghost use Rattle.sched_step.specs.StateOf.{state_of};

use crate::trees::Tree;
use sched_plan::{Plan, Val};
use sched_time::{Moment, NoMemory};
use std::alloc::Global;
use std::marker::Model;

/// How far a plan has come: a tree of the plan's shape.
#[derive(Drop)]
pub struct State {
    pub(crate) tree: Tree,
}

impl Model for State {
    ghost use Rattle.sched_step.specs.Progress.{Progress};
    ghost use Rattle.sched_step.specs.ProgressCode.{coded_progress};

    ghost Value = { Progress };

    ghost coded = { coded_progress };

    ghost view = { λ s. s.tree.present };
}

impl State {
    /// The value that shows how far the plan has come. Fails only with `NoMemory`.
    pub fn view(&self, alloc: Global) -> Result<Val, NoMemory>
        ensures { IfOk result (λ v. v ≡ view_of self.now) }
    {
        self.tree.view(alloc)
    }

    /// Whether the state is of the plan's shape and keeps no first moment after `now`.
    pub fn fits(&self, plan: &Plan, now: Moment) -> bool
        ensures { result ≡ fits plan.now self.now now }
    {
        self.tree.fits(plan, now)
    }

    /// Makes it the plan's initial state, in place. It takes no memory. Its shape must fit the plan.
    pub fn renew(&mut self, plan: &Plan)
        requires { IsTrue (fits plan.now self.old FAR) }
        ensures value { self.new ≡ state_of plan.now [] }
        ensures fits { (now : ℕ) → IsTrue (fits plan.now self.new now) }
    {
        self.tree.restart(plan);
        self.tree.commit();
    }

    /// An equal state. Fails only with `NoMemory`.
    pub(crate) fn copy(&self, alloc: Global) -> Result<State, NoMemory>
        ensures { IfOk result (λ state. state ≡ self.now) }
    {
        let tree = self.tree.copy(alloc)?;
        Ok(State { tree })
    }
}

/// The state of the plan before its first event. Fails only with `NoMemory`.
pub fn initial(alloc: Global, plan: &Plan) -> Result<State, NoMemory>
    ensures value { IfOk result (λ state. state ≡ state_of plan.now []) }
    ensures fits { IfOk result (λ state. (now : ℕ) → IsTrue (fits plan.now state now)) }
{
    let tree = Tree::initial(alloc, plan)?;
    Ok(State { tree })
}
