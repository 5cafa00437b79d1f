ghost use Rattle.std.specs.Prelude.{◌≡◌, IfOk, IsTrue};
ghost use Rattle.sched_plan.specs.Schedule.{one_in_range};
ghost use Rattle.sched_step.specs.Kept.{kept_mark, kept_phases};
ghost use Rattle.sched_step.specs.Progress.{one_view, one_keeps, one_began};
ghost use Rattle.sched_step.specs.StateOf.{event_of, first_kept};
ghost use Rattle.sched_step.specs.Step.{answered, begins, kept_origin, one_next, one_answers};

use crate::changes::change;
use crate::lists::Listed;
use crate::marks::Mark;
use crate::walks::Walk;
use sched_plan::{Fold, One, Val};
use sched_time::{Decision, Millis, Moment, NoMemory};
use std::alloc::Global;
use std::marker::Model;

/// What a node over one plan keeps beside the plan's state: what it is, and what the step under way makes of it.
#[derive(Drop)]
pub(crate) struct Kept {
    shape: KeptShape,
}

#[derive(Drop)]
pub(crate) enum KeptShape {
    /// Nothing.
    Bare,
    /// A mark of a few words.
    Marked { present: Mark, next: Mark },
    /// The outputs so far.
    Listed(Listed),
}

impl KeptShape {
    // A mark, with no step under way.
    fn at(present: Mark) -> KeptShape
        ensures { (kept_phases result).present ≡ kept_mark present }
    {
        let next = present;
        KeptShape::Marked { present, next }
    }
}

impl Model for Kept {
    ghost use Rattle.sched_step.specs.Phases.{KeptPhases, coded_kept_phases};

    ghost Value = { KeptPhases };

    ghost coded = { coded_kept_phases };

    ghost use Rattle.sched_step.specs.Kept.{kept_phases};

    ghost view = { λ k. kept_phases k.shape };
}

impl Kept {
    /// Before the first event. It takes no memory.
    pub(crate) fn initial(alloc: Global, node: One) -> Kept
        ensures { result.present ≡ first_kept node }
    {
        let shape = match node {
            One::Gather(Fold::List) => KeptShape::Listed(Listed::new(alloc)),
            One::Gather(Fold::Sum | Fold::Count | Fold::Max) => {
                KeptShape::at(Mark::Total(Millis::from(0)))
            }
            One::Within(_) | One::EndsBy(_) => KeptShape::at(Mark::Since(None)),
            One::Renew(_) => KeptShape::at(Mark::RoundSince(None)),
            One::RenewIdle(_) => KeptShape::at(Mark::LastAt(None)),
            One::Gate { .. }
            | One::Add(_)
            | One::Set(_)
            | One::Cap(_)
            | One::AddOut
            | One::Jitter { .. }
            | One::First
            | One::Second
            | One::Nothing => KeptShape::Bare,
        };
        Kept { shape }
    }

    /// The value that shows what is kept, beside that of the plan under the node.
    pub(crate) fn view(&self, alloc: Global, plan: Val) -> Result<Val, NoMemory>
        ensures { IfOk result (λ v. v ≡ one_view self.now.present plan) }
    {
        match &self.shape {
            KeptShape::Bare => Ok(plan),
            KeptShape::Listed(outputs) => {
                let shown = outputs.view(alloc)?;
                Val::pair(alloc, shown, plan)
            }
            KeptShape::Marked { present, .. } => present.view(alloc, plan),
        }
    }

    /// Whether it is of the node's kind.
    pub(crate) fn is_of(&self, node: One) -> bool
        ensures { result ≡ one_keeps node self.now.present }
    {
        match &self.shape {
            KeptShape::Bare => Mark::Bare.is_of(node),
            KeptShape::Listed(_) => match node {
                One::Gather(Fold::List) => true,
                _ => false,
            },
            KeptShape::Marked { present, .. } => present.is_of(node),
        }
    }

    /// Whether it has no moment after `now`.
    pub(crate) fn began_by(&self, now: Moment) -> bool
        ensures { result ≡ one_began self.now.present now }
    {
        match &self.shape {
            KeptShape::Bare | KeptShape::Listed(_) => true,
            KeptShape::Marked { present, .. } => present.began_by(now),
        }
    }

    /// An equal one. Fails only with `NoMemory`.
    pub(crate) fn copy(&self, alloc: Global) -> Result<Kept, NoMemory>
        ensures { IfOk result (λ kept. kept.present ≡ self.now.present) }
    {
        let shape = match &self.shape {
            KeptShape::Bare => KeptShape::Bare,
            KeptShape::Listed(outputs) => KeptShape::Listed(outputs.copy(alloc)?),
            KeptShape::Marked { present, .. } => KeptShape::Marked {
                present: *present,
                next: *present,
            },
        };
        Ok(Kept { shape })
    }

    /// The step under way makes it what it was before the first event.
    pub(crate) fn restart(&mut self, node: One)
        requires { IsTrue (one_keeps node self.old.present) }
        ensures present { self.new.present ≡ self.old.present }
        ensures next { self.new.next ≡ first_kept node }
    {
        match &mut self.shape {
            KeptShape::Bare => {}
            KeptShape::Listed(outputs) => outputs.restart(),
            KeptShape::Marked { present, next } => *next = present.origin(true, node),
        }
    }

    /// The step under way is taken. It takes no memory.
    pub(crate) fn commit(&mut self)
        ensures { self.new.present ≡ self.old.next }
    {
        match &mut self.shape {
            KeptShape::Bare => {}
            KeptShape::Listed(outputs) => outputs.commit(),
            KeptShape::Marked { present, next } => *present = *next,
        }
    }

    /// Whether the plan under the node begins anew at an event at `now`.
    pub(crate) fn begins(&self, node: One, now: Moment) -> bool
        requires { IsTrue (one_keeps node self.now.present) }
        ensures { result ≡ begins node self.now.present now }
    {
        match &self.shape {
            KeptShape::Bare | KeptShape::Listed(_) => false,
            KeptShape::Marked { present, .. } => present.begins(node, now),
        }
    }

    /// Notes what the step under way makes of it, and makes of the output and decision of the plan under the node those
    /// of the node.
    pub(crate) fn step(
        &mut self,
        walk: &Walk<'_>,
        node: &One,
        output: &mut Val,
        decision: &mut Decision,
    ) -> Result<(), NoMemory>
        requires valid { IsTrue (one_in_range node.now) }
        requires keeps { IsTrue (one_keeps node.now self.old.present) }
        ensures present { self.new.present ≡ self.old.present }
        ensures next { IfOk result (λ _. self.new.next ≡
            one_next node.now (kept_origin walk.now.fresh node.now self.old.present)
            (event_of walk.now.tick walk.now.input.now) (answered output.old decision.old)) }
        ensures answer { IfOk result (λ _. answered output.new decision.new ≡
            one_answers node.now (kept_origin walk.now.fresh node.now self.old.present)
            (event_of walk.now.tick walk.now.input.now) (answered output.old decision.old)) }
    {
        let from = match &mut self.shape {
            KeptShape::Bare => Mark::Bare,
            KeptShape::Listed(outputs) => return outputs.step(walk, output, *decision),
            KeptShape::Marked { present, next } => {
                let from = present.origin(walk.fresh, *node);
                *next = from.next(walk, node, output, decision);
                from
            }
        };
        change(walk, node, &from, output, decision);
        Ok(())
    }
}
