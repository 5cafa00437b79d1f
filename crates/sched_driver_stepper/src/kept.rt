ghost use Rattle.std.specs.Prelude.{◌≡◌, ℕ, ◌≤◌, List, [], ◌∷◌, ◌++◌, IfOk, IfErr, IsTrue};
ghost use Rattle.sched_time.specs.declared.numbers.TheConstants.{FAR};
ghost use Rattle.sched_plan.specs.declared.history.Event.{Event};
ghost use Rattle.sched_step.specs.Progress.{fits};
ghost use Rattle.sched_step.specs.StateOf.{state_of, event_of};
ghost use Rattle.sched_driver_stepper.specs.Kept.{IsKeptAfter, IsFirstKept, KeptFits, KeptSteps, TreeSteps};

use sched_plan::{Plan, Val};
use sched_step::{State, initial};
use sched_step_flat::{Record, has_record};
use sched_time::{Decision, NoMemory, Tick};
use std::alloc::Global;
use std::sync::Arc;

/// How far a plan has come.
#[derive(Drop)]
pub(crate) enum Kept {
    /// As words, of which a step takes no memory; and those before the first event, where they are known.
    Flat(Record, Option<Arc<Record>>),
    /// As a tree, where the plan's decisions read more of an output than a number.
    Tree(State),
}

impl Kept {
    /// Before the first event. Fails only with `NoMemory`.
    #[inline(always)]
    pub(crate) fn new(alloc: Global, plan: &Plan) -> Result<Kept, NoMemory>
        ensures { IfOk result (λ kept. IsFirstKept plan.now kept) }
    {
        if has_record(plan) {
            return Ok(Kept::Flat(Record::new(alloc, plan)?, None));
        }
        Ok(Kept::Tree(initial(alloc, plan)?))
    }

    /// Steps the plan with one more event, in place, and gives what it decides. Fails only with `NoMemory`, and is then
    /// unchanged.
    #[inline(always)]
    pub(crate) fn advance(
        &mut self,
        alloc: Global,
        plan: &Plan,
        tick: &Tick,
        input: &Val,
    ) -> Result<Decision, NoMemory>
        requires { KeptFits plan.now self.old tick.now.now }
        ensures law { (h : List Event) → IsKeptAfter plan.now h self.old → IfOk result
            (λ d. KeptSteps plan.now (h ++ event_of tick.entry.now input.now ∷ []) self.new d) }
        ensures fits { IfOk result
            (λ _. (later : ℕ) → tick.entry.now.now ≤ later → KeptFits plan.now self.new later) }
        ensures shape { IfOk result (λ _. KeptFits plan.now self.new FAR) }
        ensures unchanged { IfErr result (λ _. self.new ≡ self.old) }
    {
        match self {
            Kept::Flat(record, _) => Ok(record.advance(plan, tick, input)),
            Kept::Tree(state) => advance_tree(state, alloc, plan, tick, input),
        }
    }

    /// Back to before the first event. It takes no memory.
    #[inline(always)]
    pub(crate) fn renew(&mut self, plan: &Plan)
        requires { KeptFits plan.now self.old FAR }
        ensures value { IsKeptAfter plan.now [] self.new }
        ensures fits { (now : ℕ) → KeptFits plan.now self.new now }
    {
        match self {
            Kept::Flat(record, first) => match first {
                Some(first) => record.set_to(&**first),
                None => record.renew(plan),
            },
            Kept::Tree(state) => state.renew(plan),
        }
    }
}

// Steps the plan by its tree.
#[cold]
#[inline(never)]
fn advance_tree(
    state: &mut State,
    alloc: Global,
    plan: &Plan,
    tick: &Tick,
    input: &Val,
) -> Result<Decision, NoMemory>
    requires { IsTrue (fits plan.now state.old tick.now.now) }
    ensures law { (h : List Event) → state.old ≡ state_of plan.now h → IfOk result
        (λ d. TreeSteps plan.now (h ++ event_of tick.entry.now input.now ∷ []) state.new d) }
    ensures fits { IfOk result
        (λ _. (later : ℕ) → tick.entry.now.now ≤ later → IsTrue (fits plan.now state.new later)) }
    ensures shape { IfOk result (λ _. IsTrue (fits plan.now state.new FAR)) }
    ensures unchanged { IfErr result (λ _. state.new ≡ state.old) }
{
    Ok(state.advance(alloc, plan, tick, input)?.decision)
}
