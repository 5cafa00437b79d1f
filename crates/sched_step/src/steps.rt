ghost use Rattle.std.specs.Prelude.{◌≡◌, ℕ, ◌≤◌, List, [], ◌∷◌, ◌++◌, IfOk, IfErr, IsTrue};
ghost use Rattle.sched_time.specs.declared.numbers.TheConstants.{FAR};
ghost use Rattle.sched_plan.specs.declared.history.Event.{Event};
ghost use Rattle.sched_step.specs.Progress.{fits};
ghost use Rattle.sched_step.specs.StateOf.{state_of, event_of, IsStep};
ghost use Rattle.sched_step.specs.Starts.{StartsBy};

use crate::advance::advance;
use crate::states::State;
use crate::walks::Walk;
use sched_plan::{Answer, Plan, Val};
use sched_time::{Decision, NoMemory, Tick};
use std::alloc::Global;

impl State {
    /// Steps the plan with one more event, in place, and gives what it answers. It takes memory for the output alone.
    ///
    /// The state must fit the plan at the tick's moment, as that of `initial`, `renew` and every earlier step does
    /// where moments don't fall. Fails only with `NoMemory`; the state is then unchanged.
    pub fn advance(
        &mut self,
        alloc: Global,
        plan: &Plan,
        tick: &Tick,
        input: &Val,
    ) -> Result<Answer, NoMemory>
        requires { IsTrue (fits plan.now self.old tick.now.now) }

        // From the state after any history come the state and the answer after that history with this event.
        ensures law { (h : List Event) → self.old ≡ state_of plan.now h → IfOk result
            (λ answer. IsStep plan.now (h ++ event_of tick.entry.now input.now ∷ []) self.new answer) }
        ensures starts { IfOk result (λ answer. StartsBy tick.entry.now.now answer.decision) }

        // The new state fits the plan from now on.
        ensures fits { IfOk result
            (λ _. (later : ℕ) → tick.entry.now.now ≤ later → IsTrue (fits plan.now self.new later)) }
        ensures shape { IfOk result (λ _. IsTrue (fits plan.now self.new FAR)) }
        ensures unchanged { IfErr result (λ _. self.new ≡ self.old) }
    {
        // Both tell what the proof rests on: that the moment is within `FAR`, and that the plan is valid.
        let _millis = tick.now.get();
        let _shape = plan.shape();
        let mut output = Val::unit();
        let mut decision = Decision::Done;
        let walk = Walk {
            alloc,
            tick: *tick,
            input,
            fresh: false,
        };
        advance(&walk, plan, &mut self.tree, &mut output, &mut decision)?;
        self.tree.commit();
        Ok(Answer { output, decision })
    }
}

/// The state after one more event, beside the old one, and what the plan answers.
///
/// The state must fit the plan at the tick's moment, as that of `initial`, `renew` and every earlier step does where
/// moments don't fall. Fails only with `NoMemory`.
pub fn step(
    alloc: Global,
    plan: &Plan,
    state: &State,
    tick: &Tick,
    input: &Val,
) -> Result<(State, Answer), NoMemory>
    requires { IsTrue (fits plan.now state.now tick.now.now) }

    // From the state after any history come the state and the answer after that history with this event.
    ensures law { (h : List Event) → state.now ≡ state_of plan.now h →
        IfOk result (λ r. IsStep plan.now (h ++ event_of tick.entry.now input.now ∷ []) r.0 r.1) }
    ensures starts { IfOk result (λ r. StartsBy tick.entry.now.now r.1.decision) }

    // The new state fits the plan from now on.
    ensures fits { IfOk result
        (λ r. (later : ℕ) → tick.entry.now.now ≤ later → IsTrue (fits plan.now r.0 later)) }
    ensures shape { IfOk result (λ r. IsTrue (fits plan.now r.0 FAR)) }
{
    let mut state = state.copy(alloc)?;
    let answer = state.advance(alloc, plan, tick, input)?;
    Ok((state, answer))
}
