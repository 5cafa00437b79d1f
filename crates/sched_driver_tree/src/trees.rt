ghost use Rattle.std.specs.Prelude.{◌≡◌, ℕ, ◌<◌, ◌≤◌, List, [], ◌∷◌, ◌++◌, IfOk, IfErr, IsTrue, option_copied};
ghost use Rattle.sched_plan.specs.declared.history.Event.{Event};
ghost use Rattle.sched_step.specs.Progress.{fits};
ghost use Rattle.sched_step.specs.StateOf.{event_of};
ghost use Rattle.sched_step.specs.Starts.{StartsBy};
ghost use Rattle.sched_driver_tree.specs.Standing.{tree_standing_after, TreeStandsFor, output_given, start_planned};

use sched_plan::{Answer, Plan, SharedPlan, Val};
use sched_step::{State, initial};
use sched_time::{Decision, Moment, NoMemory, Tick};
use std::alloc::Global;
use std::marker::Model;
use thiserror::Error;

/// Why an event was refused.
#[derive(Clone, Copy, Debug, PartialEq, Eq, Error)]
pub enum StepFault {
    /// The event is before the last one, which is at `floor`.
    #[error("the event is before the last one, at {}", .floor.get())]
    Backwards { floor: Moment },
    /// A growth was refused.
    #[error("no memory")]
    NoMemory,
}

impl From<NoMemory> for StepFault {
    ghost use Rattle.std.specs.Prelude.{◌≡◌};
    ghost use Rattle.sched_driver_tree.specs.declared.trees.StepFault.{StepFault};

    ghost from_gives = { λ _ fault. fault ≡ StepFault.NoMemory };

    fn from(_: NoMemory) -> Self {
        StepFault::NoMemory
    }
}

/// Steps a plan event by event, any number of them, and keeps none.
///
/// Its state, its last output and its next start are always those that the plan's definition gives for the events since
/// the last reset. It has the plan's state, what was last answered and the last moment, and no list of events.
#[derive(Drop)]
pub struct TreeStepper {
    plan: SharedPlan,
    state: State,
    last: Option<Answer>,
    floor: Moment,
}

impl Model for TreeStepper {
    ghost use Rattle.sched_driver_tree.specs.Standing.{TreeStanding, coded_tree_standing};

    ghost Value = { TreeStanding };

    ghost coded = { coded_tree_standing };

    ghost use Rattle.sched_driver_tree.specs.Stepper.{IsTreeStepper};

    ghost view = { λ s. record { plan = s.plan; state = s.state; last = s.last; floor = s.floor } };

    ghost invariant = { λ s. IsTreeStepper record { plan = s.plan; state = s.state; last = s.last; floor = s.floor } };
}

impl TreeStepper {
    ghost use Rattle.sched_driver_tree.specs.Stepper.{StepGives, RefusesStep};

    /// A stepper of the plan before its first event. Fails only with `NoMemory`; the plan is then dropped.
    pub fn new(alloc: Global, plan: Plan) -> Result<TreeStepper, NoMemory>
        ensures { IfOk result (λ stepper. stepper ≡ tree_standing_after plan []) }
    {
        TreeStepper::of_shared(alloc, SharedPlan::new(alloc, plan)?)
    }

    /// The same of a plan that others hold too, with no copy of it. Where it fails, this share of the plan is dropped.
    pub fn of_shared(alloc: Global, plan: SharedPlan) -> Result<TreeStepper, NoMemory>
        ensures { IfOk result (λ stepper. stepper ≡ tree_standing_after plan []) }
    {
        let state = initial(alloc, plan.get())?;
        Ok(TreeStepper {
            plan,
            state,
            last: None,
            floor: Moment::new(0).unwrap(),
        })
    }

    /// Gives the plan one more event, also after `Done`, and answers what it decides: the next start, or `Done`.
    ///
    /// Refused as `Backwards` where the tick is before the last event, and as `NoMemory`; the stepper is then
    /// unchanged.
    pub fn next(&mut self, alloc: Global, tick: &Tick, input: &Val) -> Result<Decision, StepFault>
        // Whatever history it stood for, it now stands for that one with this event, and decides as the plan answers
        // it.
        ensures law { (h : List Event) → TreeStandsFor self.old h → IfOk result
            (λ d. StepGives TreeStandsFor self.old.plan (h ++ event_of tick.entry.now input.now ∷ []) d self.new) }
        ensures plan { self.new.plan ≡ self.old.plan }
        ensures start { IfOk result (λ d. StartsBy tick.entry.now.now d) }
        ensures order { IfOk result (λ _. self.old.floor ≤ tick.entry.now.now) }
        ensures refused { IfErr result (λ fault. RefusesStep self.old.floor tick.entry.now.now fault) }
        ensures unchanged { IfErr result (λ _. self.new ≡ self.old) }
    {
        self.check_order(tick.now)?;
        let answer = self.state.advance(alloc, self.plan.get(), tick, input)?;
        let decision = answer.decision;
        self.last = Some(answer);
        self.floor = tick.now;
        Ok(decision)
    }

    /// The output last given, or `None` where there was no event since the last reset.
    pub fn last(&self) -> Option<&Val>
        ensures { option_copied result ≡ output_given self.now.last }
    {
        match &self.last {
            Some(answer) => Some(&answer.output),
            None => None,
        }
    }

    /// The start planned last, or `None` where there was no event since the last reset or the plan was done.
    pub fn next_start(&self) -> Option<Moment>
        ensures { result ≡ start_planned self.now.last }
    {
        match &self.last {
            Some(answer) => answer.decision.start(),
            None => None,
        }
    }

    /// The plan.
    pub fn plan(&self) -> &Plan
        ensures { result.now ≡ self.now.plan }
    {
        self.plan.get()
    }

    /// The plan's state after the events since the last reset. It fits the plan from the last event's moment on, so
    /// that it can be stepped there without a test.
    pub fn state(&self) -> &State
        ensures value { result.now ≡ self.now.state }
        ensures fits { (later : ℕ) → self.now.floor ≤ later → IsTrue (fits self.now.plan result.now later) }
    {
        &self.state
    }

    /// The moment of the last event, or 0 where there was none since the last reset. No event before it is taken.
    pub fn floor(&self) -> Moment
        ensures value { result ≡ self.now.floor }

        // There is a history that it stands for.
        ensures stands { (h : List Event) × TreeStandsFor self.now h }
    {
        self.floor
    }

    /// Whether an event at this moment may come: refused as `Backwards` where that is before the last event.
    pub fn check_order(&self, now: Moment) -> Result<(), StepFault>
        ensures ok { IfOk result (λ _. self.now.floor ≤ now) }
        ensures refused { IfErr result (λ fault. fault ≡ StepFault.Backwards self.now.floor) }
        ensures before { IfErr result (λ _. now < self.now.floor) }
    {
        if now.get() < self.floor.get() {
            return Err(StepFault::Backwards { floor: self.floor });
        }
        Ok(())
    }

    /// Back to before the first event, whatever the moment of the next one. It takes no memory.
    pub fn reset(&mut self)
        ensures { self.new ≡ tree_standing_after self.old.plan [] }
    {
        self.state.renew(self.plan.get());
        self.last = None;
        self.floor = Moment::new(0).unwrap();
    }
}
