ghost use Rattle.std.specs.Prelude.{◌≡◌, ℕ, ◌<◌, ◌≤◌, List, [], ◌∷◌, ◌++◌, IfOk, IfErr};
ghost use Rattle.sched_plan.specs.declared.history.Event.{Event};
ghost use Rattle.sched_step.specs.StateOf.{event_of};
ghost use Rattle.sched_step.specs.Starts.{StartsBy};
ghost use Rattle.sched_driver_tree.specs.declared.trees.StepFault.{StepFault};
ghost use Rattle.sched_driver_stepper.specs.Standing.{standing_after, StandsFor};

use crate::kept::Kept;
use sched_driver_tree::StepFault;
use sched_plan::{Event, Plan, SharedPlan, Val};
use sched_time::{Decision, Moment, NoMemory, Tick};
use std::alloc::Global;
use std::marker::Model;

/// Steps a plan event by event, any number of them, and keeps none.
///
/// Its state and its next start are always those that the plan's definition gives for the events since the last reset.
/// It has the plan's state, the start planned last and the last moment, and neither outputs nor a list of events.
#[derive(Drop)]
pub struct Stepper {
    plan: SharedPlan,
    kept: Kept,
    start: Option<Moment>,
    floor: Moment,
}

impl Model for Stepper {
    ghost use Rattle.sched_driver_stepper.specs.Standing.{Standing, coded_standing};

    ghost Value = { Standing };

    ghost coded = { coded_standing };

    ghost use Rattle.sched_driver_stepper.specs.Kept.{standing_of};
    ghost use Rattle.sched_driver_stepper.specs.Stepper.{IsStepper};

    ghost view = { λ s. standing_of s.plan s.kept s.start s.floor };

    ghost invariant = { λ s. IsStepper s.plan s.kept s.start s.floor };
}

impl Stepper {
    ghost use Rattle.sched_driver_stepper.specs.Kept.{IsFirstKept};
    ghost use Rattle.sched_driver_tree.specs.Stepper.{StepGives, RefusesStep};
    ghost use Rattle.sched_driver_stepper.specs.Stepper.{EndsEarly};

    /// A stepper of the plan before its first event. Fails only with `NoMemory`; the plan is then dropped.
    pub fn new(alloc: Global, plan: Plan) -> Result<Stepper, NoMemory>
        ensures { IfOk result (λ stepper. stepper ≡ standing_after plan []) }
    {
        Stepper::of_shared(alloc, SharedPlan::new(alloc, plan)?)
    }

    /// The same of a plan that others hold too, with no copy of it. Where it fails, this share of the plan is dropped.
    #[inline(always)]
    pub fn of_shared(alloc: Global, plan: SharedPlan) -> Result<Stepper, NoMemory>
        ensures { IfOk result (λ stepper. stepper ≡ standing_after plan []) }
    {
        let kept = Kept::new(alloc, plan.get())?;
        Ok(Stepper::unstepped(plan, kept))
    }

    /// A stepper of the plan that keeps this, before its first event.
    #[inline(always)]
    pub(crate) fn unstepped(plan: SharedPlan, kept: Kept) -> Stepper
        requires { IsFirstKept plan kept }
        ensures { result ≡ standing_after plan [] }
    {
        Stepper {
            plan,
            kept,
            start: None,
            floor: Moment::new(0).unwrap(),
        }
    }

    /// Gives the plan one more event, also after `Done`, and answers what it decides: the next start, or `Done`.
    ///
    /// Refused as `Backwards` where the tick is before the last event, and as `NoMemory`; the stepper is then
    /// unchanged. It takes memory only where the plan's state is kept as a tree.
    #[inline(always)]
    pub fn next(&mut self, alloc: Global, tick: &Tick, input: &Val) -> Result<Decision, StepFault>
        // Whatever history it stood for, it now stands for that one with this event, and decides as the plan answers
        // it.
        ensures law { (h : List Event) → StandsFor self.old h → IfOk result
            (λ d. StepGives StandsFor self.old.plan (h ++ event_of tick.entry.now input.now ∷ []) d self.new) }
        ensures plan { self.new.plan ≡ self.old.plan }
        ensures start { IfOk result (λ d. StartsBy tick.entry.now.now d) }
        ensures order { IfOk result (λ _. self.old.floor ≤ tick.entry.now.now) }
        ensures refused { IfErr result (λ fault. RefusesStep self.old.floor tick.entry.now.now fault) }
        ensures unchanged { IfErr result (λ _. self.new ≡ self.old) }
    {
        // Tells what the proof rests on: that the moment is within `FAR`.
        let _millis = tick.now.get();
        self.check_order(tick.now)?;
        let decision = self.kept.advance(alloc, self.plan.get(), tick, input)?;
        let planned = decision;
        self.start = planned.start();
        self.floor = tick.now;
        Ok(decision)
    }

    /// Gives the plan these events one by one, after those that it had. It stops at the first that is refused, as
    /// `next` refuses it, and then has had those before it.
    pub fn replay(&mut self, alloc: Global, events: &[Event]) -> Result<(), StepFault>
        ensures plays { (h : List Event) → StandsFor self.old h →
            IfOk result (λ _. StandsFor self.new (h ++ events.now)) }
        ensures plan { self.new.plan ≡ self.old.plan }
        ensures refused { (h : List Event) → StandsFor self.old h →
            IfErr result (λ fault. EndsEarly h events.now fault self.new) }
    {
        for event in events {
            let tick = Tick {
                now: event.now,
                words: event.words,
            };
            self.next(alloc, &tick, &event.input)?;
        }
        Ok(())
    }

    /// The start planned last, or `None` where there was no event since the last reset or the plan was done.
    pub fn next_start(&self) -> Option<Moment>
        ensures { result ≡ self.now.start }
    {
        self.start
    }

    /// The plan.
    pub fn plan(&self) -> &Plan
        ensures { result.now ≡ self.now.plan }
    {
        self.plan.get()
    }

    /// The moment of the last event, or 0 where there was none since the last reset. No event before it is taken.
    pub fn floor(&self) -> Moment
        ensures value { result ≡ self.now.floor }

        // There is a history that it stands for.
        ensures stands { (h : List Event) × StandsFor self.now h }
    {
        self.floor
    }

    /// Whether an event at this moment may come: refused as `Backwards` where that is before the last event.
    pub fn check_order(&self, now: Moment) -> Result<(), StepFault>
        ensures ok { IfOk result (λ _. self.now.floor ≤ now) }
        ensures refused { IfErr result (λ fault. fault ≡ StepFault.Backwards self.now.floor) }
        ensures before { IfErr result (λ _. now < self.now.floor) }
    {
        if now.get() < self.floor.get() {
            return Err(StepFault::Backwards { floor: self.floor });
        }
        Ok(())
    }

    /// Back to before the first event, whatever the moment of the next one. It takes no memory.
    pub fn reset(&mut self)
        ensures { self.new ≡ standing_after self.old.plan [] }
    {
        self.kept.renew(self.plan.get());
        self.start = None;
        self.floor = Moment::new(0).unwrap();
    }
}
