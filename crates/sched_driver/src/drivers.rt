ghost use Rattle.std.specs.Prelude.{◌≡◌, ℕ, ◌≤◌, [], length, IfOk, IfErr, IsTrue, option_copied};
ghost use Rattle.sched_plan.specs.History.{IsHistory, last_moment};
ghost use Rattle.sched_plan.specs.Answer.{answer};
ghost use Rattle.sched_step.specs.Progress.{fits};
ghost use Rattle.sched_step.specs.StateOf.{state_of, event_of};
ghost use Rattle.sched_step.specs.Starts.{StartsBy};
ghost use Rattle.sched_driver.specs.Driven.{last_output, next_start_of, after};

use sched_driver_tree::{StepFault, TreeStepper};
use sched_plan::{Event, Plan, SharedPlan, Val};
use sched_step::State;
use sched_time::{Decision, Moment, NoMemory, Tick};
use std::alloc::Global;
use std::marker::Model;
use thiserror::Error;

/// The most events of a journal.
pub const MAX_EVENTS: usize = 65536;

/// Why `next` refused an event.
#[derive(Clone, Copy, Debug, PartialEq, Eq, Error)]
pub enum DriveFault {
    /// The event is before the journal's last event, which is at `floor`.
    #[error("the event is before the last one, at {}", .floor.get())]
    Backwards { floor: Moment },
    /// The journal holds 65,536 events.
    #[error("the journal is full")]
    JournalFull,
    /// A growth was refused.
    #[error("no memory")]
    NoMemory,
}

impl From<NoMemory> for DriveFault {
    ghost use Rattle.std.specs.Prelude.{◌≡◌};
    ghost use Rattle.sched_driver.specs.declared.drivers.DriveFault.{DriveFault};

    ghost from_gives = { λ _ fault. fault ≡ DriveFault.NoMemory };

    fn from(_: NoMemory) -> Self {
        DriveFault::NoMemory
    }
}

impl From<StepFault> for DriveFault {
    ghost use Rattle.std.specs.Prelude.{◌≡◌};
    ghost use Rattle.sched_driver.specs.Driver.{drive_fault};

    ghost from_gives = { λ given fault. fault ≡ drive_fault given };

    fn from(fault: StepFault) -> Self {
        match fault {
            StepFault::Backwards { floor } => DriveFault::Backwards { floor },
            StepFault::NoMemory => DriveFault::NoMemory,
        }
    }
}

/// Steps a plan event by event, and keeps the events since the last reset in a journal.
///
/// Its state, its last output and its next start are always those that the plan's definition gives for the journal.
#[derive(Drop)]
pub struct Driver {
    stepper: TreeStepper,
    journal: Vec<Event>,
}

impl Model for Driver {
    ghost use Rattle.sched_driver.specs.Driven.{Driven, coded_driven};

    ghost Value = { Driven };

    ghost coded = { coded_driven };

    ghost use Rattle.sched_driver.specs.Driver.{KeepsJournal};

    ghost view = { λ d. record { plan = d.stepper.plan; journal = d.journal.items } };

    ghost invariant = { λ d. KeepsJournal d.stepper d.journal.items };
}

impl Driver {
    ghost use Rattle.sched_driver.specs.Driver.{HasRoom, RefusesEvent};

    /// A driver of the plan before its first event. Fails only with `NoMemory`; the plan is then dropped.
    pub fn new(alloc: Global, plan: Plan) -> Result<Driver, NoMemory>
        ensures plan { IfOk result (λ driver. driver.plan ≡ plan) }
        ensures fresh { IfOk result (λ driver. driver.journal ≡ []) }
    {
        Driver::of_shared(alloc, SharedPlan::new(alloc, plan)?)
    }

    /// The same of a plan that others hold too, with no copy of it. Where it fails, this share of the plan is dropped.
    pub fn of_shared(alloc: Global, plan: SharedPlan) -> Result<Driver, NoMemory>
        ensures plan { IfOk result (λ driver. driver.plan ≡ plan) }
        ensures fresh { IfOk result (λ driver. driver.journal ≡ []) }
    {
        let stepper = TreeStepper::of_shared(alloc, plan)?;
        Ok(Driver {
            stepper,
            journal: Vec::new(alloc),
        })
    }

    /// Gives the plan one more event, also after `Done`, and answers what it decides: the next start, or `Done`.
    ///
    /// Refused as `Backwards` where the tick is before the journal's last event, as `JournalFull` where the journal
    /// holds 65,536 events, and as `NoMemory`; the driver is then unchanged, and the input dropped.
    pub fn next(&mut self, alloc: Global, tick: Tick, input: Val) -> Result<Decision, DriveFault>
        ensures kept { IfOk result (λ _. self.new ≡ after self.old (event_of tick input)) }
        ensures decision { IfOk result (λ d. d ≡ (answer self.new.plan self.new.journal).decision) }
        ensures start { IfOk result (λ d. StartsBy tick.now d) }
        ensures room { IfOk result (λ _. HasRoom self.old tick.now) }
        ensures refused { IfErr result (λ fault. RefusesEvent self.old tick.now fault) }
        ensures unchanged { IfErr result (λ _. self.new ≡ self.old) }
    {
        self.has_room(tick.now)?;
        if self.journal.reserve(1).is_err() {
            return Err(DriveFault::NoMemory);
        }
        let decision = self.stepper.next(alloc, &tick, &input)?;
        let words = tick.words;
        self.journal.push_reserved(Event {
            now: tick.now,
            words,
            input,
        });
        Ok(decision)
    }

    /// The output last given, or `None` where the journal is empty.
    pub fn last(&self) -> Option<&Val>
        ensures { option_copied result ≡ last_output self.now }
    {
        self.stepper.last()
    }

    /// The start planned last, or `None` where the journal is empty or the plan was done.
    pub fn next_start(&self) -> Option<Moment>
        ensures { result ≡ next_start_of self.now }
    {
        self.stepper.next_start()
    }

    /// The plan.
    pub fn plan(&self) -> &Plan
        ensures { result.now ≡ self.now.plan }
    {
        self.stepper.plan()
    }

    /// The plan's state after the events of the journal. It fits the plan from the last event's moment on, so that it
    /// can be stepped there without a test.
    pub fn state(&self) -> &State
        ensures value { result.now ≡ state_of self.now.plan self.now.journal }
        ensures fits { (later : ℕ) → last_moment self.now.journal ≤ later →
            IsTrue (fits self.now.plan result.now later) }
    {
        self.stepper.state()
    }

    /// The events since the last reset, oldest first; their moments never fall, and there are at most 65,536.
    pub fn journal(&self) -> &[Event]
        ensures events { result.now ≡ self.now.journal }
        ensures in_order { IsHistory self.now.journal }
        ensures few { length self.now.journal ≤ 65536 }
    {
        &self.journal
    }

    /// Back to before the first event, whatever the moment of the next one. It takes no memory.
    pub fn reset(&mut self)
        ensures plan { self.new.plan ≡ self.old.plan }
        ensures fresh { self.new.journal ≡ [] }
    {
        self.stepper.reset();
        self.journal.clear();
    }

    // Whether one more event at this moment has a place in the journal.
    fn has_room(&self, now: Moment) -> Result<(), DriveFault>
        ensures ok { IfOk result (λ _. HasRoom self.now now) }
        ensures refused { IfErr result (λ fault. RefusesEvent self.now now fault) }
    {
        self.stepper.check_order(now)?;
        if self.journal.len() == MAX_EVENTS {
            return Err(DriveFault::JournalFull);
        }
        Ok(())
    }
}
