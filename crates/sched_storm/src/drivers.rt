//! The drivers of requests: they step one plan that all share, and keep no journal.
ghost use Rattle.std.specs.Prelude.{◌≡◌, ◌≢◌, ℕ, ◌+◌, ◌<◌, ◌≤◌, true, List, [], ◌∷◌, ◌++◌, Option, Some, None, length};
ghost use Rattle.std.specs.Prelude.{vec_len, IfOk, IfSome, OnOk, slice_index_or, slice_set};
ghost use Rattle.sched_time.specs.Decision.{start_of};
ghost use Rattle.sched_plan.specs.Answer.{answer};
ghost use Rattle.sched_plan.specs.declared.history.Event.{Event};
ghost use Rattle.sched_driver_stepper.specs.Standing.{StandsFor};
ghost use Rattle.sched_storm.specs.Drivers.{input_of, with_failure, DriverStands, MayFail, IsAnswered};

use sched_driver_stepper::{Compiled, StepFault, Stepper};
use sched_plan::Val;
use sched_storm_report::Failure;
use sched_time::{Millis, Moment, NoMemory, Tick};
use std::alloc::Global;

/// A request's driver, where one of its calls has failed.
pub(crate) type Slot = Option<Box<Stepper>>;

/// The input that a policy is given of a call that failed so.
pub(crate) fn input_of(failure: Failure) -> u32
    ensures { result ≡ input_of failure }
{
    match failure {
        Failure::Refused => 1,
        Failure::Shed => 2,
        Failure::Late => 3,
    }
}

/// The driver of a request whose call fails: the one that it has, or a new one.
fn driver_of(alloc: Global, plan: &Compiled, slot: Slot) -> Result<Box<Stepper>, NoMemory>
    ensures { IfOk result
        (λ made. (h : List Event) → DriverStands plan.now slot h → DriverStands plan.now (Some made) h) }
{
    match slot {
        Some(driver) => Ok(driver),
        None => { Ok(Box::new(alloc, plan.stepper(alloc)?)?) }
    }
}

/// The drivers of the requests that came, by their numbers.
#[derive(Drop)]
pub(crate) struct Drivers {
    slots: Vec<Slot>,
}

impl Drivers {
    /// Of no request.
    pub(crate) fn new(alloc: Global) -> Drivers
        ensures { result.slots.items ≡ [] }
    {
        Drivers {
            slots: Vec::new(alloc),
        }
    }

    /// Of one request more.
    pub(crate) fn add(&mut self) -> Result<(), NoMemory>
        ensures { OnOk result (self.new.slots.items ≡ self.old.slots.items ++ None ∷ []) }
    {
        self.slots.push(None)?;
        Ok(())
    }

    /// The request needs no driver any more.
    pub(crate) fn end(&mut self, request: u64)
        requires { request < vec_len self.old.slots }
        ensures { self.new.slots.items ≡ slice_set self.old.slots.items request None }
    {
        self.slots[request as usize] = None;
    }

    /// The request keeps its driver where it goes on, and needs none any more where it does not.
    pub(crate) fn keep_if(&mut self, request: u64, goes_on: bool)
        requires { request < vec_len self.old.slots }
        ensures kept { goes_on ≡ true → self.new ≡ self.old }
        ensures others { (q : ℕ) → q ≢ request →
            slice_index_or self.new.slots.items q None ≡ slice_index_or self.old.slots.items q None }
        ensures count { vec_len self.new.slots ≡ vec_len self.old.slots }
    {
        if !goes_on {
            self.end(request);
        }
    }

    /// Gives the driver of a request the failure of a call at this moment, with these words, and answers when it plans
    /// the next call, where it goes on.
    pub(crate) fn fail(
        &mut self,
        alloc: Global,
        plan: &Compiled,
        request: u64,
        at: u64,
        words: [u32; 4],
        failure: Failure,
    ) -> Result<Option<Moment>, NoMemory>
        requires request { request < vec_len self.old.slots }
        requires at { at ≤ 7200000 }
        requires order { MayFail plan.now (slice_index_or self.old.slots.items request None) at }
        ensures { (h : List Event) → DriverStands plan.now (slice_index_or self.old.slots.items request None) h →
            IfOk result (λ start. IsAnswered plan.now self.old.slots.items request at
            (with_failure h at words (input_of failure)) start self.new.slots.items) }
    {
        let slot = self.slots[request as usize].take();
        let mut driver = driver_of(alloc, plan, slot)?;
        let start = next_start(alloc, &mut driver, at, words, failure)?;
        self.slots[request as usize] = Some(driver);
        Ok(start)
    }
}

/// Gives the driver the failure of a call at this moment, with these words, and answers when it plans the next call,
/// where it goes on.
fn next_start(
    alloc: Global,
    driver: &mut Stepper,
    at: u64,
    words: [u32; 4],
    failure: Failure,
) -> Result<Option<Moment>, NoMemory>
    requires at { at ≤ 7200000 }
    requires order { driver.old.floor ≤ at }
    // Whatever history it stood for, it now stands for that one with this failure. It answers as the plan's definition.
    ensures law { (h : List Event) → StandsFor driver.old h →
        IfOk result (λ start. start ≡ start_of (answer driver.old.plan
        (with_failure h at words (input_of failure))).decision) }
    ensures stands { (h : List Event) → StandsFor driver.old h →
        IfOk result (λ _. StandsFor driver.new (with_failure h at words (input_of failure))) }
    ensures plan { driver.new.plan ≡ driver.old.plan }
    ensures later { IfOk result (λ start. IfSome start (λ start. at ≤ start)) }
{
    // It stands for a history, whose last event is not after this one.
    prove!(driver.floor().get() <= at);
    let now = Moment::new(at).unwrap();
    let tick = Tick { now, words };
    let input = Val::from(Millis::from(input_of(failure)));
    match driver.next(alloc, &tick, &input) {
        Ok(decision) => Ok(decision.start()),
        Err(StepFault::NoMemory) => Err(NoMemory),
        Err(StepFault::Backwards { .. }) => unreachable!(),
    }
}
