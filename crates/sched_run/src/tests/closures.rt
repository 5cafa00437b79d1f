//! Closures at their calls. Most give the number of their call, so that a test sees which call an ending is of; the
//! helpers answer what came of it, so that a test holds few values.
ghost use Rattle.std.specs.Prelude.{◌≡◌, ⊤, [], IfOk};
ghost use Rattle.sched_driver_stepper.specs.Standing.{standing_after};

use super::{budget, moment};
use sched_closure::{CallEnding, RepeatCallEnding, repeat_call, retry_call};
use sched_driver_stepper::Stepper;
use sched_plan::{Plan, PlanFault};
use sched_run_machine::{Drives, Machine};
use sched_task::{Clock, How, MidWords, RunFault, VirtualClock};
use sched_ticket_draws::{Draws, OnBudget, Quiet};
use sched_time::{Millis, Moment, NoMemory};
use std::alloc::{AllocGlobal, Global};
use std::cell::Cell;
use std::process::Abort;
use std::sync::Wait;

mod calls;
mod deadlines;

// So many calls are not made in a test.
const NEVER: u32 = u32::MAX;

fn clock_at(rt: &impl Abort, at: u64) -> VirtualClock {
    VirtualClock::at(moment(rt, at))
}

// What steps this plan, before its first step.
fn stepper_of(rt: &impl Abort, alloc: Global, plan: Result<Plan, PlanFault>) -> Stepper
    ensures { result ≡ standing_after result.plan [] }
{
    let plan = plan.expect(rt, "the plan is built");
    Stepper::new(alloc, plan).expect(rt, "there is memory")
}

// What steps at most so many recurrences, 100 milliseconds apart.
fn stepper(rt: &impl Abort, alloc: Global, recurs: u64) -> Stepper
    ensures { result ≡ standing_after result.plan [] }
{
    stepper_of(rt, alloc, spaced(alloc, recurs))
}

fn spaced(alloc: Global, recurs: u64) -> Result<Plan, PlanFault> {
    Plan::meet(alloc, Plan::recurs(recurs)?, Plan::spaced(100)?)
}

// What came of a closure that gives the number of its call: how it ended, what the last call gave, how many were made,
// and the moment after them.
type Came = (How, Result<u32, u32>, u32, u64);

// Asserts that so it came.
fn assert_came(rt: &impl Abort, came: Came, how: How, gave: Result<u32, u32>, now: u64) {
    let (Ok(calls) | Err(calls)) = gave;
    assert_eq!(rt; came, (how, gave, calls, now));
}

// Asserts how many tickets the retry was granted.
fn assert_granted<S: Drives, D: Draws>(rt: &impl Abort, retry: &Machine<S, D>, want: u64) {
    assert_eq!(rt; retry.granted(), want);
}

// The retry of a closure that succeeds after so many failures.
fn retried<S, D, B>(
    rt: &(impl Wait + AllocGlobal + Abort),
    begin: &mut B,
    clock: &mut impl Clock,
    failures: u32,
) -> (Came, Machine<S, D>)
where
    S: Drives,
    D: Quiet,
    B: FnMut(Global) -> Result<(S, D), NoMemory>,
    requires makes { B.IsAlwaysCallable begin.old }
    requires fresh { (alloc : _) (made : _) (after : B) → B.step begin.old alloc made after →
        IfOk made (λ m. S.driving.fresh m.0) }
{
    let mut calls = 0u32;
    let (ending, retry) = retry_call(rt, begin, clock, &mut MidWords, || {
        calls = calls.saturating_add(1);
        if calls <= failures {
            Err(calls)
        } else {
            Ok(calls)
        }
    });
    let how = ending.how();
    let came = (how, ending.into_result(), calls, clock.now().get());
    (came, retry.expect(rt, "the first call failed"))
}

// The same by this driver, which has made no step, and by this drawing.
fn retried_by<S: Drives, D: Quiet>(
    rt: &(impl Wait + AllocGlobal + Abort),
    made: (S, D),
    clock: &mut impl Clock,
    failures: u32,
) -> (Came, Machine<S, D>)
    requires { S.driving.fresh made.0 }
{
    let mut made = Some(made);
    let mut begin = |_: Global| made.take().ok_or(NoMemory);
    retried(rt, &mut begin, clock, failures)
}

// A clock that others move too. It wakes no later than 30 milliseconds after it began to wait.
#[derive(Drop)]
struct Shared<'a> {
    moment: &'a Cell<Moment>,
}

impl<'a> Clock for Shared<'a> {
    ghost tells = { λ _ _ _. ⊤ };

    ghost waits = { λ _ _ _ _. ⊤ };

    fn now(&mut self) -> Moment {
        self.moment.get()
    }

    fn wait_until(&mut self, until: Moment) -> Moment {
        let now = self.moment.get();
        if now.get() < until.get() {
            let pause = until.since(now).min(Millis::from(30));
            self.moment.set(now.plus(pause));
        }
        self.moment.get()
    }
}
