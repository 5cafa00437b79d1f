ghost use Rattle.sched_ticket.specs.Held.{IsOf};

use super::*;
use sched_run_machine::Until;
use sched_ticket::{Budget, Pass};

// The retry, until a deadline, of a closure that never succeeds, by fifty recurrences and this pass of the budget.
fn drawn_until<'a>(
    rt: &(impl Wait + AllocGlobal + Abort),
    clock: &mut impl Clock,
    budget: &'a Budget,
    pass: Pass,
    deadline: Moment,
) -> (Came, Machine<Until<Stepper>, OnBudget<&'a Budget>>)
    requires { IsOf budget.now pass }
{
    let until = Until::new(stepper(rt, rt.alloc(), 50), Some(deadline));
    let made = (until, OnBudget::new(pass, budget));
    retried_by(rt, made, clock, NEVER)
}

// Asserts the start that such a plan has past its deadline.
fn assert_late(rt: &impl Abort, driver: &Until<Stepper>, want: Option<u64>) {
    assert_eq!(rt; driver.late_start().map(Moment::get), want);
}

// Asserts how long it is from this moment to the deadline.
fn assert_left(rt: &impl Abort, driver: &Until<Stepper>, at: u64, want: Option<u64>) {
    assert_eq!(rt; driver.left(moment(rt, at)).map(Millis::get), want);
}

// Calls at 1000, 1100 and 1200; the next one would be at 1300.
#[test]
fn no_call_is_planned_past_the_deadline(rt: HostRuntime) {
    let (budget, pass) = budget(&rt, rt.alloc(), 10);
    let mut clock = clock_at(&rt, 1000);
    let deadline = clock.now().plus(Millis::from(250));
    let (came, retry) = drawn_until(&rt, &mut clock, &budget, pass, deadline);
    assert_came(&rt, came, How::ScheduleDone, Err(3), 1200);
    assert_granted(&rt, &retry, 2);
    assert_late(&rt, retry.driver(), Some(1300));
    assert_left(&rt, retry.driver(), 1200, Some(50));
    assert_left(&rt, retry.driver(), 1300, Some(0));
}
