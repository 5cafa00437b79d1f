ghost use Rattle.std.specs.Prelude.{◌≡◌, ⊤, [], IfOk};
ghost use Rattle.sched_driver_stepper.specs.Standing.{standing_after};

use super::*;
use sched_ticket::Budget;
use sched_ticket_draws::Unlimited;

// What steps so many recurrences, and a pass with no tickets.
fn begun<'a>(
    rt: &impl Abort,
    alloc: Global,
    recurs: u64,
    pass: &mut OnBudget<&'a Budget>,
) -> Result<(Stepper, OnBudget<&'a Budget>), NoMemory>
    ensures { IfOk result (λ made. made.0 ≡ standing_after made.0.plan []) }
{
    let part = pass.split().map_err(|_| NoMemory)?;
    Ok((stepper(rt, alloc, recurs), part))
}

// The retry, by five recurrences and a budget of so many tickets, of a closure that succeeds after so many failures;
// and the tickets that it was granted.
fn on_budget(
    rt: &(impl Wait + AllocGlobal + Abort),
    tickets: u64,
    at: u64,
    failures: u32,
) -> (Came, u64) {
    let (budget, pass) = budget(rt, rt.alloc(), tickets);
    drawn(rt, OnBudget::new(pass, &budget), at, failures)
}

// The same by this pass, which has no tickets.
fn drawn(
    rt: &(impl Wait + AllocGlobal + Abort),
    mut pass: OnBudget<&Budget>,
    at: u64,
    failures: u32,
) -> (Came, u64) {
    let mut begin = |alloc| begun(rt, alloc, 5, &mut pass);
    let (came, retry) = retried(rt, &mut begin, &mut clock_at(rt, at), failures);
    (came, retry.granted())
}

#[test]
fn no_call_is_made_without_a_ticket(rt: HostRuntime) {
    let (came, granted) = on_budget(&rt, 2, 0, NEVER);
    assert_came(&rt, came, How::BudgetRefused, Err(3), 200);
    assert_eq!(rt; granted, 2);
}

// A clock that counts how often it was asked, and stands still.
#[derive(Drop)]
struct Asked {
    times: u32,
}

impl Clock for Asked {
    ghost tells = { λ _ _ _. ⊤ };

    ghost waits = { λ _ _ _ _. ⊤ };

    fn now(&mut self) -> Moment {
        self.times = self.times.saturating_add(1);
        Moment::new(0).unwrap()
    }

    fn wait_until(&mut self, _until: Moment) -> Moment {
        self.now()
    }
}

// Asserts that no machine was made.
fn assert_unbegun<S: Drives, D: Draws>(rt: &impl Abort, retry: Option<Machine<S, D>>) {
    assert!(rt; retry.is_none());
}

#[test]
fn a_first_success_begins_nothing(rt: HostRuntime) {
    let (budget, pass) = budget(&rt, rt.alloc(), 2);
    let mut pass = OnBudget::new(pass, &budget);
    let is_begun = Cell::new(false);
    let mut clock = Asked { times: 0 };
    let (ending, retry) = retry_call(
        &rt,
        &mut |alloc| {
            is_begun.set(true);
            begun(&rt, alloc, 5, &mut pass)
        },
        &mut clock,
        &mut MidWords,
        || -> Result<u32, u32> { Ok(6) },
    );
    assert_unbegun(&rt, retry);
    assert!(rt; matches!(ending, CallEnding::Won(6)));
    assert!(rt; !is_begun.get());
    assert_eq!(rt; clock.times, 1);
}

#[test]
fn what_cannot_be_begun_ends_with_its_failure(rt: HostRuntime) {
    let mut calls = 0u32;
    let (ending, retry) = retry_call(
        &rt,
        &mut |_| -> Result<(Stepper, Unlimited), NoMemory> { Err(NoMemory) },
        &mut clock_at(&rt, 0),
        &mut MidWords,
        || -> Result<(), u32> {
            calls = calls.saturating_add(1);
            Err(calls)
        },
    );
    assert_unbegun(&rt, retry);
    assert!(rt; matches!(ending, CallEnding::Broken(RunFault::NoMemory, 1)));
    assert_eq!(rt; calls, 1);
}

// Each call takes 50 milliseconds, and the schedule's 100 count from its end.
#[test]
fn a_delay_begins_where_its_call_ends(rt: HostRuntime) {
    let now = Cell::new(moment(&rt, 0));
    let (ending, _) = retry_call(
        &rt,
        &mut |alloc| Ok((stepper(&rt, alloc, 2), Unlimited::new())),
        &mut Shared { moment: &now },
        &mut MidWords,
        || -> Result<(), u32> {
            now.set(now.get().plus(Millis::from(50)));
            Err(4)
        },
    );
    assert!(rt; matches!(ending, CallEnding::ScheduleDone(4)));
    assert_eq!(rt; now.get().get(), 350);
}

// A poll each second, which fails 200,000 times: two days and a third.
#[test]
fn a_retry_has_no_last_event(rt: HostRuntime) {
    let polling = stepper_of(&rt, rt.alloc(), Plan::spaced(1000));
    let made = (polling, Unlimited::new());
    let (came, retry) = retried_by(&rt, made, &mut clock_at(&rt, 0), 200_000);
    assert_came(&rt, came, How::Won, Ok(200_001), 200_000_000);
    assert_granted(&rt, &retry, 200_000);
}

// Each call takes 50 milliseconds, and the schedule's 100 count from its end.
#[test]
fn a_delay_of_a_repeat_begins_where_its_call_ends(rt: HostRuntime) {
    let driver = stepper(&rt, rt.alloc(), 2);
    let now = Cell::new(moment(&rt, 0));
    let (ending, _) = repeat_call(
        &rt,
        driver,
        &mut Shared { moment: &now },
        &mut MidWords,
        || -> Result<(), u32> {
            now.set(now.get().plus(Millis::from(50)));
            Ok(())
        },
    );
    assert!(rt; matches!(ending, RepeatCallEnding::ScheduleDone(())));
    assert_eq!(rt; now.get().get(), 350);
}
