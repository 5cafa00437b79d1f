// The page docs/RATTLE.md as code.
use super::values::{Hands, Hundred, Tries};
use super::*;

// Five more tries, after 100, 200, 400 and then 500 milliseconds each, made up to a fifth shorter or longer.
fn back_off(alloc: Global) -> Result<Plan, PlanFault> {
    let capped = Plan::cap(alloc, 500, Plan::exponential(100, 2)?)?;
    let jittered = Plan::jitter(alloc, 0, 800, 1200, capped)?;
    Plan::meet(alloc, Plan::recurs(5)?, jittered)
}

// A call that is never answered takes the four tickets of the budget, and then a cache answers. The words of `MidWords`
// leave each delay as it is.
#[test]
fn retry_a_call(rt: HostRuntime) {
    let alloc = rt.alloc();
    let (budget, mut all) = budget(&rt, alloc, 4);
    let pass = all.split(&budget).expect(&rt, "passes are left");
    let driver = driver(&rt, alloc, back_off(alloc));
    let calls = Call::new(alloc, Tries::winning(99));
    let cache = Hundred::new(alloc, true);
    let retry = RetryOr::new(alloc, calls, driver, OnBudget::new(pass, &budget), cache);
    let mut retry = finish(&rt, retry);
    assert_refused(&rt, &mut retry);
    assert_eq!(rt; granted(retry), 4);
}

// How many tickets were granted by what the retry drew on.
fn granted<X: Effect, D: Draws, F: Fallback<X>>(retry: RetryOr<X, D, F>) -> u64 {
    let (_, _, drawing, _) = retry.into_parts();
    drawing.granted()
}

// The budget refused a fifth ticket, and the cache answered the fifth failure.
fn assert_refused<D: Draws>(rt: &impl Abort, retry: &mut RetryOr<Call<Tries>, D, Hundred>) {
    assert_eq!(rt; retry.over(), Some(How::BudgetRefused));
    assert_eq!(rt; retry.granted(), 4);
    assert_moments(rt, retry.begun(), &[0, 100, 300, 700, 1200]);
    assert_eq!(rt; retry.handed(), Some(("fallen", 105)));
}

// Goes on while the status is 202, a second after it.
fn while_accepted(alloc: Global) -> Result<Plan, PlanFault> {
    Plan::gate(
        alloc,
        Side::Input,
        true,
        Test::Equal,
        202,
        Plan::spaced(1000)?,
    )
}

// Statuses of a job that is done after so many questions.
#[derive(Drop)]
struct Statuses {
    left: u32,
}

impl Statuses {
    fn ask(&mut self) -> Result<u32, ()> {
        match self.left.checked_sub(1) {
            Some(left) => {
                self.left = left;
                Ok(202)
            }
            None => Ok(200),
        }
    }
}

// Asked at 0, 1000, 2000 and 3000: the last answer is 200.
#[test]
fn repeat_a_call(rt: HostRuntime) {
    let alloc = rt.alloc();
    let mut statuses = Statuses { left: 3 };
    let mut clock = VirtualClock::at(moment(&rt, 0));
    let plan = while_accepted(alloc).expect(&rt, "the plan is built");
    let stepper = Stepper::new(alloc, plan).expect(&rt, "there is memory");
    let (ending, _) = repeat_call(&rt, stepper, &mut clock, &mut MidWords, || statuses.ask());
    assert!(rt; matches!(ending, RepeatCallEnding::ScheduleDone(200)));
    assert_eq!(rt; clock.now().get(), 3000);
}
