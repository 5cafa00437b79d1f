//! What a node over one plan makes of a decision.
ghost use Rattle.std.specs.Prelude.{◌≡◌, ℕ, ◌<◌, ◌≤◌, min, get_or, length, IsTrue};
ghost use Rattle.sched_time.specs.Capped.{capped};
ghost use Rattle.sched_plan.specs.Changes.{moved_decision};
ghost use Rattle.sched_plan.specs.Delays.{added, added_out, jittered};
ghost use Rattle.sched_plan.specs.Gates.{compares, gated, passes};
ghost use Rattle.sched_plan.specs.Schedule.{one_in_range};
ghost use Rattle.sched_step.specs.Kept.{kept_mark};
ghost use Rattle.sched_step.specs.Progress.{one_keeps};
ghost use Rattle.sched_step.specs.StateOf.{event_of};
ghost use Rattle.sched_step.specs.Step.{answered, one_answers};

use crate::decisions::goes_past;
use crate::marks::Mark;
use crate::outputs::{put_first, put_number, put_second, put_unit};
use crate::times::{go_after, time_between};
use crate::walks::Walk;
use sched_plan::{One, Side, Test, Val, ValShape};
use sched_time::{Decision, FAR, Millis, Moment, Tick};

/// Makes the output and decision of the plan under a node what the node answers, where it keeps this mark.
pub(crate) fn change(
    walk: &Walk<'_>,
    node: &One,
    mark: &Mark,
    output: &mut Val,
    decision: &mut Decision,
)
    requires valid { IsTrue (one_in_range node.now) }
    requires keeps { IsTrue (one_keeps node.now (kept_mark mark.now)) }
    ensures { answered output.new decision.new ≡ one_answers node.now (kept_mark mark.now)
        (event_of walk.now.tick walk.now.input.now) (answered output.old decision.old) }
{
    let now = walk.tick.now;
    match *node {
        One::Gate {
            side,
            want,
            test,
            bound,
        } => *decision = gate(side, want, test, bound, walk.input, output, *decision),
        One::Gather(_) => put_number(output, mark.total()),
        One::Add(more) => *decision = add(more, now, *decision),
        One::Set(delay) => *decision = set(delay, now, *decision),
        One::Cap(most) => *decision = cap(most, now, *decision),
        One::AddOut => *decision = add_out(now, output, *decision),
        One::Jitter { lane, least, most } => *decision = jitter(
            lane, least, most, &walk.tick, *decision,
        ),
        One::Within(length) => {
            let first = mark.since().unwrap_or(now);
            if length <= time_between(first, now) {
                *decision = Decision::Done;
            }
        }
        One::EndsBy(length) => {
            let first = mark.since().unwrap_or(now);
            if goes_past(first.plus(length), *decision) {
                *decision = Decision::Done;
            }
        }
        One::Renew(_) | One::RenewIdle(_) => {}
        One::First => put_first(output),
        One::Second => put_second(output),
        One::Nothing => put_unit(output),
    }
}

// The decision, but done where the test of the value has not the wanted result.
fn gate(
    side: Side,
    want: bool,
    test: Test,
    bound: Millis,
    input: &Val,
    output: &Val,
    decision: Decision,
) -> Decision
    ensures { answered output.now result ≡ gated side want test bound input.now (answered output.now decision) }
{
    let result = match side {
        Side::Input => is_passed(test, bound, input),
        Side::Output => is_passed(test, bound, output),
    };
    if result == want {
        decision
    } else {
        Decision::Done
    }
}

// The test of a value; what is no number fails it.
fn is_passed(test: Test, bound: Millis, value: &Val) -> bool
    ensures { result ≡ passes test bound value.now }
{
    match value.shape() {
        ValShape::Num(number) => compare(test, bound, number.get()),
        _ => false,
    }
}

/// How the number compares with the bound.
pub fn compare(test: Test, bound: Millis, number: u64) -> bool
    ensures { result ≡ compares test bound number }
{
    match test {
        Test::Below => number < bound.get(),
        Test::AtLeast => bound.get() <= number,
        Test::Equal => number == bound.get(),
    }
}

/// Going on after a delay that is longer by so much.
pub fn add(more: Millis, now: Moment, decision: Decision) -> Decision
    ensures { result ≡ moved_decision (added more) now decision }
{
    match decision {
        Decision::Go(interval) => {
            let delay = time_between(now, interval.start());
            go_after(now, delay.plus(more))
        }
        Decision::Done => Decision::Done,
    }
}

/// Going on after this delay.
pub fn set(delay: Millis, now: Moment, decision: Decision) -> Decision
    ensures { result ≡ moved_decision (λ _. delay) now decision }
{
    match decision {
        Decision::Go(_) => go_after(now, delay),
        Decision::Done => Decision::Done,
    }
}

/// Going on after the delay, but at most this one.
pub fn cap(most: Millis, now: Moment, decision: Decision) -> Decision
    ensures { result ≡ moved_decision (λ delay. min delay most) now decision }
{
    match decision {
        Decision::Go(interval) => {
            let delay = time_between(now, interval.start());
            let delay = if most.get() < delay.get() {
                most
            } else {
                delay
            };
            go_after(now, delay)
        }
        Decision::Done => Decision::Done,
    }
}

// Going on after a delay that is longer by the output, where that is a number.
fn add_out(now: Moment, output: &Val, decision: Decision) -> Decision
    ensures { result ≡ moved_decision (added_out output.now) now decision }
{
    match decision {
        Decision::Go(interval) => {
            let delay = time_between(now, interval.start());
            go_after(now, plus_number(delay, output))
        }
        Decision::Done => Decision::Done,
    }
}

// The delay made longer by the value, where that is a number.
fn plus_number(delay: Millis, value: &Val) -> Millis
    ensures { result ≡ added_out value.now delay }
{
    match value.shape() {
        ValShape::Num(number) => delay.plus(*number),
        _ => delay,
    }
}

/// Going on after the delay in the ratio that the lane's random word picks.
pub fn jitter(lane: usize, least: u64, most: u64, tick: &Tick, decision: Decision) -> Decision
    requires lane { lane ≤ 3 }
    requires order { least ≤ most }
    requires small { most ≤ 10000 }
    ensures { result ≡ moved_decision (jittered least most (get_or tick.entry.now.words lane 0))
        tick.entry.now.now decision }
{
    let now = tick.now;
    match decision {
        Decision::Go(interval) => {
            let delay = time_between(now, interval.start());
            go_after(now, jittered(least, most, tick.words[lane], delay))
        }
        Decision::Done => Decision::Done,
    }
}

// The delay in the ratio that a random word picks between two bounds in thousandths, rounded down.
#[tactic(auto, using(sched_plan::proofs::DelayLaws::jitter_fits))]
fn jittered(least: u64, most: u64, word: u32, delay: Millis) -> Millis
    requires order { least ≤ most }
    requires small { most ≤ 10000 }
    ensures { result ≡ jittered least most word delay }
{
    let up = u128::from(word);
    let down = 4294967296 - up;
    let weight = u128::from(least) * down + u128::from(most) * up;
    let exact = u128::from(delay.get()) * weight / 4294967296000;
    at_most_far(exact)
}

// The number, at most `FAR`.
pub(crate) fn at_most_far(number: u128) -> Millis
    ensures { result ≡ capped number }
{
    let millis = match u64::try_from(number) {
        Ok(millis) => millis.min(FAR),
        Err(_) => FAR,
    };
    Millis::new(millis).unwrap()
}
