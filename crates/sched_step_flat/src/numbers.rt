ghost use Rattle.std.specs.Prelude.{◌≡◌, ◌+◌, ◌-◌, ◌*◌, ◌/◌, ◌≤◌};
ghost use Rattle.sched_time.specs.Capped.{capped};
ghost use Rattle.sched_time.specs.declared.starts.Decision.{Decision};
ghost use Rattle.sched_plan.specs.Delays.{jittered};
ghost use Rattle.sched_plan.specs.Sequences.{decorrelated_after};

use sched_time::{Decision, FAR, Interval, Millis, Moment};

/// The sum, at most `FAR`.
#[inline(always)]
pub(crate) fn sum(one: u64, other: u64) -> u64
    ensures { result ≡ capped (one + other) }
{
    one.saturating_add(other).min(FAR)
}

/// The product, at most `FAR`.
#[inline(always)]
pub(crate) fn product(one: u64, other: u64) -> u64
    ensures { result ≡ capped (one * other) }
{
    one.saturating_mul(other).min(FAR)
}

/// Going on after a delay of so much.
#[inline(always)]
pub(crate) fn go_after(now: Moment, delay: u64) -> Decision
    ensures { result ≡ Decision.Go (capped (now + delay)) }
{
    let start = Moment::new(sum(now.get(), delay)).unwrap();
    Decision::Go(Interval::after(start))
}

/// The number in thousandths, rounded down.
pub(crate) fn scaled(number: u64, thousandths: u64) -> u64
    requires { thousandths ≤ 1000000 }
    ensures { result ≡ capped (number * thousandths / 1000) }
{
    at_most_far(u128::from(number) * u128::from(thousandths) / 1000)
}

/// The delay in the ratio that a random word picks between two bounds in thousandths, rounded down.
#[inline(always)]
#[tactic(auto, using(sched_plan::proofs::DelayLaws::jitter_weight))]
pub(crate) fn jittered(least: u64, most: u64, word: u32, delay: u64) -> u64
    requires order { least ≤ most }
    requires small { most ≤ 10000 }
    ensures { result ≡ jittered least most word delay }
{
    let up = u64::from(word);
    let weight = least * (4294967296 - up) + most * up;
    match delay.checked_mul(weight) {
        Some(product) => (product / 4294967296000).min(FAR),
        None => at_most_far(u128::from(delay) * u128::from(weight) / 4294967296000),
    }
}

/// The delay that follows the one before in decorrelated jitter, rounded down.
pub(crate) fn decorrelated(
    base: Millis,
    thousandths: u64,
    most: Millis,
    before: u64,
    word: u32,
) -> u64
    requires { thousandths ≤ 1000000 }
    ensures { result ≡ decorrelated_after base thousandths most before word }
{
    let high = scaled(before, thousandths).max(base.get());
    let range = u128::from(high - base.get());
    let picked = u128::from(base.get()) + range * u128::from(word) / 4294967296;
    at_most_far(picked.min(u128::from(most.get())))
}

// The number, at most `FAR`.
fn at_most_far(number: u128) -> u64
    ensures { result ≡ capped number }
{
    match u64::try_from(number) {
        Ok(number) => number.min(FAR),
        Err(_) => FAR,
    }
}
