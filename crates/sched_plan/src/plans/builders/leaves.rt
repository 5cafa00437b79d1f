ghost use Rattle.std.specs.Prelude.{◌≡◌};
ghost use Rattle.sched_plan.specs.Schedule.{leaf};
ghost use Rattle.sched_plan.specs.Plan.{built_plan};

use super::{LAST_LANE, in_range, length_in_range};
use crate::leaves::Leaf;
use crate::plans::{Plan, PlanFault};

/// The greatest factor of `Plan::exponential`.
const MAX_FACTOR: u64 = 1_000;

/// The most thousandths of `Plan::exponential_milli` and of `Plan::decorrelated`.
const MAX_THOUSANDTHS: u64 = 1_000_000;

/// The fewest thousandths of `Plan::decorrelated`: no delay's bound is below the delay before.
const MIN_GROWTH: u64 = 1_000;

impl Plan {
    /// Goes on for ever, at once; the output is how often it has recurred. Never refused.
    pub fn forever() -> Result<Plan, PlanFault>
        ensures { result ≡ built_plan (leaf Leaf.Forever) }
    {
        Ok(Plan::of_leaf(Leaf::Forever))
    }

    /// Goes on at once, `count` times; the output is how often it has recurred. Refused as `OutOfRange` past `FAR`.
    pub fn recurs(count: u64) -> Result<Plan, PlanFault>
        ensures { result ≡ built_plan (leaf (Leaf.Recurs count)) }
    {
        let count = in_range(count)?;
        Ok(Plan::of_leaf(Leaf::Recurs(count)))
    }

    /// Goes on `delay` milliseconds after each event; the output is how often it has recurred.
    /// Refused as `OutOfRange` past `FAR`.
    pub fn spaced(delay: u64) -> Result<Plan, PlanFault>
        ensures { result ≡ built_plan (leaf (Leaf.Spaced delay)) }
    {
        let delay = in_range(delay)?;
        Ok(Plan::of_leaf(Leaf::Spaced(delay)))
    }

    /// Goes on at the boundaries of intervals of `length` milliseconds, the first of which begins at the first event,
    /// and at once where it is late by more than one interval; the output is how often it has recurred. Refused as
    /// `OutOfRange` at 0 and past `FAR`.
    pub fn fixed(length: u64) -> Result<Plan, PlanFault>
        ensures { result ≡ built_plan (leaf (Leaf.Fixed length)) }
    {
        let length = length_in_range(length)?;
        Ok(Plan::of_leaf(Leaf::Fixed(length)))
    }

    /// Goes on at the next boundary of intervals of `length` milliseconds, the first of which begins at the first
    /// event; the output is how often it has recurred. Refused as `OutOfRange` at 0 and past `FAR`.
    pub fn windowed(length: u64) -> Result<Plan, PlanFault>
        ensures { result ≡ built_plan (leaf (Leaf.Windowed length)) }
    {
        let length = length_in_range(length)?;
        Ok(Plan::of_leaf(Leaf::Windowed(length)))
    }

    /// Waits `delay` milliseconds, then twice as long, three times as long and so on; the output is the delay.
    /// Refused as `OutOfRange` past `FAR`.
    pub fn linear(delay: u64) -> Result<Plan, PlanFault>
        ensures { result ≡ built_plan (leaf (Leaf.Linear delay)) }
    {
        let delay = in_range(delay)?;
        Ok(Plan::of_leaf(Leaf::Linear(delay)))
    }

    /// Waits `base` milliseconds, and then each time `factor` times as long; the output is the delay.
    /// Refused as `OutOfRange` at a base past `FAR`, and at a factor that is 0 or past 1,000.
    pub fn exponential(base: u64, factor: u64) -> Result<Plan, PlanFault>
        ensures { result ≡ built_plan (leaf (Leaf.Exponential base factor)) }
    {
        let base = in_range(base)?;
        if factor == 0 || factor > MAX_FACTOR {
            return Err(PlanFault::OutOfRange);
        }
        Ok(Plan::of_leaf(Leaf::Exponential { base, factor }))
    }

    /// Waits `base` milliseconds, and then each time `thousandths` thousandths as long, rounded down; the output is the
    /// delay. Refused as `OutOfRange` at a base past `FAR`, and at thousandths that are 0 or past 1,000,000.
    pub fn exponential_milli(base: u64, thousandths: u64) -> Result<Plan, PlanFault>
        ensures { result ≡ built_plan (leaf (Leaf.ExponentialMilli base thousandths)) }
    {
        let base = in_range(base)?;
        if thousandths == 0 || thousandths > MAX_THOUSANDTHS {
            return Err(PlanFault::OutOfRange);
        }
        Ok(Plan::of_leaf(Leaf::ExponentialMilli { base, thousandths }))
    }

    /// Waits `delay` milliseconds times the Fibonacci numbers 1, 1, 2, 3, 5 and so on; the output is the delay.
    /// Refused as `OutOfRange` past `FAR`.
    pub fn fibonacci(delay: u64) -> Result<Plan, PlanFault>
        ensures { result ≡ built_plan (leaf (Leaf.Fibonacci delay)) }
    {
        let delay = in_range(delay)?;
        Ok(Plan::of_leaf(Leaf::Fibonacci(delay)))
    }

    /// Waits a delay that the random word of the lane picks between `base` milliseconds and `thousandths` thousandths
    /// of the delay before, rounded down, and at most `most` milliseconds; at first `base` stands for the delay before.
    /// The output is the delay. Refused as `OutOfRange` at a lane past 3, at thousandths below 1,000 and past
    /// 1,000,000, and at a most that is below the base or past `FAR`.
    pub fn decorrelated(
        lane: u64,
        base: u64,
        thousandths: u64,
        most: u64,
    ) -> Result<Plan, PlanFault>
        ensures { result ≡ built_plan (leaf (Leaf.Decorrelated lane base thousandths most)) }
    {
        if lane > LAST_LANE || thousandths < MIN_GROWTH || thousandths > MAX_THOUSANDTHS {
            return Err(PlanFault::OutOfRange);
        }
        let base = in_range(base)?;
        let most = in_range(most)?;
        if base > most {
            return Err(PlanFault::OutOfRange);
        }
        let lane = lane as usize;
        Ok(Plan::of_leaf(Leaf::Decorrelated {
            lane,
            base,
            thousandths,
            most,
        }))
    }

    /// Goes on for ever, at once; the output is the time since the first event. Never refused.
    pub fn elapsed() -> Result<Plan, PlanFault>
        ensures { result ≡ built_plan (leaf Leaf.Elapsed) }
    {
        Ok(Plan::of_leaf(Leaf::Elapsed))
    }

    /// Goes on for ever, at once; the output is the input. Never refused.
    pub fn identity() -> Result<Plan, PlanFault>
        ensures { result ≡ built_plan (leaf Leaf.Identity) }
    {
        Ok(Plan::of_leaf(Leaf::Identity))
    }

    /// Goes on for ever, at once; the output is `seed`, and then each time `factor` times the number before and
    /// `more`. Refused as `OutOfRange` where one of them is past `FAR`.
    pub fn unfold(seed: u64, factor: u64, more: u64) -> Result<Plan, PlanFault>
        ensures { result ≡ built_plan (leaf (Leaf.Unfold seed factor more)) }
    {
        let seed = in_range(seed)?;
        let factor = in_range(factor)?;
        let more = in_range(more)?;
        Ok(Plan::of_leaf(Leaf::Unfold { seed, factor, more }))
    }

    /// Goes on once, after `delay` milliseconds, which is then its output; later it is done, with output 0.
    /// Refused as `OutOfRange` past `FAR`.
    pub fn lone(delay: u64) -> Result<Plan, PlanFault>
        ensures { result ≡ built_plan (leaf (Leaf.Lone delay)) }
    {
        let delay = in_range(delay)?;
        Ok(Plan::of_leaf(Leaf::Lone(delay)))
    }
}
