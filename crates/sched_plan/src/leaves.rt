use sched_time::Millis;

/// A recurrence of its own. Delays are in milliseconds.
#[derive(Clone, Copy, Debug, PartialEq, Eq)]
pub enum Leaf {
    /// Goes on for ever, at once.
    Forever,
    /// Goes on at once, so many times.
    Recurs(Millis),
    /// Goes on this delay after each event.
    Spaced(Millis),
    /// Goes on at the boundaries of intervals of this length, the first of which begins at the first event; at once
    /// where it is late by more than one interval.
    Fixed(Millis),
    /// Goes on at the next boundary of intervals of this length, the first of which begins at the first event.
    Windowed(Millis),
    /// Waits this delay, then twice as long, three times as long and so on.
    Linear(Millis),
    /// Waits `base`, and then each time `factor` times as long.
    Exponential {
        base: Millis,
        factor: u64,
    },
    /// Waits `base`, and then each time `thousandths` thousandths as long, rounded down.
    ExponentialMilli {
        base: Millis,
        thousandths: u64,
    },
    /// Waits this delay times the Fibonacci numbers 1, 1, 2, 3, 5 and so on.
    Fibonacci(Millis),
    /// Waits a delay that the random word of the lane picks between `base` and `thousandths` thousandths of the delay
    /// before, for which `base` stands at first; at most `most`. AWS calls it decorrelated jitter.
    Decorrelated {
        lane: usize,
        base: Millis,
        thousandths: u64,
        most: Millis,
    },
    /// Goes on at once, and gives the time since the first event.
    Elapsed,
    /// Goes on at once, and gives the input.
    Identity,
    /// Goes on at once, and gives `seed`, and then each time `factor` times the number before and `more`.
    Unfold {
        seed: Millis,
        factor: Millis,
        more: Millis,
    },
    /// Goes on once, after this delay.
    Lone(Millis),
}
