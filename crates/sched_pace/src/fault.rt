//! Why a take was not granted, or a pass not split.

use sched_time::Moment;

/// Why a take was not granted. Nothing has changed.
#[derive(Clone, Copy, Debug, PartialEq, Eq, Drop)]
pub enum TakeFault {
    /// The call would wait too long. This is the first moment at which it would be granted.
    TooSoon(Moment),
    /// No call costs so much, or nothing.
    NoCost,
    /// Other calls came first, 64 times.
    RacesLost,
}

/// Why a pass of a pace was not split.
#[derive(Clone, Copy, Debug, PartialEq, Eq, Drop)]
pub enum SplitFault {
    /// A growth was refused.
    NoMemory,
    /// The pass has one part, which it keeps.
    TooManyPasses,
}
