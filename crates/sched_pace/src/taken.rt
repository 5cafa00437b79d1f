//! What a take is told.

use sched_time::Moment;

/// What a take is told of the word that it found.
#[derive(Clone, Copy, Debug, PartialEq, Eq, Drop)]
pub enum Taken {
    /// The call may begin at this moment. The word becomes this mark, by which the take is given back.
    Granted(Moment, u64),
    /// The call would wait too long. This is the first moment at which it would be granted.
    TooSoon(Moment),
    /// No call costs so much, or nothing.
    NoCost,
}
