//! What a limit is told.

use sched_time::Moment;

/// A call on a limit. Each machine takes of a call what it needs.
#[derive(Clone, Copy, Debug, PartialEq, Eq, Drop)]
pub enum Call {
    /// A request asks to be admitted before its first run: at this moment, with a random word, and with the word that
    /// was found of the window before. A throttle reads these two.
    Admit(Moment, u32, u64),
    /// A request asks for a retry: at this moment, at this cost, and with so many slots that its earlier retries hold.
    Draw(Moment, u64, u64),
    /// A run failed: at this moment, and admitted in this generation.
    Failed(Moment, u64),
    /// A run succeeded: at this moment, admitted in this generation, and worth so much.
    Succeeded(Moment, u64, u64),
    /// A request is over, with so many slots that its retries hold.
    Ended(u64),
    /// A retry that was drawn at this cost was cancelled, with so many slots that it holds.
    Returned(u64, u64),
    /// The window before that of this moment takes no more counts.
    Closed(Moment),
    /// Somebody opens a breaker by hand at a moment: from now on it is open until another moment.
    OpenedByHand(Moment, Moment),
    /// Somebody closes a breaker by hand, at this moment.
    ClosedByHand(Moment),
}
