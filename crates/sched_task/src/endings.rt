//! How a task ended.

use thiserror::Error;

/// How a task ended.
#[derive(Clone, Copy, Debug, PartialEq, Eq)]
pub enum How {
    /// A run succeeded.
    Won,
    /// The schedule was done.
    ScheduleDone,
    /// The retry budget had no ticket left.
    BudgetRefused,
    /// Its next run would have begun past its deadline.
    DeadlinePassed,
    /// A run failed where only successes are repeated.
    Failed,
    /// It was cancelled.
    Cancelled,
    /// It could not go on.
    Broken(RunFault),
}

/// Why a task could not go on.
#[derive(Clone, Copy, Debug, PartialEq, Eq, Error)]
pub enum RunFault {
    /// A growth was refused.
    #[error("no memory")]
    NoMemory,
    /// The driver's journal holds 65,536 events.
    #[error("the journal is full")]
    JournalFull,
    /// The clock went back.
    #[error("the clock went back")]
    Backwards,
}
