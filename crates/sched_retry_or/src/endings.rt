//! What a retry with a fallback hands out once it is over.

use sched_task::RunFault;

/// How a retry with a fallback ended, with what it ended with.
#[derive(Drop)]
pub enum RetryOrEnding<I: Drop, F: Drop> {
    /// The first success.
    Won(I),
    /// What the fallback gave instead of the last failure.
    Fallen(Result<I, F>),
    /// Its next run would have begun past its deadline.
    DeadlinePassed,
    /// It was cancelled.
    Cancelled,
    /// It could not go on.
    Broken(RunFault),
}
