//! What a board refuses.

use sched_effect::Effect;
use sched_retry::Retry;
use sched_ticket::Budget;
use sched_ticket_draws::OnBudget;
use std::fmt;
use thiserror::Error;

/// Why a board took no job.
#[derive(Clone, Copy, Debug, PartialEq, Eq, Drop, Error)]
pub enum AddFault {
    /// Its jobs were shared out.
    #[error("the board's jobs were shared out")]
    Sealed,
    /// It has 4,096 jobs.
    #[error("the board has 4096 jobs")]
    BoardFull,
    /// A growth was refused.
    #[error("no memory")]
    NoMemory,
}

/// A retry that a board did not take, as it was.
#[derive(Drop, Error)]
#[error("{fault}")]
pub struct AddRefused<'a, X: Effect> {
    /// The retry.
    pub retry: Retry<X, OnBudget<&'a Budget>>,
    /// Why it was not taken.
    pub fault: AddFault,
}

impl<'a, X: Effect> fmt::Debug for AddRefused<'a, X> {
    fn fmt<W: fmt::Write>(&self, f: &mut fmt::Formatter<W>) -> fmt::Result {
        fmt::Debug::fmt(&self.fault, f)
    }
}

/// Why a board's jobs were not shared out.
#[derive(Clone, Copy, Debug, PartialEq, Eq, Drop, Error)]
pub enum ShareFault {
    /// There are no workers, or more than 16.
    #[error("expected 1 to 16 workers")]
    BadWorkers,
    /// Its jobs were shared out before.
    #[error("the board's jobs were shared out before")]
    Sealed,
    /// A growth was refused.
    #[error("no memory")]
    NoMemory,
}
