//! Why a call on a quota was refused.

use sched_time::Moment;
use thiserror::Error;

/// Why a quota was not made, or a pass not split.
#[derive(Clone, Copy, Debug, PartialEq, Eq, Drop, Error)]
pub enum QuotaFault {
    /// The reserve is more than 4294967296 tickets.
    #[error("the reserve is more than 4294967296 tickets a window")]
    ReserveTooLarge,
    /// The share is more than 1,000,000 thousandths.
    #[error("the share is more than 1000 tickets a request")]
    ShareTooLarge,
    /// The period is less than 100 ms.
    #[error("the window is shorter than 100 ms")]
    PeriodTooShort,
    /// A growth was refused.
    #[error("no memory")]
    NoMemory,
    /// The pass has one part, which it keeps.
    #[error("the pass has no part to give")]
    TooManyPasses,
}

/// Why a draw was refused. The pass may draw again.
#[derive(Clone, Copy, Debug, PartialEq, Eq, Drop, Error)]
pub enum Refusal {
    /// As many tickets were given in the window as its requests allow. It ends at this moment, and the next has a
    /// reserve again; till then only further requests allow more.
    #[error("the tickets of the window are out")]
    WindowOut(Moment),
    /// Other draws came first 64 times in this call.
    #[error("64 races with other draws were lost")]
    RacesLost,
}

/// Why no ticket was handed back.
#[derive(Clone, Copy, Debug, PartialEq, Eq, Drop, Error)]
pub enum NotBack {
    /// The pass has drawn none since it was made, or since it handed one back.
    #[error("the pass has no ticket to hand back")]
    NoTicket,
    /// Others were handed back first, 64 times in this call. The pass keeps its ticket, and may try again.
    #[error("64 races with other tickets were lost")]
    RacesLost,
}

/// Requests were not counted at once: they are more than the pass has parts.
#[derive(Clone, Copy, Debug, PartialEq, Eq, Drop, Error)]
#[error("the requests are more than the pass has parts")]
pub struct WeightTooLarge;

/// A quota was not closed: another of its passes is alive, or was dropped.
#[derive(Clone, Copy, Debug, PartialEq, Eq, Drop, Error)]
#[error("another pass of the quota is alive or was dropped")]
pub struct PassesOut;
