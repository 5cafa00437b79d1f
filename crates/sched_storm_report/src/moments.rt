//! What happens in a storm.
use crate::peer::Busy;

/// Why a call failed.
#[derive(Clone, Copy, Debug, PartialEq, Eq)]
pub enum Failure {
    /// The peer was away.
    Refused,
    /// The queue was full.
    Shed,
    /// Its client gave it up.
    Late,
}

/// What follows a call that failed.
#[derive(Clone, Copy, Debug, PartialEq, Eq)]
pub enum Then {
    /// The policy is done, and the request is lost.
    Lost,
    /// The request gets no ticket.
    Denied,
    /// A retry is granted, and the request waits for it.
    Waits {
        /// Whether a ticket was given for it.
        ticket: bool,
    },
}

/// What happens at a moment.
#[derive(Clone, Copy, Debug, PartialEq, Eq)]
pub enum Happening {
    /// A request comes and begins its first call.
    Request,
    /// A retry begins.
    Retry,
    /// A call succeeds, and its request is won.
    Won {
        /// When the request began its first call.
        began: u64,
    },
    /// A call fails.
    Failed {
        /// Why it failed.
        failure: Failure,
        /// What becomes of its request.
        then: Then,
    },
    /// A request comes and is refused before its first call: it is denied, and makes no call.
    Refused,
}

/// What happens, and when.
#[derive(Clone, Copy, Debug, PartialEq, Eq)]
pub struct Moment {
    /// When it happens, in milliseconds.
    pub at: u64,
    /// What happens.
    pub what: Happening,
    /// What the peer's replicas have taken, this moment's included.
    pub busy: Busy,
}
