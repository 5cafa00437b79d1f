//! What is seen of a limit.

use sched_time::Moment;

/// What a limit's state is.
#[derive(Clone, Copy, Debug, PartialEq, Eq, Drop)]
pub enum Seen {
    /// A bucket: its level, and that of a full one.
    Bucket(u64, u64),
    /// What is in flight: the requests, the retries, and the most requests that there may be.
    InFlight(u64, u64, u64),
    /// An adaptive limit: the requests in flight, and its level, in thousandths of one.
    Adaptive(u64, u64),
    /// A breaker that is closed: the failures in a row, or among its last results.
    Closed(u64),
    /// A breaker that is open: until when, and which trip it is, from 1 on.
    Open(Moment, u64),
    /// A breaker that is half open: the probes that it admitted, and those that won.
    HalfOpen(u64, u64),
    /// A throttle: the requests of the present window and of the one before, and the accepts.
    Throttle(u64, u64),
}
