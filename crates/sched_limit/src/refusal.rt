//! Why a limit refuses a request or a retry.

use sched_time::Moment;

/// Why a request was not admitted, or a retry not granted.
#[derive(Clone, Copy, Debug, PartialEq, Eq, Drop)]
pub enum Refusal {
    /// The bucket's level, which the draw would take below the floor.
    LevelLow(u64),
    /// As many requests are in flight as the limit admits.
    TooMany,
    /// As many retries are in flight as the requests allow.
    Full,
    /// The breaker is open until this moment.
    Open(Moment),
    /// The breaker has as many probes out as it admits.
    Probing,
    /// The throttle refuses it, since too few of the latest requests were accepted.
    Throttled,
    /// Other calls came first, 64 times.
    RacesLost,
    /// A request is admitted once, before it draws, and the next one after it has ended.
    OutOfTurn,
}
