//! The breaker: what it is made with.
ghost use Rattle.std.specs.Prelude.{◌≡◌, ◌<◌, ◌≤◌, length, IfSome, OnSome, IfNone};

use sched_time::{Millis, Moment};

/// The most probes.
pub const MAX_PROBES: u64 = 15;

/// How many open times are kept. Past the last one that is kept, it holds.
pub const MAX_TRIPS: usize = 64;

/// A breaker: after so many failures in a row, or among its last results, it is open, for the first of its open times,
/// and for the next where a probe failed. After that it is half open, and admits probes: where so many won it is
/// closed, and where one failed it is open again. Probes that tell nothing are over at a deadline.
#[derive(Clone, Copy, Debug, PartialEq, Eq, Drop)]
pub struct Breaker {
    pub(crate) failures: u32,
    pub(crate) results: u32,
    pub(crate) probes: u64,
    pub(crate) deadline: u64,
    pub(crate) start: u64,
    pub(crate) times: [u64; 64],
    pub(crate) last: u64,
    ghost few_failures: { (failures < 4294967296) × (results ≤ 32) },
    ghost few_probes: { (0 < probes) × (probes ≤ 15) },
    ghost few_trips: { (last ≤ 63) × (length times ≡ 64) },
    ghost near: { deadline ≤ 4611686018427387903 },
}

impl Breaker {
    /// A breaker of these open times, of which the first `last + 1` count, whose clock begins at `now`. None where it
    /// is to open after no failure, with no probe or more than 15, or with more than 64 open times.
    pub fn new(
        now: Moment,
        failures: u32,
        probes: u64,
        deadline: Millis,
        times: [u64; MAX_TRIPS],
        last: u64,
    ) -> Option<Breaker>
        ensures some { IfSome result (λ b.
            (b.failures ≡ failures) × (b.results ≡ 0) × (b.probes ≡ probes) × (b.deadline ≡ deadline) × (b.start ≡ now)
            × (b.times ≡ times) × (b.last ≡ last)) }
        ensures failures { OnSome result (0 < failures) }
        ensures none { IfNone result (((0 < failures) × (0 < probes) × (probes ≤ 15) × (last ≤ 63)) → ⊥) }
    {
        if failures == 0 || probes == 0 || probes > MAX_PROBES || last >= 64 {
            return None;
        }
        Some(Breaker {
            failures,
            results: 0,
            probes,
            deadline: deadline.get(),
            start: now.get(),
            times,
            last,
        })
    }
}
