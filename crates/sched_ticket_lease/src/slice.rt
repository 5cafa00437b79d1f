//! Requests that were counted in a stretch of time.
ghost use Rattle.std.specs.Prelude.{◌<◌, ◌≤◌};

/// So many requests, all of them counted from `began` on and before `ends`.
#[derive(Clone, Copy, Debug, Drop)]
pub struct Slice {
    pub began: u64,
    pub ends: u64,
    pub count: u64,
}

impl Slice {
    ghost use Rattle.std.specs.Prelude.{MatchBool};
    ghost use Rattle.sched_ticket_lease.specs.Requests.{HasEnded};

    /// Whether it goes on at this moment.
    pub(crate) fn goes_on(&self, now: u64) -> bool
        ensures { MatchBool result ((self.now.began ≤ now) × (now < self.now.ends)) (HasEnded now self.now) }
    {
        self.began <= now && now < self.ends
    }
}
