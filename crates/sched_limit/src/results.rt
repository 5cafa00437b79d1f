//! What a closed breaker keeps of the results of its generation.
ghost use Rattle.std.specs.Prelude.{◌≡◌, ◌<◌, ◌≤◌, IfSome, OnSome, IfNone};
ghost use Rattle.sched_limit.specs.Breaker.{and_failure, and_success, failures_kept};
ghost use Rattle.sched_limit.specs.Results.{IsByResults};

use crate::breaker::Breaker;

/// The most results among which failures count.
pub const MAX_RESULTS: u32 = 32;

impl Breaker {
    /// The same breaker, whose failures count among so many of its last results. None where these are fewer than the
    /// failures that open it, or more than 32.
    pub fn by_results(self, results: u32) -> Option<Breaker>
        ensures some { IfSome result (IsByResults self results) }
        ensures results { OnSome result ((self.failures ≤ results) × (0 < results)) }
        ensures none { IfNone result (((self.failures ≤ results) × (0 < results) × (results ≤ 32)) → ⊥) }
    {
        if results == 0 || results < self.failures || results > MAX_RESULTS {
            return None;
        }
        let times = self.times;
        Some(Breaker {
            failures: self.failures,
            results,
            probes: self.probes,
            deadline: self.deadline,
            start: self.start,
            times,
            last: self.last,
        })
    }

    /// What is kept after one more failure.
    pub(crate) fn and_failure(&self, kept: u64) -> u64
        requires { kept < 2251799813685248 }
        ensures { result ≡ and_failure self.now kept }
    {
        if self.results == 0 {
            kept + 1
        } else {
            (2 * kept + 1) % (1 << self.results)
        }
    }

    /// What is kept after one more success.
    pub(crate) fn and_success(&self, kept: u64) -> u64
        requires { kept < 2251799813685248 }
        ensures kept { result ≡ and_success self.now kept }
        ensures small { result < 2251799813685248 }
    {
        if self.results == 0 {
            0
        } else {
            2 * kept % (1 << self.results)
        }
    }

    /// How many failures these are.
    pub(crate) fn failures_kept(&self, kept: u64) -> u64
        ensures { result ≡ failures_kept self.now kept }
    {
        if self.results == 0 {
            kept
        } else {
            kept.count_ones() as u64
        }
    }
}
