//! When requests come: at moments that are given, one for each, or by the rates of a storm where none is given.
ghost use Rattle.std.specs.Prelude.{◌≡◌, ◌≤◌, ◌↔◌, IsTrue, length};
ghost use Rattle.sched_storm.specs.Arrivals.{AreRising, AreArrivals, all_requests, comes_at};

use crate::storm::{MAX_REQUESTS, MAX_UNTIL, Storm};

/// Whether requests may come at these moments, in milliseconds: they do not fall, they are at most 1,048,576, and none
/// is after 7,200,000.
pub fn are_arrivals(moments: &[u64]) -> bool
    ensures { IsTrue result ↔ AreArrivals moments.now }
{
    moments.len() as u64 <= MAX_REQUESTS && are_rising(moments)
}

fn are_rising(moments: &[u64]) -> bool
    ensures { IsTrue result ↔ AreRising 0 moments.now }
{
    let mut from = 0;
    for moment in moments {
        if *moment < from || MAX_UNTIL < *moment {
            return false;
        }
        from = *moment;
    }
    true
}

impl Storm {
    /// The moment at which a request begins its first call, of requests that are numbered from 0.
    pub(crate) fn comes_at(&self, arrivals: &[u64], request: u64) -> u64
        requires { request ≤ 1048576 }
        ensures { result ≡ comes_at arrivals.now self.now request }
    {
        if arrivals.len() == 0 {
            return self.comes_by_rate(request);
        }
        match arrivals.get(request as usize) {
            Some(moment) => *moment,
            None => 0,
        }
    }

    /// How many requests come in all, where `until` allows.
    pub(crate) fn all_requests(&self, arrivals: &[u64]) -> u64
        ensures { result ≡ all_requests arrivals.now self.now }
    {
        if arrivals.len() == 0 {
            self.requests_by_rate()
        } else {
            arrivals.len() as u64
        }
    }
}
