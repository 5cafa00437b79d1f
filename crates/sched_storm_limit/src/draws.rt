//! What retries draw on.
ghost use Rattle.std.specs.Prelude.{◌≡◌, ◌↔◌, IsTrue};
ghost use Rattle.sched_ticket_quota.specs.Held.{AreTerms};
ghost use Rattle.sched_storm_limit.specs.Ranges.{IsLimit, AreDraws, has_draws};
ghost use Rattle.sched_storm_limit.specs.Limits.{cost_of};

use sched_limit::{Adaptive, Breaker, Bucket, InFlight, Throttle};
use sched_ticket_quota::{MAX_RESERVE, MAX_SHARE, MIN_PERIOD, Terms};

/// A limit of requests and retries.
#[derive(Clone, Copy, Debug, PartialEq, Eq)]
pub enum Limit {
    /// A bucket, full at first.
    Bucket {
        bucket: Bucket,
        /// What a retry takes, in thousandths of a token: at most the capacity.
        cost: u64,
        /// What it takes after a call that came late: at most the capacity.
        late: u64,
    },
    /// A bound on what is in flight.
    InFlight(InFlight),
    /// An adaptive limit, at its first level.
    Adaptive(Adaptive),
    /// A breaker, closed at first.
    Breaker(Breaker),
    /// A throttle that has counted nothing at first.
    Throttle(Throttle),
}

/// What retries draw on.
#[derive(Clone, Copy, Debug, PartialEq, Eq)]
pub enum Draws {
    /// Nothing: each retry that the plan goes on to is made.
    Nothing,
    /// A budget of so many tickets, at most 4294967296.
    Budget(u64),
    /// A quota of these terms, as a quota is made of.
    Quota(Terms),
    /// A limit, which requests ask for their first calls too.
    Limited(Limit),
}

impl Draws {
    /// Whether each number is in its range.
    pub fn are_in_range(&self) -> bool
        ensures { IsTrue result ↔ AreDraws self.now }
    {
        match self {
            Draws::Nothing => true,
            Draws::Budget(limit) => *limit <= MAX_RESERVE,
            Draws::Quota(terms) => are_terms(*terms),
            Draws::Limited(limit) => limit.is_in_range(),
        }
    }

    /// Whether retries draw on anything.
    pub fn are_some(&self) -> bool
        ensures { result ≡ has_draws self.now }
    {
        !matches!(self, Draws::Nothing)
    }
}

impl Limit {
    fn is_in_range(&self) -> bool
        ensures { IsTrue result ↔ IsLimit self.now }
    {
        match self {
            Limit::Bucket { bucket, cost, late } => {
                bucket.is_sound() && *cost <= bucket.capacity && *late <= bucket.capacity
            }
            Limit::InFlight(_) | Limit::Adaptive(_) | Limit::Breaker(_) | Limit::Throttle(_) => {
                true
            }
        }
    }

    /// What a draw costs, after a call that came late or after another.
    pub(crate) fn cost(&self, is_late: bool) -> u64
        ensures { result ≡ cost_of self.now is_late }
    {
        match self {
            Limit::Bucket { cost, late, .. } => { if is_late { *late } else { *cost } }
            Limit::InFlight(_) | Limit::Adaptive(_) | Limit::Breaker(_) | Limit::Throttle(_) => 0,
        }
    }
}

fn are_terms(terms: Terms) -> bool
    ensures { IsTrue result ↔ AreTerms terms }
{
    terms.reserve <= MAX_RESERVE && terms.share <= MAX_SHARE && MIN_PERIOD <= terms.period.get()
}
