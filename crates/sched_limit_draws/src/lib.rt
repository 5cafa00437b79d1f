//! A limit as retries draw on it: a bucket, a bound on what is in flight, a breaker, a throttle, or two at once. Each
//! call on it is the limit's own, with a random word and the cost of the failure at hand. It stands on
//! `sched_limit_request`, and is told by what stands on `sched_ticket_draws`.
#![tactic(auto)]

mod costs;
mod on_asks;

pub use costs::Costs;
pub use on_asks::OnAsks;
