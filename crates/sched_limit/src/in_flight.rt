//! What is in flight: as many retries at once as a share of the requests at once, and requests up to a most.
ghost use Rattle.std.specs.Prelude.{◌≡◌, ◌*◌, ◌≤◌};
ghost use Rattle.sched_limit.specs.InFlight.{bound, retried};

use crate::refusal::Refusal;
use crate::refuses::Refuses;
use sched_limit_word::{Call, Machine};

/// How many requests, or retries, are counted at most, and by how much the word of one request is.
const REQUEST: u64 = 4294967296;

/// The most of each.
const MOST: u64 = 4294967295;

/// The most requests of a bound that sets none.
pub const NO_MOST: u32 = 4294967295;

/// A bound on what is in flight: on requests a number, on retries the greater of a least number and a share of the
/// requests.
#[derive(Clone, Copy, Debug, PartialEq, Eq, Drop)]
pub struct InFlight {
    /// How many retries there may be, however few requests.
    pub least: u32,
    /// The thousandths of a retry that each request in flight allows.
    pub share: u32,
    /// How many requests there may be: `NO_MOST` for as many as can be counted.
    pub most: u32,
}

impl InFlight {
    /// Envoy's `retry_budget`: so many percent of the requests in flight, and at least so many. It bounds no requests.
    pub fn envoy(budget_percent: u8, min_retry_concurrency: u32) -> InFlight
        ensures { result ≡ record { least = min_retry_concurrency; share = 10 * budget_percent; most = 4294967295 } }
    {
        InFlight {
            least: min_retry_concurrency,
            share: 10 * budget_percent as u32,
            most: NO_MOST,
        }
    }

    /// How many retries so many requests allow.
    fn bound(&self, requests: u64) -> u64
        requires { requests ≤ 4294967295 }
        ensures { result ≡ bound self.now requests }
    {
        (self.least as u64)
            .max(self.share as u64 * requests / 1000)
            .min(MOST)
    }

    /// The word after a draw, where so many requests and retries are in flight.
    fn retried(&self, requests: u64, retries: u64) -> u64
        requires requests { requests ≤ 4294967295 }
        requires retries { retries ≤ 4294967295 }
        ensures { result ≡ retried self.now requests retries }
    {
        if retries < self.bound(requests) {
            requests * REQUEST + (retries + 1)
        } else {
            requests * REQUEST + retries
        }
    }
}

impl Machine for InFlight {
    ghost use Rattle.sched_limit.specs.InFlight.{flight_next};
    ghost use Rattle.sched_limit.specs.FlightTokens.{flight_tokens};

    ghost first = { λ k. 0 };

    ghost next = { flight_next };

    ghost tokens = { flight_tokens };

    fn first(&self) -> u64 {
        0
    }

    #[inline(always)]
    fn next(&self, call: Call, word: u64) -> u64 {
        let requests = word / REQUEST;
        let retries = word % REQUEST;
        match call {
            Call::Admit(_, _, _) => {
                if requests < self.most as u64 {
                    word + REQUEST
                } else {
                    word
                }
            }
            Call::Draw(_, _, slots) => self.retried(requests, retries.saturating_sub(slots)),
            Call::Ended(slots) => {
                requests.saturating_sub(1) * REQUEST + retries.saturating_sub(slots)
            }
            Call::Failed(_, _) => word,
            Call::Succeeded(_, _, _) => word,
            Call::Returned(_, slots) => requests * REQUEST + retries.saturating_sub(slots),
            Call::Closed(_) => word,
            Call::OpenedByHand(_, _) => word,
            Call::ClosedByHand(_) => word,
        }
    }
}

impl Refuses for InFlight {
    ghost use Rattle.sched_limit.specs.InFlight.{flight_refusal};
    ghost use Rattle.sched_limit.specs.FlightTokens.{flight_holds};
    ghost use Rattle.sched_limit.specs.FlightHonest.{flight_honest};

    ghost refusal = { flight_refusal };

    ghost generation = { λ k word. 0 };

    ghost worth = { λ k drawn. 0 };

    ghost holds = { λ k. flight_holds };

    ghost honest = { flight_honest };

    #[inline(always)]
    fn refusal(&self, call: Call, word: u64) -> Option<Refusal> {
        let requests = word / REQUEST;
        let retries = word % REQUEST;
        match call {
            Call::Admit(_, _, _) => {
                if requests < self.most as u64 {
                    None
                } else {
                    Some(Refusal::TooMany)
                }
            }
            Call::Draw(_, _, slots) => {
                if retries.saturating_sub(slots) < self.bound(requests) {
                    None
                } else {
                    Some(Refusal::Full)
                }
            }
            Call::Ended(_) => None,
            Call::Failed(_, _) => None,
            Call::Succeeded(_, _, _) => None,
            Call::Returned(_, _) => None,
            Call::Closed(_) => None,
            Call::OpenedByHand(_, _) => None,
            Call::ClosedByHand(_) => None,
        }
    }

    fn generation(&self, _word: u64) -> u64 {
        0
    }

    fn worth(&self, _drawn: Option<u64>) -> u64 {
        0
    }
}
