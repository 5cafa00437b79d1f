//! The adaptive limit as a machine: requests in flight up to a level, which successes raise and failures lower.
ghost use Rattle.std.specs.Prelude.{◌≡◌, ◌<◌};
ghost use Rattle.sched_limit.specs.Adaptive.{inside_of, level_of, laid, has_room, lowered, raised, learned};

use crate::adaptive::Adaptive;
use crate::refusal::Refusal;
use crate::refuses::Refuses;
use sched_limit_word::{Call, Machine};

/// By how much the word of one request is; what is below it is the level.
const REQUEST: u64 = 4294967296;

impl Adaptive {
    /// The level after a failure.
    fn lowered(&self, level: u64) -> u64
        requires { level < 4294967296 }
        ensures level { result ≡ lowered self.now level }
        ensures small { result < 4294967296 }
    {
        (level * self.backoff as u64 / 1000).max(1000 * self.least as u64)
    }

    /// The level after a success while at least half of it was in use.
    fn raised(&self, level: u64) -> u64
        requires { level < 4294967296 }
        ensures level { result ≡ raised self.now level }
        ensures small { result < 4294967296 }
    {
        (level + (1000000 / level.max(1)).max(1)).min(1000 * self.most as u64)
    }

    /// The word after a success.
    fn learned(&self, word: u64) -> u64
        ensures { result ≡ learned self.now word }
    {
        if level_of(word) <= 2000 * inside_of(word) {
            laid(inside_of(word), self.raised(level_of(word)))
        } else {
            word
        }
    }

    /// Whether one more request is within the level.
    fn has_room(&self, word: u64) -> bool
        ensures { result ≡ has_room word }
    {
        inside_of(word) < level_of(word) / 1000
    }
}

/// How many requests are in flight, by a limit's word.
pub fn inside_of(word: u64) -> u64
    ensures inside { result ≡ inside_of word }
    ensures small { result < 4294967296 }
{
    word / REQUEST
}

/// The level, in thousandths of a request, by a limit's word.
pub fn level_of(word: u64) -> u64
    ensures level { result ≡ level_of word }
    ensures small { result < 4294967296 }
{
    word % REQUEST
}

/// The word of so many requests at such a level.
fn laid(inside: u64, level: u64) -> u64
    requires inside { inside < 4294967296 }
    requires level { level < 4294967296 }
    ensures { result ≡ laid inside level }
{
    inside * REQUEST + level
}

impl Machine for Adaptive {
    ghost use Rattle.sched_limit.specs.Adaptive.{adaptive_first, adaptive_next};
    ghost use Rattle.sched_limit.specs.AdaptiveTokens.{adaptive_tokens};

    ghost first = { adaptive_first };

    ghost next = { adaptive_next };

    ghost tokens = { λ k. adaptive_tokens };

    fn first(&self) -> u64 {
        1000 * self.first as u64
    }

    #[inline(always)]
    fn next(&self, call: Call, word: u64) -> u64 {
        match call {
            Call::Admit(_, _, _) => {
                if self.has_room(word) {
                    word + REQUEST
                } else {
                    word
                }
            }
            Call::Failed(_, _) => laid(inside_of(word), self.lowered(level_of(word))),
            Call::Succeeded(_, _, _) => self.learned(word),
            Call::Ended(_) => laid(inside_of(word).saturating_sub(1), level_of(word)),
            Call::Draw(_, _, _) => word,
            Call::Returned(_, _) => word,
            Call::Closed(_) => word,
            Call::OpenedByHand(_, _) => word,
            Call::ClosedByHand(_) => word,
        }
    }
}

impl Refuses for Adaptive {
    ghost use Rattle.sched_limit.specs.Adaptive.{adaptive_refusal};
    ghost use Rattle.sched_limit.specs.AdaptiveTokens.{adaptive_holds};
    ghost use Rattle.sched_limit.specs.AdaptiveHonest.{adaptive_honest};

    ghost refusal = { λ k. adaptive_refusal };

    ghost generation = { λ k word. 0 };

    ghost worth = { λ k drawn. 0 };

    ghost holds = { λ k. adaptive_holds };

    ghost honest = { adaptive_honest };

    #[inline(always)]
    fn refusal(&self, call: Call, word: u64) -> Option<Refusal> {
        match call {
            Call::Admit(_, _, _) => {
                if self.has_room(word) {
                    None
                } else {
                    Some(Refusal::TooMany)
                }
            }
            Call::Draw(_, _, _) => None,
            Call::Failed(_, _) => None,
            Call::Succeeded(_, _, _) => None,
            Call::Ended(_) => None,
            Call::Returned(_, _) => None,
            Call::Closed(_) => None,
            Call::OpenedByHand(_, _) => None,
            Call::ClosedByHand(_) => None,
        }
    }

    fn generation(&self, _word: u64) -> u64 {
        0
    }

    fn worth(&self, _drawn: Option<u64>) -> u64 {
        0
    }
}
