//! What is done with limits beside what requests ask of them: with a limit, and with limits and one more.
ghost use Rattle.std.specs.Prelude.{◌≡◌};
ghost use Rattle.sched_limit_handle.specs.Stands.{Stood};

use crate::any_limit::AnyLimit;
use sched_limit::Seen;
use sched_limit_request::{Asks, Both, Hand};
use sched_time::Moment;

/// Limits at once, as a handle has them.
pub(crate) trait Stands: Asks {
    /// A word of each limit, in the order in which they are asked.
    type Words;

    // What each call does.
    ghost stood: { Stood Self Self.Words };

    /// Looks at the word of each limit that has one that can be quiet. Answers what it saw, and whether a request may
    /// begin at it.
    fn look(&mut self) -> (Self::Words, bool)
        ensures looked { self.new ≡ stood.looked self.old result.0 }
        ensures begins { result.1 ≡ stood.may_begin self.new result.0 };

    /// Whether a request may begin at these words.
    fn may_begin(&self, words: &Self::Words) -> bool
        ensures { result ≡ stood.may_begin self.now words.now };

    /// A request begins that all limits admitted at these words, where one may begin.
    fn begin(&mut self, words: &Self::Words) -> bool
        ensures begins { result ≡ stood.may_begin self.old words.now }
        ensures begun { self.new ≡ stood.begun self.old words.now };

    /// Opens each breaker or closes it, and answers whether there is one.
    fn by_hand(&mut self, hand: &Hand) -> bool
        ensures does { stood.by_hand hand.now self.old self.new }
        ensures some { result ≡ stood.has_breaker self.old };

    /// What the state is of the limit after which so many others are asked.
    fn seen(&mut self, after: u64, now: Moment) -> Seen
        ensures { stood.seen after now self.old result self.new };
}

impl Stands for AnyLimit {
    ghost use Rattle.sched_limit_handle.specs.Stands.{any_stood};

    type Words = u64;

    ghost stood = { any_stood };

    #[inline(always)]
    fn look(&mut self) -> (u64, bool) {
        let mut word = 0;
        let begins = match self {
            AnyLimit::Bucket(limit) => limit.look(&mut word),
            AnyLimit::Breaker(limit) => limit.look(&mut word),
            _ => false,
        };
        (word, begins)
    }

    fn may_begin(&self, word: &u64) -> bool {
        match self {
            AnyLimit::Bucket(limit) => limit.may_begin(*word),
            AnyLimit::Breaker(limit) => limit.may_begin(*word),
            _ => false,
        }
    }

    fn begin(&mut self, word: &u64) -> bool {
        match self {
            AnyLimit::Bucket(limit) => limit.begin(*word),
            AnyLimit::Breaker(limit) => limit.begin(*word),
            _ => false,
        }
    }

    fn by_hand(&mut self, hand: &Hand) -> bool {
        match self {
            AnyLimit::Breaker(limit) => {
                limit.by_hand(hand);
                true
            }
            _ => false,
        }
    }

    fn seen(&mut self, _after: u64, now: Moment) -> Seen {
        match self {
            AnyLimit::Bucket(limit) => limit.seen(),
            AnyLimit::InFlight(limit) => limit.seen(),
            AnyLimit::Adaptive(limit) => limit.seen(),
            AnyLimit::Breaker(limit) => limit.seen(),
            AnyLimit::Throttle(limit) => limit.seen(now),
        }
    }
}

impl<A: Stands> Stands for Both<A, AnyLimit> {
    ghost use Rattle.sched_limit_handle.specs.Stands.{and_stood};

    type Words = (A::Words, u64);

    ghost stood = { and_stood A.stood };

    #[inline(always)]
    fn look(&mut self) -> ((A::Words, u64), bool) {
        let (first, begins) = self.first.look();
        let (second, last_begins) = self.second.look();
        ((first, second), begins && last_begins)
    }

    fn may_begin(&self, words: &(A::Words, u64)) -> bool {
        self.first.may_begin(&words.0) && self.second.may_begin(&words.1)
    }

    fn begin(&mut self, words: &(A::Words, u64)) -> bool {
        if !self.may_begin(words) {
            return false;
        }
        let _ = self.first.begin(&words.0);
        self.second.begin(&words.1)
    }

    fn by_hand(&mut self, hand: &Hand) -> bool {
        let first = self.first.by_hand(hand);
        let second = self.second.by_hand(hand);
        first || second
    }

    fn seen(&mut self, after: u64, now: Moment) -> Seen {
        if after == 0 {
            self.second.seen(0, now)
        } else {
            self.first.seen(after - 1, now)
        }
    }
}
