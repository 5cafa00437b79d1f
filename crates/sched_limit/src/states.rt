//! What a limit's state is, as its word says.
ghost use Rattle.std.specs.Prelude.{◌≡◌};
ghost use Rattle.sched_limit.specs.States.{throttle_seen};

use crate::adaptive::Adaptive;
use crate::adaptive_machine::{inside_of, level_of};
use crate::breaker::Breaker;
use crate::breaker_machine::moment_at;
use crate::bucket::Bucket;
use crate::in_flight::InFlight;
use crate::refuses::Refuses;
use crate::seen::Seen;
use crate::throttle::Throttle;
use crate::window::{accepts_at, requests_at};
use crate::word::{admitted_of, at_of, count_of, is_tripped, trip_of, won_of};
use sched_time::Moment;

/// A machine whose word says what its state is.
pub trait States: Refuses {
    ghost use Rattle.std.specs.Prelude.{ℕ};
    ghost use Rattle.sched_limit.specs.declared.seen.Seen.{Seen};

    // What its state is at a word.
    ghost seen: { Self → ℕ → Seen };

    /// What its state is at this word.
    fn seen(&self, word: u64) -> Seen
        ensures { result ≡ seen self.now word };
}

impl States for Bucket {
    ghost use Rattle.sched_limit.specs.States.{bucket_seen};

    ghost seen = { bucket_seen };

    fn seen(&self, word: u64) -> Seen {
        Seen::Bucket(word, self.capacity)
    }
}

impl States for InFlight {
    ghost use Rattle.sched_limit.specs.States.{flight_seen};

    ghost seen = { flight_seen };

    fn seen(&self, word: u64) -> Seen {
        Seen::InFlight(word / 4294967296, word % 4294967296, self.most as u64)
    }
}

impl States for Adaptive {
    ghost use Rattle.sched_limit.specs.States.{adaptive_seen};

    ghost seen = { λ k. adaptive_seen };

    fn seen(&self, word: u64) -> Seen {
        Seen::Adaptive(inside_of(word), level_of(word))
    }
}

impl States for Breaker {
    ghost use Rattle.sched_limit.specs.States.{breaker_seen};

    ghost seen = { breaker_seen };

    fn seen(&self, word: u64) -> Seen {
        if !is_tripped(word) {
            Seen::Closed(self.failures_kept(count_of(word)))
        } else if admitted_of(word) == 0 {
            Seen::Open(moment_at(self.start, at_of(word)), trip_of(word) + 1)
        } else {
            Seen::HalfOpen(admitted_of(word), won_of(word))
        }
    }
}

impl Throttle {
    /// What its state is at this moment and at the words of even windows and of odd ones.
    pub fn seen(&self, now: Moment, even: u64, odd: u64) -> Seen
        ensures { result ≡ throttle_seen self.now now even odd }
    {
        let window = self.window_at(now);
        let (here, before) = if window % 2 == 0 {
            (even, odd)
        } else {
            (odd, even)
        };
        Seen::Throttle(
            requests_at(window, here) + requests_at(window - 1, before),
            accepts_at(window, here) + accepts_at(window - 1, before),
        )
    }
}
