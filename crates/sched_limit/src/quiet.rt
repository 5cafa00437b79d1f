//! Machines with quiet words, which a request whose first run succeeds leaves as they are.
ghost use Rattle.std.specs.Prelude.{◌≡◌, true};
ghost use Rattle.sched_limit.specs.Quiet.{IsQuiet};

use crate::breaker::Breaker;
use crate::bucket::Bucket;
use crate::refuses::Refuses;
use crate::word;

/// A machine that has quiet words.
pub trait Quiet: Refuses {
    ghost use Rattle.std.specs.Prelude.{ℕ, Bool};

    // Whether a word is quiet.
    ghost is_quiet: { Self → ℕ → Bool };

    /// Whether this word is quiet.
    fn is_quiet(&self, word: u64) -> bool
        ensures same { result ≡ is_quiet self.now word }
        ensures quiet { is_quiet self.now word ≡ true →
            IsQuiet (Self.next self.now) (Self.refusal self.now) word };
}

impl Quiet for Bucket {
    ghost use Rattle.sched_limit.specs.Quiet.{is_full};

    ghost is_quiet = { is_full };

    #[inline(always)]
    #[tactic(auto, using(crate::proofs::QuietWords::full_is_quiet))]
    fn is_quiet(&self, word: u64) -> bool {
        word == self.capacity
    }
}

impl Quiet for Breaker {
    ghost use Rattle.sched_limit.specs.Quiet.{is_calm};

    ghost is_quiet = { is_calm };

    #[inline(always)]
    #[tactic(auto, using(crate::proofs::QuietWords::calm_is_quiet))]
    fn is_quiet(&self, word: u64) -> bool {
        word % word::GENERATION == 0
    }
}
