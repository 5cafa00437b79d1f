//! A limit as sequential code.
ghost use Rattle.std.specs.Prelude.{◌≡◌};

use crate::call::Call;

/// A limit as one thread would run it: the word that it begins with, and what each call makes of the word.
pub trait Machine: Drop {
    ghost use Rattle.std.specs.Prelude.{ℕ};
    ghost use Rattle.sched_limit_word.specs.declared.call.Call.{Call};
    ghost use Rattle.sched_limit_word.specs.Tokens.{Tokens};

    // The word at first.
    ghost first: { Self → ℕ };

    // The word that a call makes of the one that it finds.
    ghost next: { Self → Call → ℕ → ℕ };

    // What calls gain, and what they give back. The rule takes no call that gives back what its pass has not gained.
    ghost tokens: { Self → Tokens };

    /// The word at first.
    fn first(&self) -> u64
        ensures { result ≡ first self.now };

    /// The word that a call makes of the one that it finds.
    fn next(&self, call: Call, word: u64) -> u64
        ensures { result ≡ next self.now call word };
}
