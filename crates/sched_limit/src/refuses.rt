//! What a limit answers a call, by the word that the call finds.
ghost use Rattle.std.specs.Prelude.{◌≡◌};

use crate::refusal::Refusal;
use sched_limit_word::{Call, Machine};

/// A machine that refuses some calls.
pub trait Refuses: Machine {
    ghost use Rattle.std.specs.Prelude.{ℕ, Option};
    ghost use Rattle.sched_limit_word.specs.declared.call.Call.{Call};
    ghost use Rattle.sched_limit.specs.Holds.{Holds, IsHonest};
    ghost use Rattle.sched_limit.specs.Step.{rules};
    ghost use Rattle.sched_limit.specs.declared.refusal.Refusal.{Refusal};

    // Why a call on this word is refused.
    ghost refusal: { Self → Call → ℕ → Option Refusal };

    // The generation of runs that are admitted at this word.
    ghost generation: { Self → ℕ → ℕ };

    // What a success is worth, of a request whose last granted draw had this cost.
    ghost worth: { Self → Option ℕ → ℕ };

    // What a request holds of the tokens.
    ghost holds: { Self → Holds };

    /// Why a call on this word is refused, if it is.
    fn refusal(&self, call: Call, word: u64) -> Option<Refusal>
        ensures { result ≡ refusal self.now call word };

    /// The generation of runs that are admitted at this word.
    fn generation(&self, word: u64) -> u64
        ensures { result ≡ generation self.now word };

    /// What a success is worth, of a request whose last granted draw had this cost.
    fn worth(&self, drawn: Option<u64>) -> u64
        ensures { result ≡ worth self.now drawn };

    // Each step gives back what its request holds, and no more.
    ghost honest: { (m : Self) → IsHonest (Self.tokens m) (rules Self.next refusal generation worth m) (holds m) };
}
