//! What holds of every limit, whatever its machine, between any two atomic steps, for any number of passes, calls,
//! splits and joins. Each function does nothing: its contract is a law of the table's rule.
ghost use Rattle.sched_limit_word.specs.Laws.{MovesAreOneRun, SightIsTrue, WhatIsKeptHolds, EachMoveIsSo};
ghost use Rattle.sched_limit_word.specs.Laws.{SumsTelescope, PartsAreKept, SpentHasNothing, WholeHasAll};
ghost use Rattle.sched_limit_word.specs.Tokens.{UsedWasGained};
ghost use Rattle.sched_limit_word.specs.Looks.{LooksAreCalls};

/// All moves of all passes are one run of the machine: each found the word that the one before left, and left what its
/// call makes of it. What a pass has seen was there.
pub fn moves_are_one_run()
    ensures run { MovesAreOneRun }
    ensures sight { SightIsTrue }
{}

/// What is true of the word at first and is kept by each call holds between any two steps, and so does what follows of
/// each move.
pub fn what_is_kept_holds()
    ensures words { WhatIsKeptHolds }
    ensures moves { EachMoveIsSo }
{}

/// What a move gives back was gained before it, and is given back once: in the run of all moves, and by each pass.
pub fn used_was_gained()
    ensures { UsedWasGained }
{}

/// Of all passes, what was taken and what is left is what there was and what was given.
pub fn sums_telescope()
    ensures { SumsTelescope }
{}

/// The passes have all 2^62 parts. What stands for none has nothing, and what stands for all has all moves.
pub fn parts_are_kept()
    ensures kept { PartsAreKept }
    ensures spent { SpentHasNothing }
    ensures whole { WholeHasAll }
{}

/// A look at a word is each call that would leave this word as it is.
pub fn looks_are_calls()
    ensures { LooksAreCalls }
{}
