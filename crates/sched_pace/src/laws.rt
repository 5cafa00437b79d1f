//! What holds of a pace. Each function does nothing: its contract is a law.
ghost use Rattle.sched_pace.specs.Laws.{StartsAreFewer, StartsOfAllAreFewer, DueIsSmall};
ghost use Rattle.sched_pace.specs.Laws.{IsGrantedAtOnce, IsGrantedWhenTold, StartIsTheFirst, WaitsAreShort};
ghost use Rattle.sched_pace.specs.Laws.{GrantIsDone, RefusalIsDone};
ghost use Rattle.sched_pace.specs.Kept.{KeptIsOneRun, KeptStartsAreFewer, KeptIsSmall};

/// Of the takes that were granted and not given back, those that begin in any l milliseconds have a cost of at most
/// burst + (1000 l - 1) / each: between any two atomic steps, for any number of passes, whatever their clocks say.
pub fn starts_are_few()
    ensures standing { StartsAreFewer }
    ensures all { StartsOfAllAreFewer }
    ensures small { DueIsSmall }
{}

/// A take may begin at once where the rate and the burst allow it, and nowhere else; one that waits begins at the first
/// moment at which they do. One that is refused is told the first moment at which it would be granted. No call waits
/// longer than the longest wait.
pub fn waits_are_short()
    ensures once { IsGrantedAtOnce }
    ensures first { StartIsTheFirst }
    ensures told { IsGrantedWhenTold }
    ensures short { WaitsAreShort }
{}

/// What a take is told is what the machine does.
pub fn told_is_done()
    ensures granted { GrantIsDone }
    ensures refused { RefusalIsDone }
{}

/// The steps on a word that a store keeps are one sequence of calls, and few of their calls begin in any time.
pub fn kept_is_one_run()
    ensures run { KeptIsOneRun }
    ensures few { KeptStartsAreFewer }
    ensures small { KeptIsSmall }
{}
