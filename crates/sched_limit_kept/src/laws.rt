//! What holds of a word that a store keeps, however the calls of all requests follow one another, whatever each request
//! held, and wherever it stopped. Each function does nothing: its contract is a law.
ghost use Rattle.sched_limit_kept.specs.Laws.{KeptIsOneRun, TokensAreKept, ProbesAreKept};

/// The calls of all requests are one run of the machine: each found the word that the one before left, and left what
/// the machine makes of it.
pub fn kept_is_one_run()
    ensures { KeptIsOneRun }
{}

/// A bucket's level is at most its capacity, and what was granted and taken is what there was at first and what came
/// in.
pub fn tokens_are_kept()
    ensures { TokensAreKept }
{}

/// A breaker's word counts no more probes than it admits.
pub fn probes_are_kept()
    ensures { ProbesAreKept }
{}
