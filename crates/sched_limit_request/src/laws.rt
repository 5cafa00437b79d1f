//! What holds of a throttle's turns, and of looks at quiet words. Each function does nothing: its contract is a law.
ghost use Rattle.sched_limit.specs.Kinds.{bucket_rules, breaker_rules};
ghost use Rattle.sched_limit.specs.Quiet.{is_full, is_calm};
ghost use Rattle.sched_limit_request.specs.Laws.{UndisturbedIsTurned};
ghost use Rattle.sched_limit_request.specs.Quiet.{QuietLooksAreRequests};

/// A turn of which each call found the word that its pass had seen last is the one that the two words make where no
/// other call is made: its answer, and what it leaves of both.
pub fn undisturbed_turns_are_steps()
    ensures { UndisturbedIsTurned }
{}

/// A look at a quiet word, of a limit without a request, is a request that begins by it, succeeds and ends.
pub fn quiet_looks_are_requests()
    ensures buckets { QuietLooksAreRequests is_full bucket_rules }
    ensures breakers { QuietLooksAreRequests is_calm breaker_rules }
{}
