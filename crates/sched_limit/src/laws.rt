//! What holds of each limit between any two atomic steps, for any number of passes and calls. Each function does
//! nothing: its contract is a law.
ghost use Rattle.sched_limit.specs.Laws.{LevelStaysWithin, TokensAreCounted, GrantsLeaveTheFloor};
ghost use Rattle.sched_limit.specs.BucketTokens.{DrawsComeBackOnce};
ghost use Rattle.sched_limit.specs.FlightTokens.{InFlightIsCounted};
ghost use Rattle.sched_limit.specs.Laws.{GrantsAreWithinTheBound, RequestsStayWithin};
ghost use Rattle.sched_limit.specs.Laws.{ProbesAreFew, OpenIsKept, LateResultsChangeNothing, OpensAfterFailures};
ghost use Rattle.sched_limit.specs.Results.{KeepsTheLast, OpensExactly, AllAreInRow};
ghost use Rattle.sched_limit.specs.States.{ClosedIsSeen};
ghost use Rattle.sched_limit.specs.ByHand.{OpensByHand, ClosesByHand};
ghost use Rattle.sched_limit.specs.Laws.{ClosedIsFinal, ClosedIsShut, EachIsCounted};
ghost use Rattle.sched_limit.specs.AdaptiveLaws.{LevelsStayWithin, AdmitsAreUnderTheLevel};
ghost use Rattle.sched_limit.specs.AdaptiveLaws.{LevelsLearnInUse, InsideIsCounted};
ghost use Rattle.sched_limit.specs.Quiet.{QuietLooksAreCalls};

/// A bucket's level is at most its capacity; what it was and what came in is what went out and what is left; each draw
/// left at least the floor; and of the draws of a cost at most as many were returned as were granted.
pub fn tokens_are_counted()
    ensures within { LevelStaysWithin }
    ensures counted { TokensAreCounted }
    ensures floor { GrantsLeaveTheFloor }
    ensures once { DrawsComeBackOnce }
{}

/// Each retry that was granted left as many in flight as the requests then in flight allow, or fewer, and no more
/// requests are in flight than the most. The requests in flight are those that were admitted and are not over, and the
/// slots those that were granted and not given back.
pub fn retries_are_bounded()
    ensures bounded { GrantsAreWithinTheBound }
    ensures most { RequestsStayWithin }
    ensures counted { InFlightIsCounted }
{}

/// An adaptive limit's level is from its least to its most, and so many requests are in flight at most; none was
/// admitted past the level of its moment. The level rises by successes while at least half of it is in use, and falls
/// by failures. The requests in flight are those that were admitted and are not over.
pub fn adaptive_limits_hold()
    ensures within { LevelsStayWithin }
    ensures under { AdmitsAreUnderTheLevel }
    ensures learns { LevelsLearnInUse }
    ensures counted { InsideIsCounted }
{}

/// A breaker's word counts no more probes than it admits. It is opened by the last of its failures or by hand, is open
/// until its moment or until it is closed by hand, and what is told of a run of another generation changes nothing.
pub fn breakers_hold()
    ensures probes { ProbesAreFew }
    ensures open { OpenIsKept }
    ensures late { LateResultsChangeNothing }
    ensures failures { OpensAfterFailures }
{}

/// Whatever calls came, a closed breaker keeps the last results of its generation. A failure opens it exactly if it
/// makes so many of them failures; else it is opened by hand alone. So many among as many results are so many in a row.
pub fn breakers_open_exactly()
    ensures keeps { KeepsTheLast }
    ensures opens { OpensExactly }
    ensures row { AllAreInRow }
{}

/// What is seen of a closed breaker is the failures that count of its generation's results.
pub fn what_is_seen_counts()
    ensures { ClosedIsSeen }
{}

/// A breaker that somebody opens or closes by hand begins a generation: it is open until its moment, or closed with
/// nothing kept, and results of runs that were admitted before change nothing.
pub fn hands_begin_anew()
    ensures opens { OpensByHand }
    ensures closes { ClosesByHand }
{}

/// A throttle counts each request and each accept once, in its window, and what a closed window counted is final.
pub fn windows_are_counted()
    ensures closed { ClosedIsFinal }
    ensures shut { ClosedIsShut }
    ensures counted { EachIsCounted }
{}

/// A look at a quiet word is each call of a request that is admitted, succeeds and ends.
pub fn quiet_looks_are_calls()
    ensures { QuietLooksAreCalls }
{}
