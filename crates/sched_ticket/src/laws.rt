//! What holds of a budget between any two atomic steps, for any number of passes, draws, splits, joins and raises.
//! Each function does nothing: its contract is a law of the table's rule.
ghost use Rattle.sched_ticket.specs.Laws.{NumbersStandOnce, DrawsAreCounted, NoneIsUsedUp, EachRefusalIsHigh};
ghost use Rattle.sched_ticket.specs.Laws.{RefusalsAreJust, TicketsStandOnce, RefusalsAreLate, TicketsStayBelow};
ghost use Rattle.sched_ticket.specs.Laws.{EachTicketIsBelow, DrawsStayBelow, PartsAreKept};
ghost use Rattle.sched_ticket.specs.Laws.{FloorsStayBelow, LimitIsRaised, PassesWereSplit, SpentHasNothing};
ghost use Rattle.sched_ticket.specs.Laws.{PassesAreCounted, EachIsRefusedOnce, WordsStaySmall, SplitsAreRefusedLate};
ghost use Rattle.sched_ticket.specs.Laws.{SoleIsAlone, SharedHasAnother};

/// Each number drawn is in one pass, as a ticket or as a number that a refused draw used up, and the draws are those.
/// By parts no number is used up. A refused number is not below the limit that the draw knew, and so many were drawn.
pub fn numbers_stand_once()
    ensures once { NumbersStandOnce }
    ensures counted { DrawsAreCounted }
    ensures by_parts { NoneIsUsedUp }
    ensures refusals { EachRefusalIsHigh }
    ensures just { RefusalsAreJust }
{}

/// Of a budget that keeps its limit the tickets of all passes are the numbers below the draws made and the limit, each
/// in one pass, and a pass is refused only where as many were drawn as the limit, or more.
pub fn tickets_stand_once()
    ensures once { TicketsStandOnce }
    ensures refusals { RefusalsAreLate }
{}

/// The tickets never pass the limit, of a rising budget its limit at that moment: that is the first one, or the
/// greatest that a pass raised it to.
pub fn tickets_stay_below()
    ensures all { TicketsStayBelow }
    ensures each { EachTicketIsBelow }
    ensures by_parts { DrawsStayBelow }
    ensures floors { FloorsStayBelow }
    ensures limit { LimitIsRaised }
{}

/// The passes made are those that live passes stand for and those that were refused, and each uses a number up once at
/// most. Every counted pass but the first was split from one, and what stands for none has nothing. By parts the passes
/// have all 2^62 of them.
pub fn passes_are_counted()
    ensures counted { PassesAreCounted }
    ensures once { EachIsRefusedOnce }
    ensures splits { PassesWereSplit }
    ensures parts { PartsAreKept }
    ensures spent { SpentHasNothing }
{}

/// No word wraps, and a counted split is refused only past 65,536 passes.
pub fn words_stay_small()
    ensures words { WordsStaySmall }
    ensures splits { SplitsAreRefusedLate }
{}

/// A pass that a look marked sole stands for all, and beside one that it marked shared stands another.
pub fn marks_are_true()
    ensures sole { SoleIsAlone }
    ensures shared { SharedHasAnother }
{}
