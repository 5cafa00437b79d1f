//! What holds of a quota between any two atomic steps, for any number of passes, draws, deposits, splits and joins.
//! Each function does nothing: its contract is a law of the table's rule.
ghost use Rattle.sched_ticket_quota.specs.Laws.{TicketsStandOnce, RequestsStandOnce, WindowsAreKept};
ghost use Rattle.sched_ticket_quota.specs.Laws.{UnchangedAreKept, TermsWereInForce, WindowsAreSmall};
ghost use Rattle.sched_ticket_quota.specs.Laws.{LatestIsCounted, RefusalsAreJust, SightIsTrue, WindowsWereOpened};
ghost use Rattle.sched_ticket_quota.specs.Laws.{PartsAreKept, SpentHasNothing, WordsStaySmall};
ghost use Rattle.sched_ticket_quota.specs.Clocks.{OpensItsOwn, DrawsNoEarlier, CountsNoEarlier, WindowsEnd};
ghost use Rattle.sched_ticket_quota.specs.Clocks.{EndsWithinAPeriod, ClocksAreBounded};
ghost use Rattle.sched_ticket_quota.specs.Histories.{CallsAreBounded};
ghost use Rattle.sched_ticket_quota.specs.Carried.{SharesAreKept, RunsAreKept};

/// No ticket is given twice, and no request is counted twice.
pub fn numbers_stand_once()
    ensures tickets { TicketsStandOnce }
    ensures requests { RequestsStandOnce }
{}

/// In each window the tickets that are out, given and not handed back, never pass the reserve and the share of the
/// requests counted in it so far, nor 4294967296: by the most generous terms that were in force, which are those that
/// the quota was made with as long as no pass has set any. All requests of the latest window are counted in it.
pub fn windows_are_kept()
    ensures kept { WindowsAreKept }
    ensures unchanged { UnchangedAreKept }
    ensures small { WindowsAreSmall }
    ensures counted { LatestIsCounted }
{}

/// A pass finds no ticket left only where at least as many tickets were given in that window as the terms allow for the
/// requests, as it read both; what a pass has seen was counted, and the terms that it has read were in force.
pub fn refusals_are_just()
    ensures refusals { RefusalsAreJust }
    ensures terms { TermsWereInForce }
    ensures sight { SightIsTrue }
{}

/// The latest window is the first, one that a pass opened, or one that follows windows whose 4294967296 requests were
/// all counted.
pub fn windows_were_opened()
    ensures { WindowsWereOpened }
{}

/// A call opens no window, or that of its own moment alone, and draws and counts in no earlier one. Of a quota that
/// does not carry, its ticket is of no earlier one.
pub fn calls_go_by_their_moments()
    ensures opens { OpensItsOwn }
    ensures draws { DrawsNoEarlier }
    ensures counts { CountsNoEarlier }
{}

/// The windows from that of a moment on have at most two reserves, one more for each period until another moment, one
/// for each call that opened a window past that one's, and the share of the requests counted in them.
pub fn clocks_are_bounded()
    ensures { ClocksAreBounded }
{}

/// Over any run of windows the tickets drawn there are at most a reserve for each, and the share of the requests of
/// these; of a quota that carries also of the one before the first, since each window leaves the next no more than its
/// own share.
pub fn runs_are_kept()
    ensures runs { RunsAreKept }
    ensures shares { SharesAreKept }
{}

/// Of all calls of all threads, ended or under way, those from a moment on drew at most two reserves, one more for each
/// period until another moment, one for each window that a call opened whose moment is after that, the share of the
/// requests, of a quota that carries those of the window before too, and as many as were handed back.
pub fn calls_are_bounded()
    ensures { CallsAreBounded }
{}

/// A moment is in a later window than one that has ended by then, and in no later one than one that has not. The window
/// of a moment ends within a period, but for the last.
pub fn windows_end()
    ensures end { WindowsEnd }
    ensures soon { EndsWithinAPeriod }
{}

/// The passes' parts are 2^62 in all, and what stands for no part has nothing.
pub fn parts_are_kept()
    ensures parts { PartsAreKept }
    ensures spent { SpentHasNothing }
{}

/// No word wraps.
pub fn words_stay_small()
    ensures { WordsStaySmall }
{}
