//! What holds of the leases that a store takes one after another, by one step each, whoever asks for them and in
//! whatever order. Each function does nothing: its contract is a law of such leases.
ghost use Rattle.sched_ticket_lease.specs.Laws.{RangesStandOnce, WindowsAreKept};
ghost use Rattle.sched_ticket_lease.specs.Histories.{DrawsWereGranted, NumbersAreTakenOnce, NumbersAreOutOnce};
ghost use Rattle.sched_ticket_lease.specs.Histories.{SharedNumbersStandOnce, SharedWindowsAreKept};
ghost use Rattle.sched_ticket_lease.specs.Histories.{NoneIsDrawnLate, RequestsAreToldOnce, RequestsAreKept};

/// Each number of a window is in at most one range, whatever terms each process has.
pub fn ranges_stand_once()
    ensures { RangesStandOnce }
{}

/// The ranges of a window have together at most as many tickets as it may give for the requests told in it.
pub fn windows_are_kept()
    ensures { WindowsAreKept }
{}

/// A holder draws and lends what it was granted, and what came back. Whatever the store answers, and how often, it
/// takes each number of a window once, and once more for each time that it lent it: so it draws each at most once more
/// than it was handed back.
pub fn holders_draw_once()
    ensures granted { DrawsWereGranted }
    ensures taken { NumbersAreTakenOnce }
    ensures out { NumbersAreOutOnce }
{}

/// Of all holders of what a store keeps, threads and processes, where each range was leased or lent, and answers may be
/// lost: each number of a window is drawn at most once more than it was handed back; and the tickets drawn in a window
/// are at most those that it may give for the requests told, and one for each that was handed back.
pub fn holders_keep_windows()
    ensures numbers { SharedNumbersStandOnce }
    ensures windows { SharedWindowsAreKept }
{}

/// No ticket is drawn at or after the moment that ends its window.
pub fn none_is_drawn_late()
    ensures { NoneIsDrawnLate }
{}

/// No request is told twice, and none of before a window with those of the window.
pub fn requests_are_told_once()
    ensures { RequestsAreToldOnce }
{}

/// However often and however long a holder counted requests since it told any, it tells each of those that were counted
/// in the present window, where its moments don't go back and it knows when windows end.
pub fn requests_are_kept()
    ensures { RequestsAreKept }
{}
