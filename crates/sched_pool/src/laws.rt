//! What a board that was taken back has to do with the total of its budget.
//! The function does nothing: its contract is a law of what `finish` promises and of a budget's close.
ghost use Rattle.sched_pool.specs.Ends.{TotalsAgree};

/// Where the budget is closed with the pass of a board that was taken back, the tickets drawn are those of the pass
/// handed in and those that the jobs were granted. They are the limit where the budget refused a job and was never
/// raised.
pub fn totals_agree()
    ensures { TotalsAgree }
{}
