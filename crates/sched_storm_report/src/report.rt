//! What a storm comes to.
ghost use Rattle.std.specs.Prelude.{◌≡◌, ◌-◌, ◌+◌, ◌≤◌, ◌<◌, ◌^◌, length, All};
ghost use Rattle.sched_storm_report.specs.Counts.{calls_in, AreWithin};
ghost use Rattle.sched_storm_report.specs.declared.tally.Window.{Window};
ghost use Rattle.sched_storm_report.specs.Report.{hundredths_of, at_percent, most_in, first_with, recovered_in, passes};
ghost use Rattle.sched_storm_report.specs.Report.{totals_of};

use crate::counts::{Counts, Score};
use crate::tally::Window;

/// What a storm comes to, window by window and in all.
#[derive(Debug, Drop)]
pub struct Report {
    /// The windows, from moment 0 to the last moment that was told.
    pub windows: Vec<Window>,
    /// All of them together.
    pub totals: Totals,
}

/// What a storm comes to in all.
#[derive(Clone, Copy, Debug, PartialEq, Eq)]
pub struct Totals {
    /// What began and ended.
    pub counts: Counts,
    /// The requests whose plan was done.
    pub lost: u64,
    /// The requests that got no ticket.
    pub denied: u64,
    /// The requests that had not ended when the storm did.
    pub open: u64,
    /// The calls that were begun.
    pub calls: u64,
    /// The calls for each request, in hundredths to the nearest, halves up.
    pub hundredths: u64,
    /// The most calls that were begun in a window.
    pub most_calls: u64,
    /// The first moment of the first such window.
    pub most_from: u64,
    /// The tickets that were given.
    pub tickets: u64,
    /// The time from a request's first call to its success that 50 in 100 of those that were won don't pass; `None`
    /// where none was won.
    pub p50: Option<u64>,
    /// The time that 99 in 100 don't pass.
    pub p99: Option<u64>,
    /// The longest time.
    pub slowest: Option<u64>,
    /// The first moment of the window from which on the storm has recovered, where it has.
    pub recovered: Option<u64>,
    /// Whether the storm was cut, since one call more was to begin than it may make.
    pub is_cut: bool,
}

/// What a report says besides its moments.
#[derive(Clone, Copy, Debug, PartialEq, Eq)]
pub struct Ends {
    /// When the outage and the brown-out are over.
    pub trouble: u64,
    /// Whether the storm was cut.
    pub is_cut: bool,
}

/// What these windows, this score and these times come to, of times that ascend.
pub(crate) fn in_all(ends: Ends, windows: &[Window], score: Score, times: &[u32]) -> Totals
    requires windows { All (λ (w : Window). calls_in w.counts < 2 ^ 64) windows.now }
    requires times { length times.now ≤ 1099511627776 }
    requires score { AreWithin 1099511627776 score }
    ensures { result ≡ totals_of ends windows.now score times.now }
{
    let all = score.all;
    let (most_from, most_calls) = most_calls(windows);
    Totals {
        counts: all,
        lost: score.lost,
        denied: score.denied,
        open: all
            .requests
            .saturating_sub(all.won + score.lost + score.denied),
        calls: score.calls,
        hundredths: hundredths(score.calls, all.requests),
        most_calls,
        most_from,
        tickets: score.tickets,
        p50: at_percent(times, 50),
        p99: at_percent(times, 99),
        slowest: times.last().map(|time| u64::from(*time)),
        recovered: recovered(windows, ends.trouble),
        is_cut: ends.is_cut,
    }
}

// The calls for each request, in hundredths to the nearest, halves up.
fn hundredths(calls: u64, requests: u64) -> u64
    requires calls { calls ≤ 1099511627776 }
    requires requests { requests ≤ 1099511627776 }
    ensures { result ≡ hundredths_of calls requests }
{
    if requests == 0 {
        0
    } else {
        (200 * calls + requests) / (2 * requests)
    }
}

// Of times that ascend the one that so many in 100 don't pass; `None` where there is none.
fn at_percent(times: &[u32], percent: usize) -> Option<u64>
    requires times { length times.now ≤ 1099511627776 }
    requires percent { percent ≤ 100 }
    ensures { result ≡ at_percent percent times.now }
{
    let place = (times.len() * percent).div_ceil(100);
    times
        .get(place.saturating_sub(1))
        .map(|time| u64::from(*time))
}

// The first moment of the window with the most calls begun, the first of equals, and how many these are.
fn most_calls(windows: &[Window]) -> (u64, u64)
    requires { All (λ (w : Window). calls_in w.counts < 2 ^ 64) windows.now }
    ensures most { result.1 ≡ most_in windows.now }
    ensures from { result.0 ≡ first_with result.1 windows.now }
{
    let mut from = 0;
    let mut most = 0;
    let mut place = windows.len();
    while place > 0 {
        place -= 1;
        let window = windows[place];
        let calls = window.counts.requests + window.counts.retries;
        if calls >= most {
            from = window.from;
            most = calls;
        }
    }
    (from, most)
}

// The first moment of the first window that begins at this moment or later, where it and each later one pass and a
// request begins from it on.
fn recovered(windows: &[Window], end: u64) -> Option<u64>
    ensures { result ≡ recovered_in end windows.now }
{
    let mut from = None;
    let mut all_pass = true;
    let mut have_requests = false;
    let mut place = windows.len();
    while place > 0 {
        place -= 1;
        let window = windows[place];
        all_pass = passes(window) && all_pass;
        have_requests = window.counts.requests > 0 || have_requests;
        if window.from >= end && all_pass && have_requests {
            from = Some(window.from);
        }
    }
    from
}

// Whether at least 99 in 100 of the requests that began in the window were won: whether at most a hundredth was not.
fn passes(window: Window) -> bool
    ensures { result ≡ passes window }
{
    let Counts { requests, won, .. } = window.counts;
    requests.saturating_sub(won) <= requests / 100
}
