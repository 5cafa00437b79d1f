//! Whether the quota refused jobs only where no ticket was left.
ghost use Rattle.std.specs.Prelude.{◌≡◌, IsTrue, All};
ghost use Rattle.std.specs.List.Sorted.{IsSorted};
ghost use Rattle.std.specs.Ordering.{nat_cmp};
ghost use Rattle.sched_plan.specs.History.{last_moment};
ghost use Rattle.sched_ticket.specs.Lists.{times};
ghost use Rattle.sched_ticket_quota.specs.Windows.{allowed};
ghost use Rattle.sched_ticket_quota.specs.Held.{AreTerms};
ghost use Rattle.sched_task_law.specs.Law.{is_refused};
ghost use Rattle.sched_pool_scripted.specs.QuotaBatch.{asked_in, IsJust};

use sched_effect::Scripted;
use sched_plan::Event;
use sched_retry::RetryEnd;
use sched_task::How;
use sched_ticket_quota::{LAST_WINDOW, MAX_RESERVE, Terms};

/// Whether each job that was refused failed last in a window that gave as many tickets as its requests allow. The
/// windows are those of all tickets, which rise, and all requests are of the window 0.
pub(crate) fn are_just(
    ends: &[RetryEnd<Scripted>],
    windows: &[u64],
    terms: &Terms,
    requests: usize,
) -> bool
    requires rises { IsSorted nat_cmp windows.now }
    requires terms { AreTerms terms.now }
    ensures { IsTrue result → All (IsJust terms.now requests windows.now) ends.now }
{
    for end in ends {
        if !is_just(end, windows, terms, requests) {
            return false;
        }
    }
    true
}

// Whether the job was not refused, or failed last in such a window.
fn is_just(end: &RetryEnd<Scripted>, windows: &[u64], terms: &Terms, requests: usize) -> bool
    requires rises { IsSorted nat_cmp windows.now }
    requires terms { AreTerms terms.now }
    ensures { IsTrue result → IsJust terms.now requests windows.now end.now }
{
    if !is_refused(end.how()) {
        return true;
    }
    let window = (last_moment(end.driver().journal()) / terms.period.get()).min(LAST_WINDOW);
    count_of(windows, window) as u64 == room(terms, asked_in(requests, window) as u64)
}

// The requests of a window, of so many that were all counted in the window 0.
fn asked_in(requests: usize, window: u64) -> usize
    ensures { result ≡ asked_in requests window }
{
    if window == 0 { requests } else { 0 }
}

// Whether the job was refused a ticket.
fn is_refused(how: Option<How>) -> bool
    ensures { result ≡ is_refused how }
{
    match how {
        Some(How::BudgetRefused) => true,
        _ => false,
    }
}

// The moment of the last event, or 0 where there is none.
fn last_moment(journal: &[Event]) -> u64
    ensures { result ≡ last_moment journal.now }
{
    let count = journal.len();
    if count == 0 {
        return 0;
    }
    journal[count - 1].now.get()
}

// How often a window stands among these, which rise.
fn count_of(windows: &[u64], window: u64) -> usize
    requires { IsSorted nat_cmp windows.now }
    ensures { result ≡ times window windows.now }
{
    let below = windows.partition_point(|w| *w < window);
    let through = windows.partition_point(|w| *w <= window);
    through.saturating_sub(below)
}

// How many tickets a window of so many requests may give.
fn room(terms: &Terms, asked: u64) -> u64
    requires { AreTerms terms.now }
    ensures { result ≡ allowed terms.now asked }
{
    (terms.reserve + terms.share.saturating_mul(asked) / 1000).min(MAX_RESERVE)
}
