//! Calendars: what is due, in the order of its moments. A key is a number that tells a moment and, below it, what comes
//! first at that moment; the least key comes first. It stands on `sched_time` alone.
#![tactic(auto)]

mod ahead;
mod calendar;

pub use calendar::Calendar;
