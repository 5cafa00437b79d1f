//! Time as schedules see it: moments, durations and starts in whole milliseconds. Every number lies between 0 and
//! `FAR`, and every sum and product stops at `FAR`, so none wraps. It stands on the standard library alone.
#![tactic(auto)]

mod faults;
mod numbers;
mod starts;

pub use faults::NoMemory;
pub use numbers::{FAR, Millis, Moment, Tick};
pub use starts::{Decision, Interval};
