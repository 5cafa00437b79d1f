//! Reports of storms: what became of their requests and calls, window by window and in all. A `Report` is a function of
//! the list of moments that its `Tally` was told and of nothing else, and making it takes one pass. It stands on
//! `sched_time` alone.
#![tactic(auto)]

mod counts;
mod ended;
mod moments;
mod peer;
mod report;
mod tally;

pub use counts::Counts;
pub use moments::{Failure, Happening, Moment, Then};
pub use peer::{BrownOut, Busy, CALL, Peer, Span};
pub use report::{Ends, Report, Totals};
pub use tally::{Tally, Window};
