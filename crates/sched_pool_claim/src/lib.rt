//! Numbered jobs that any number of workers claim, with no lock and no wait. Each job is claimed at most once, and all
//! jobs are claimed once a worker is refused. It stands on `sched_ticket`.
//!
//! The number of jobs is the limit of a budget of its own, and a claim is a draw of it. Each worker has a `Share`,
//! which keeps the jobs that it claimed and has not closed. Nothing is allocated once the shares are made.
#![tactic(auto)]

mod claims;
pub mod laws;
mod shares;

pub use claims::{Claimed, Claims};
pub use shares::Share;
