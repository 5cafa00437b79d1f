//! The command line of `zsched`: what its words ask for, or why they ask for nothing. Each option is in its range. It
//! stands on `sched_cli_storm_words` and the kit's `clap`.
#![tactic(auto)]

mod columns;
mod commands;
mod faults;
mod options;
mod quota_words;
mod quotas;
mod reasons;
mod seeded;
mod storms;
mod words;

pub use faults::WordsFault;
pub use options::{Asked, MAX_TICKETS, MAX_TURNS, MAX_WORKERS, Origin, PoolOptions};
pub use quotas::QuotaOptions;
pub use words::read_words;
