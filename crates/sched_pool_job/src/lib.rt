//! Jobs of a pool: retries that stand under locks. A job says by its type which budget its tickets are of, shows what
//! it has done, and leaves an end that keeps its law. It stands on the retries of `sched_retry`.
#![tactic(auto)]

mod jobs;
mod sights;

pub use jobs::Job;
pub use sights::Seen;
