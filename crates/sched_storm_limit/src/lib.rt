//! What retries of a storm draw on, and how a limit of theirs stands. A storm is sequential, so it steps a limit's
//! machine itself: each method's contract names what the call makes of the limit, and what its request then holds. It
//! stands on `sched_limit`, which has the machines.
#![tactic(auto)]

mod draws;
mod stand;
mod words;

pub use draws::{Draws, Limit};
pub use stand::Stand;
