//! What a job shows.

use sched_task::How;
use sched_time::Moment;

/// What a job showed while its lock was held.
#[derive(Clone, Copy, Debug, PartialEq, Eq)]
pub struct Seen {
    /// How it ended, or `None` where it was not over.
    pub over: Option<How>,
    /// The moment that it waited for, or `None` where it waited for none.
    pub due: Option<Moment>,
    /// How many steps its schedule had made.
    pub events: usize,
    /// How many tickets it had been granted.
    pub granted: u64,
}
