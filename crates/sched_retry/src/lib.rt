//! Effects that are tried again after each failure, with a ticket of a shared budget for each retry, or run again after
//! each success: tasks that are polled at moments. The law of a retry or a repeat holds of each, and each poll is one
//! of that law, by every journal that its driver may stand for. They stand on a machine, which tells when to run, and
//! on the list of the effect's runs.
#![tactic(auto)]

mod endings;
mod ends;
mod reruns;

pub use endings::Ending;
pub use ends::RetryEnd;
pub use reruns::{Repeat, Rerun, Retry};
