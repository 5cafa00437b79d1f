//! Retries that ask a fallback in the end. One keeps the law of the retry beneath it, and ends at a stop of that only
//! once its fallback has answered; each poll is one of the retry beneath, or asks the fallback once. They stand on the
//! retries of `sched_retry`, and record beside one what its fallback was asked and has answered.
#![tactic(auto)]

mod endings;
mod retry_or;
mod stops;

pub use endings::RetryOrEnding;
pub use retry_or::RetryOr;
