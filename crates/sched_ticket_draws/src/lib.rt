//! What a retry draws on: a budget, a quota, or nothing at all. A draw returns what the pass under it returns, and a
//! value that draws on nothing is never refused. It stands on `sched_ticket` and `sched_ticket_quota`.
//!
//! A value of `Draws` owns its pass and refers to its budget, by a reference or by an `Arc`. It is handed from retry to
//! retry and keeps the tickets of all of them, so a worker has one for its life.
#![tactic(auto)]

mod drawing;
mod draws;
mod on_budget;
mod on_quota;
mod refers;
mod unlimited;

pub use drawing::Drawing;
pub use draws::{Draws, Quiet};
pub use on_budget::OnBudget;
pub use on_quota::OnQuota;
pub use refers::RefersTo;
pub use unlimited::Unlimited;
