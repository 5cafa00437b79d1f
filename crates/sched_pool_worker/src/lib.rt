//! What one worker does with the jobs of its share: it claims some, drives them until all are over, and claims again.
//! It drives no more jobs at a time than it was asked to, and loses none. It stands on `sched_pool_claim` and
//! `sched_wheel`.
//!
//! A job is any task behind a lock, so that others can look at it or cancel it between its polls. The caller chooses
//! where the jobs are and how many workers there are.
#![tactic(auto)]

mod gates;
mod seats;
mod stations;
mod works;

pub use gates::{Gate, OpenGate};
pub use stations::Station;
pub use works::{Finish, Work, Worked, work_through};
