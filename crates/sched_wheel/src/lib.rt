//! A wheel of moments, and a loop by it over many tasks on one thread: each task is polled when its moment has come,
//! and the loop waits when all of them wait. The polls that it makes are a course of the tasks' own polls, at moments
//! that the clock gave. It stands on `sched_task`.
#![tactic(auto)]

mod agenda;
mod loops;

pub use loops::{LoopStop, WheelLoop};
