//! Steps a schedule in a record of words, in place: keeps what its state is after the events so far, and decides at the
//! next event, with no memory taken. Each decision is the one that `sched_plan` defines for the whole history. A plan
//! has a record where its decisions read no more of an output than a number. It stands on `sched_step`.
#![tactic(auto)]

mod advance;
mod cues;
mod leaves;
mod moments;
mod numbers;
mod ones;
mod parts;
mod puts;
mod records;
mod resets;
mod widths;

pub use records::{Record, has_record};
