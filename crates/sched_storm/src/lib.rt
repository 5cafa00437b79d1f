//! Storms: what a policy does to a peer that fails for a while, when many requests have it. A `Storm` is made of
//! `Parameters`, each in its range, and its report tells of the events that these and the plan determine, and of
//! nothing else. It stands on `sched_driver_stepper`, `sched_storm_trace`, `sched_storm_report` and
//! `sched_storm_limit`.
//!
//! It plays the calls of all requests on a virtual clock, event by event, and counts them window by window. It takes no
//! time of a clock, and random words by a seed alone.
#![tactic(auto)]

mod agenda;
mod calls;
mod clients;
mod course;
mod drivers;
mod given;
mod limits;
mod parameters;
mod plays;
mod populations;
mod rates;
mod reporter;
mod storm;
mod tickets;
mod turns;

pub use clients::Plans;
pub use given::are_arrivals;
pub use parameters::Parameters;
pub use populations::{MAX_SHARE, Others, Population};
pub use rates::{MAX_PHASES, Phase, Rates};
pub use sched_storm_limit::{Draws, Limit};
pub use sched_storm_report::{BrownOut, Counts, Failure, Report, Span, Totals, Window};
pub use storm::{
    MAX_CALLS, MAX_EACH, MAX_MILLIS, MAX_REPLICAS, MAX_REQUESTS, MAX_SECONDS, MAX_UNTIL,
    MAX_WINDOWS, Storm,
};
