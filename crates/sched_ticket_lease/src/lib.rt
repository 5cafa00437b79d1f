//! Leases: ranges of the tickets of a budget or of a quota, which a store counts for many processes. Each number of a
//! window is in at most one range, and the ranges of a window have no more tickets than it may give for the requests
//! told. It stands on `sched_ticket` and `sched_ticket_quota`.
//!
//! A store keeps a few numbers of each budget or quota, and changes them by one step at a time; the step itself is a
//! function of those numbers.
#![tactic(auto)]

pub mod laws;
mod lease;
mod leased;
mod requests;
mod slice;
mod span;
mod spans;
mod ticket;

pub use lease::{Ask, Grants, Lease, Stored};
pub use leased::Leased;
pub use ticket::{Grant, GrantFault, NoTicket, NotBack, Ticket};
