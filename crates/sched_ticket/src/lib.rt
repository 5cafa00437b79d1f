//! A retry budget that all workers share: any number of threads draw tickets, each ticket once. The tickets never pass
//! the limit, no counter wraps, and whoever joins every pass learns the exact total. It stands on the kit's
//! `atomic_table`.
//!
//! A `Budget` is a table of three words, drawn, made and limit, under one rule. A `Pass` is the right to step on them:
//! a thread draws tickets with its pass, splits a pass for another thread, and joins the passes of threads that have
//! ended. Whoever has joined every pass learns how many tickets were drawn, and may close the budget. There is no lock,
//! no call waits, and no memory is taken after the budget is made.
#![tactic(auto)]

mod budget;
mod fault;
pub mod laws;
mod naming;
pub mod parts;
mod pass;
mod rule;
mod view;

pub use budget::{Budget, MAX_LIMIT};
pub use fault::{PassesOut, TicketFault};
pub use naming::Naming;
pub use pass::Pass;
pub use view::{Mark, Refusal, Terms, View};
