//! A retry quota that refills with traffic: in each window of time the tickets given never pass a reserve plus a share
//! of the requests counted in it, for any number of threads. In a quota that carries, a window may also draw, once,
//! what the window before left of its share. It stands on `sched_ticket` and the kit's `atomic_table`.
//!
//! A `Quota` is a table of words under one rule: the tickets drawn and the requests counted, each numbered within its
//! window, and beside them the terms, the tickets handed back and the requests of the window before. A `Pass` is the
//! right to step on them: a thread counts requests and draws tickets with its pass for as long as it lives, splits a
//! pass for another thread, and joins the passes of threads that have ended. There is no lock, no call waits, and no
//! memory is taken after the quota is made.
#![tactic(auto)]

mod fault;
pub mod laws;
mod pass;
mod quota;
mod rule;
mod view;

pub use fault::{NotBack, PassesOut, QuotaFault, Refusal, WeightTooLarge};
pub use pass::{MAX_TRIES, Pass, Usage};
pub use quota::{LAST_WINDOW, MAX_RESERVE, MAX_SHARE, MIN_PERIOD, Quota};
pub use view::{Terms, View};
