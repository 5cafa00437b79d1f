//! A limit that any number of threads call, as one word under a sequential machine. The calls that changed the word are
//! one run of the machine, each on the word that the one before left. It stands on the kit's `atomic_table`.
//!
//! A `Machine` says which word a limit begins with, and which word a call makes of the one that it finds. A `Limit` has
//! that word, and a `Pass` is the right to call it: a thread splits a pass for another thread, and joins the passes of
//! threads that have ended. What all passes did is one run of the machine, each of its calls on the word that the one
//! before left. There is no lock, no call waits, and no memory is taken after the limit is made.
#![tactic(auto)]

mod call;
mod fault;
pub mod laws;
mod limit;
mod look;
mod machine;
mod pass;
mod rule;
mod view;

pub use call::Call;
pub use fault::{RacesLost, TooManyPasses};
pub use limit::Limit;
pub use machine::Machine;
pub use pass::{MAX_TRIES, Pass};
pub use view::{Move, View};
