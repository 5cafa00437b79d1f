//! Effects that are run again and again: what a run leaves, an effect that follows a script, and a fallback for the
//! last failure. A scripted effect ends its runs with the outcomes of its script in order, the last one repeated. It
//! stands on `sched_plan` and the kit's `futures`.
#![tactic(auto)]

mod calls;
mod codes;
mod effects;
mod fallbacks;
mod future_calls;
mod ran;
mod scripted;

pub use calls::{Action, Call};
pub use codes::Tagged;
pub use effects::Effect;
pub use fallbacks::Fallback;
pub use future_calls::{FutureAction, FutureCall};
pub use ran::{Code, Coded, Ran, ran_of};
pub use scripted::Scripted;
