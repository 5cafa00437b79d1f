//! What a handle holds of limits: one limit of any kind, or several at once. A host that isn't written in Rattle knows
//! their refusals by numbers, one for each. It stands on `sched_limit_request`, which says what each call does to a
//! limit; `sched_handle` has the handles.
#![tactic(auto)]

mod any_limit;
mod held;
mod looks;
mod stands;
mod status;

pub use any_limit::AnyLimit;
pub use held::Held;
pub use looks::Words;
pub use status::{Status, number_of, refused};
