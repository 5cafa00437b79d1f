//! Handles: what a host that isn't written in Rattle holds of the engine, each a pointer to a policy, a pass, a leased
//! pass, a retry, limits or a pace. Each call does and replies what its clause says of what the handle holds, and
//! refuses an empty handle and one of another kind. It stands on plans, on the machine of retries, on what retries draw
//! on, and on limits.
#![tactic(auto)]

mod drawing;
mod handle;
mod held;
mod leases;
mod limits;
mod looks;
mod paces;
mod passes;
mod policies;
mod replies;
mod retries;
mod states;
mod status;

pub use handle::Handle;
pub use held::{Held, Kind};
pub use leases::Draw;
pub use replies::{Granted, Place, Reply, Size, Standing, Usage, tell, tell_status, tick_at};
pub use status::Status;
