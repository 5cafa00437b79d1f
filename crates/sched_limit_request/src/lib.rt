//! What one request at a time holds of a limit: its admission, what its draw cost, its slot. Whatever it holds is given
//! back once, when it ends or when the value is dropped; and of two limits both admit, or neither is charged. It stands
//! on `sched_limit`, which has the step of each call on the limit's word.
#![tactic(auto)]

mod asks;
mod both;
mod by_hand;
mod fault;
mod hold;
pub mod laws;
mod on_limit;
mod on_throttle;
mod quiet;
mod side;
mod states;

pub use asks::Asks;
pub use both::Both;
pub use by_hand::Hand;
pub use fault::SplitFault;
pub use on_limit::OnLimit;
pub use on_throttle::OnThrottle;
