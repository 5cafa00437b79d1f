//! Drivers: a plan that is stepped event by event, with a journal of the events, alone or under a lock. Each answer is
//! the plan's answer to the journal, and an event that is refused changes nothing. It stands on `sched_driver_tree`.
#![tactic(auto)]

mod cells;
mod drivers;

pub use cells::{DriverCell, Guard};
pub use drivers::{DriveFault, Driver, MAX_EVENTS};
pub use sched_plan::Event;
