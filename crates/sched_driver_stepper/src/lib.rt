//! A driver that keeps no journal: steps a plan event by event, and can replay a list of events. Each answer is the
//! plan's answer to the history of all events so far, and an event that comes before the last one is refused and
//! changes nothing. It keeps the plan's state as a record of words where one can stand for it (`sched_step_flat`), and
//! else as a tree (`sched_step`).
#![tactic(auto)]

mod compiled;
mod kept;
mod steppers;

pub use compiled::Compiled;
pub use sched_driver_tree::StepFault;
pub use sched_plan::Event;
pub use steppers::Stepper;
