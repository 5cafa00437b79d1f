//! The command line of `zsched storm`: the command as `clap` takes it, and what its options ask for. Each option is in
//! its range, or there is a line that says why not. It stands on `sched_storm`.
#![tactic(auto)]

mod arrivals;
mod axes;
mod beside;
mod commands;
mod faults;
mod following;
mod limits;
mod numbers;
mod options;
mod rates;
mod rows;
mod several;
mod sweeps;

pub use arrivals::ArrivalLines;
pub use axes::Axis;
pub use beside::PopulationWords;
pub use commands::storm_command;
pub use faults::StormFault;
pub use limits::BreakerWords;
pub use options::{Form, StormOptions, storm_options};
pub use rows::{Row, Takes, file_command, with_option, with_options};
pub use several::Limited;
pub use sweeps::{Sweep, Swept};
