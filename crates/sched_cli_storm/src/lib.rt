//! What the program prints of storms: it reads plans as JSON, plays a storm under each, and prints its windows and
//! totals as lines with bars, as comma-separated values or as JSON. Nothing is written where a text is no plan. It
//! stands on `sched_storm`.
#![tactic(auto)]

mod bars;
mod forms;
mod lines;
mod moments;
mod openings;
mod populations;
mod printing;
mod rows;
mod side_by_side;
mod sweep_rows;
mod sweep_table;
mod totals;

pub use openings::open_times;
pub use printing::print_storm;
