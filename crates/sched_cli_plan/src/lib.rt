//! What the program prints of a plan: it reads the plan as JSON from a stream, steps it, and prints a line for each
//! event to another stream. The lines are those that the plan's answers define, and where printing stops, a front of
//! them is written. It stands on `sched_plan_json` and `sched_plan_course`.
#![tactic(auto)]

mod again;
mod amounts;
mod counts;
mod faults;
mod printing;
mod streams;
mod whole;

pub use again::Given;
pub use amounts::push_count;
pub use counts::Counted;
pub use faults::PrintFault;
pub use printing::{print_course, print_plan, read_value};
pub use sched_plan_course::{MAX_STEPS, PlanCourse, PlanOptions};
pub use streams::{Sink, Source};
pub use whole::{MAX_INPUT, put_all, put_long, read_all};
