//! Steps a plan along a course of events, and returns what it does at each as a line. The lines are those that the
//! plan's answers define. It stands on `sched_step`.
#![tactic(auto)]

mod courses;
mod lines;

pub use courses::{MAX_STEPS, PlanCourse, PlanOptions};
pub use lines::{Line, course_lines, line_at};
