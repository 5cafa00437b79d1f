//! The open times of a breaker, as a plan's course.
use crate::printing::plan_in;
use sched_cli_plan::PrintFault;
use sched_limit::MAX_TRIPS;
use sched_plan_course::{PlanCourse, PlanOptions, course_lines};
use sched_time::{Millis, Moment};
use std::alloc::Global;

/// The open times of the plan that the bytes spell, and the number of the last one: its waits at events of which each
/// comes at the start that was planned before it. `None` where it is done at the first.
pub fn open_times(
    alloc: Global,
    bytes: &[u8],
) -> Result<Option<([u64; MAX_TRIPS], u64)>, PrintFault> {
    let plan = plan_in(alloc, bytes)?;
    let Some(from) = Moment::new(0) else {
        return Ok(None);
    };
    let options = PlanOptions {
        steps: 64,
        from,
        took: Millis::from(0),
        input: Millis::from(0),
        word: 0,
    };
    let course = PlanCourse::steady(alloc, &options)?;
    let mut times = [0; MAX_TRIPS];
    let mut count = 0;
    for line in &course_lines(alloc, &plan, &course)? {
        let Some(start) = line.decision.start() else {
            break;
        };
        if count < MAX_TRIPS {
            times[count] = start.get().saturating_sub(line.moment.get());
            count += 1;
        }
    }
    if count == 0 {
        return Ok(None);
    }
    Ok(Some((times, count as u64 - 1)))
}
