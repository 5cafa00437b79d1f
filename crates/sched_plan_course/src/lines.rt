ghost use Rattle.std.specs.Prelude.{◌≡◌, ℕ, ◌≤◌, List, [], ◌∷◌, ◌++◌, IfOk, IfErr, IsTrue};
ghost use Rattle.sched_time.specs.declared.numbers.TheConstants.{FAR};
ghost use Rattle.sched_plan.specs.Starts.{StartsBy};
ghost use Rattle.sched_plan.specs.declared.Event.{Event};
ghost use Rattle.sched_step.specs.Progress.{fits};
ghost use Rattle.sched_step.specs.StateOf.{state_of};
ghost use Rattle.sched_plan_course.specs.Course.{course_of};
ghost use Rattle.sched_plan_course.specs.Lines.{course_lines, IsLine};

use crate::courses::PlanCourse;
use sched_plan::{Event, Plan, Val};
use sched_step::{State, initial};
use sched_time::{Decision, Moment, NoMemory, Tick};
use std::alloc::Global;

/// What a plan does at one event.
#[derive(Drop)]
pub struct Line {
    /// The moment of the event.
    pub moment: Moment,
    /// The plan's output.
    pub output: Val,
    /// The start of the next event, or that the plan is done.
    pub decision: Decision,
}

/// What the plan does along the course: a line for each event, up to the first at which it is done. Fails only with
/// `NoMemory`.
pub fn course_lines(alloc: Global, plan: &Plan, course: &PlanCourse) -> Result<Vec<Line>, NoMemory>
    ensures { IfOk result (λ lines. lines.items ≡ course_lines plan.now (course_of course.now)) }
{
    let mut state = initial(alloc, plan)?;
    let mut lines = Vec::new(alloc);
    let mut now = course.first();
    for number in 0..course.steps() {
        let line = line_at(alloc, plan, &mut state, course.event(number as usize, now))?;
        let start = line.decision.start();
        lines.push(line)?;
        let Some(start) = start else {
            return Ok(lines);
        };
        now = course.after(start);
    }
    Ok(lines)
}

/// Steps the state with one more event, and answers its line. Fails only with `NoMemory`; the state is then unchanged.
pub fn line_at(
    alloc: Global,
    plan: &Plan,
    state: &mut State,
    event: Event,
) -> Result<Line, NoMemory>
    requires { IsTrue (fits plan.now state.old event.now) }

    // From the state after any history come the state and the line after that history with this event.
    ensures law { (h : List Event) → state.old ≡ state_of plan.now h →
        IfOk result (λ line. IsLine plan.now (h ++ event ∷ []) state.new line) }
    ensures starts { IfOk result (λ line. StartsBy event.now line.decision) }
    ensures in_range { event.now ≤ FAR }

    // The new state fits the plan from now on.
    ensures fits { IfOk result (λ _. (later : ℕ) → event.now ≤ later →
        IsTrue (fits plan.now state.new later)) }
    ensures unchanged { IfErr result (λ _. state.new ≡ state.old) }
{
    let moment = event.now;
    let _millis = moment.get();
    let tick = Tick {
        now: moment,
        words: event.words,
    };
    let answer = state.advance(alloc, plan, &tick, &event.input)?;
    Ok(Line {
        moment,
        output: answer.output,
        decision: answer.decision,
    })
}
