//! Places as text.
ghost use Rattle.std.specs.Prelude.{◌≡◌, ◌++◌, string_bytes, OnOk};
ghost use Rattle.sched_plan_check.specs.Places.{place_of, step_of};
ghost use Rattle.sched_plan_hint.specs.PlaceText.{place_text, steps_text, step_text, first_text};

use sched_plan_check::Step;
use sched_time::NoMemory;
use std::fmt::Write;

/// Adds a place at the end: `meet[1].cap[1]`, `[3].runs` or, with no step, `top`. Fails only with `NoMemory`.
pub fn push_place(text: &mut String, place: &[Step<'_>]) -> Result<(), NoMemory>
    ensures { OnOk result (string_bytes text.new ≡ string_bytes text.old ++ place_text (place_of place.now)) }
{
    let Some((first, rest)) = place.split_first() else {
        text.push_str("top")?;
        return Ok(());
    };
    push_first(text, first)?;
    push_steps(text, rest)
}

// Adds each step at the end.
fn push_steps(text: &mut String, steps: &[Step<'_>]) -> Result<(), NoMemory>
    ensures { OnOk result (string_bytes text.new ≡ string_bytes text.old ++ steps_text (place_of steps.now)) }
{
    for step in steps {
        push_step(text, step)?;
    }
    Ok(())
}

// Adds the first step, which has no dot.
fn push_first(text: &mut String, step: &Step<'_>) -> Result<(), NoMemory>
    ensures { OnOk result (string_bytes text.new ≡ string_bytes text.old ++ first_text (step_of step.now)) }
{
    match step {
        Step::Key(name) => text.push_str(name)?,
        Step::Index(index) => write!(text, "[{index}]")?,
    }
    Ok(())
}

// Adds a step after another.
fn push_step(text: &mut String, step: &Step<'_>) -> Result<(), NoMemory>
    ensures { OnOk result (string_bytes text.new ≡ string_bytes text.old ++ step_text (step_of step.now)) }
{
    match step {
        Step::Key(name) => write!(text, ".{name}")?,
        Step::Index(index) => write!(text, "[{index}]")?,
    }
    Ok(())
}
