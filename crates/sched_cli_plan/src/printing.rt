ghost use Rattle.std.specs.Prelude.{◌≡◌, ◌++◌, string_bytes, OnOk};
ghost use Rattle.sched_plan_course.specs.Course.{course_of, steady};
ghost use Rattle.sched_cli_plan.specs.PlanText.{line_text, plan_text};
ghost use Rattle.sched_cli_plan.specs.Printing.{Prints, ReadsPlan, ReadsValue, WritesText};
ghost use Rattle.sched_cli_plan.specs.Whole.{count_of_reads, count_of_writes};

use crate::faults::PrintFault;
use crate::streams::{Sink, Source};
use crate::whole::{put_all, put_long, read_all};
use sched_plan::Plan;
use sched_plan_course::{Line, PlanCourse, PlanOptions, line_at};
use sched_plan_json::read_plan;
use sched_step::initial;
use sched_time::NoMemory;
use serde_json::Value;
use std::alloc::Global;

/// Reads one plan as JSON from `reader`, steps it as the options say, and writes a line for each event to `writer`:
/// `MOMENT: OUTPUT next START` or `MOMENT: OUTPUT done`, up to the first event at which the plan is done.
///
/// Refused as `ReadFailed`, `TooLong`, `NotJson`, `NotAPlan`, `OutOfRange`, `TooDeep` and `TooMany` with nothing
/// written, as `NoMemory` and `WriteFailed` with a front of the text written.
pub fn print_plan<R: Source, W: Sink>(
    alloc: Global,
    reader: &mut R,
    writer: &mut W,
    options: &PlanOptions,
) -> Result<(), PrintFault>
    ensures text { Prints (steady options.now)
        (R.left reader.old) (R.left reader.new) (W.taken writer.old) (W.taken writer.new) result }
    ensures reads { R.failures reader.new ≡ count_of_reads result (R.failures reader.old) }
    ensures writes { W.failures writer.new ≡ count_of_writes result (W.failures writer.old) }
{
    let course = PlanCourse::steady(alloc, options)?;
    print_course(alloc, reader, writer, &course)
}

/// The same as [`print_plan`], with an input and words of its own for each event.
pub fn print_course<R: Source, W: Sink>(
    alloc: Global,
    reader: &mut R,
    writer: &mut W,
    course: &PlanCourse,
) -> Result<(), PrintFault>
    ensures text { Prints (course_of course.now)
        (R.left reader.old) (R.left reader.new) (W.taken writer.old) (W.taken writer.new) result }
    ensures reads { R.failures reader.new ≡ count_of_reads result (R.failures reader.old) }
    ensures writes { W.failures writer.new ≡ count_of_writes result (W.failures writer.old) }
{
    let bytes = read_all(alloc, reader)?;
    let plan = plan_in(alloc, &bytes)?;
    write_plan(alloc, &plan, writer, course)
}

/// The JSON value that the bytes spell. Refused with `NotJson` where they are no JSON text, and with `NoMemory`.
pub fn read_value(alloc: Global, bytes: &[u8]) -> Result<Value, PrintFault>
    ensures { ReadsValue bytes.now result }
{
    match Value::from_slice(alloc, bytes) {
        Ok(value) => Ok(value),
        Err(error) if error.is_memory() => Err(PrintFault::NoMemory),
        Err(_) => Err(PrintFault::NotJson),
    }
}

// The plan that the bytes spell.
#[tactic(auto, using(crate::proofs::PrintFaults::plan_in_no_value, crate::proofs::PrintFaults::plan_refused))]
fn plan_in(alloc: Global, bytes: &[u8]) -> Result<Plan, PrintFault>
    ensures { ReadsPlan bytes.now result }
{
    let value = read_value(alloc, bytes)?;
    Ok(read_plan(alloc, &value)?)
}

// Writes the plan's lines, many at a time.
fn write_plan<W: Sink>(
    alloc: Global,
    plan: &Plan,
    writer: &mut W,
    course: &PlanCourse,
) -> Result<(), PrintFault>
    ensures text { WritesText (W.taken writer.old) (W.taken writer.new)
        (plan_text plan.now (course_of course.now)) result }
    ensures counts { W.failures writer.new ≡ count_of_writes result (W.failures writer.old) }
{
    let mut state = initial(alloc, plan)?;
    let mut lines = String::new(alloc);
    let mut now = course.first();
    for number in 0..course.steps() {
        let line = line_at(alloc, plan, &mut state, course.event(number as usize, now))?;
        add_line(alloc, &mut lines, &line)?;
        let Some(start) = line.decision.start() else {
            return put_all(writer, lines.as_bytes());
        };
        put_long(writer, &mut lines)?;
        now = course.after(start);
    }
    put_all(writer, lines.as_bytes())
}

// Adds the line's text.
fn add_line(alloc: Global, lines: &mut String, line: &Line) -> Result<(), NoMemory>
    ensures { OnOk result (string_bytes lines.new ≡ string_bytes lines.old ++ line_text line.now) }
{
    let output = line.output.text(alloc)?;
    write!(lines, "{}: {}", line.moment.get(), output)?;
    match line.decision.start() {
        Some(start) => write!(lines, " next {}\n", start.get())?,
        None => lines.push_str(" done\n")?,
    }
    Ok(())
}
