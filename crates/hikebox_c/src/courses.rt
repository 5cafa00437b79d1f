//! What a policy does along a course.
ghost use Rattle.std.specs.Prelude.{◌≡◌, ◌↔◌, map, IsTrue, IfOk};
ghost use Rattle.std.specs.List.{All};
ghost use Rattle.sched_plan_course.specs.Course.{course_of};
ghost use Rattle.sched_plan_course.specs.Lines.{course_lines as lines_of_course};
ghost use Rattle.hikebox_c.specs.Calls.{Comes};
ghost use Rattle.hikebox_c.specs.Courses.{IsGiven, InputIsInRange, course_given, told_by, AreTold, StepsPolicy};
ghost use Rattle.hikebox_c.specs.Courses.{TellsLines, TellsOutputs};

use crate::texts::tell_text;
use sched_handle::{Handle, Status};
use sched_plan::Plan;
use sched_plan_course::{Line, MAX_STEPS, PlanCourse, course_lines};
use sched_time::{FAR, Millis, Moment, NoMemory};
use std::alloc::Global;

/// How a policy is stepped: for so many events at most, from this moment on, and how long after a planned start the
/// next event comes.
#[repr(C)]
#[derive(Clone, Copy)]
pub struct CourseGiven {
    pub steps: u64,
    pub from: u64,
    pub took: u64,
}

/// A course, after the size in bytes that C gives of this struct.
#[repr(C)]
#[derive(Clone, Copy)]
pub struct SizedCourse {
    pub size: usize,
    pub course: CourseGiven,
}

// The size of it.
const COURSE_SIZE: usize = 32;

/// The input of an event, and its random words.
#[repr(C)]
#[derive(Clone, Copy)]
pub struct EventGiven {
    pub input: u64,
    pub words: [u32; 4],
}

/// What a policy does at an event: its moment, the start that is planned or 0, where its output ends among the bytes of
/// all outputs, and whether the policy goes on.
#[repr(C)]
#[derive(Clone, Copy)]
pub struct LineTold {
    pub moment: u64,
    pub start: u64,
    pub text_to: u64,
    pub goes_on: bool,
}

/// The lines of a course, and their outputs as text, one after another.
#[derive(Drop)]
pub struct CourseTold {
    pub lines: Vec<LineTold>,
    pub text: String,
}

#[unsafe(no_mangle)]
pub extern "C" fn hikebox_policy_course(
    alloc: Global,
    policy: &mut Handle,
    course: &SizedCourse,
    events: &[EventGiven],
    lines: &mut [LineTold],
    count: &mut usize,
) -> u32
    ensures kept { policy.new.held ≡ policy.old.held }
    ensures course { Comes (StepsPolicy course.now events.now policy.old.held)
        (TellsLines result lines.old lines.new count.old count.new) }
{
    let told = match course_told(alloc, policy, course, events) {
        Ok(told) => told,
        Err(status) => return status.code(),
    };
    *count = told.lines.len();
    if lines.len() < told.lines.len() {
        return Status::NoRoom.code();
    }
    lines[..told.lines.len()].copy_from_slice(&told.lines);
    0
}

#[unsafe(no_mangle)]
pub extern "C" fn hikebox_policy_outputs(
    alloc: Global,
    policy: &mut Handle,
    course: &SizedCourse,
    events: &[EventGiven],
    text: &mut [u8],
    length: &mut usize,
) -> u32
    ensures kept { policy.new.held ≡ policy.old.held }
    ensures course { Comes (StepsPolicy course.now events.now policy.old.held)
        (TellsOutputs result text.old text.new length.old length.new) }
{
    match course_told(alloc, policy, course, events) {
        Ok(told) => tell_text(Ok(told.text), text, length),
        Err(status) => status.code(),
    }
}

// What the policy that a handle holds does along the course with these events.
fn course_told(
    alloc: Global,
    policy: &mut Handle,
    course: &SizedCourse,
    events: &[EventGiven],
) -> Result<CourseTold, Status>
    ensures kept { policy.new.held ≡ policy.old.held }
    ensures course { StepsPolicy course.now events.now policy.old.held result }
{
    if course.size != COURSE_SIZE {
        return Err(Status::WrongSize);
    }
    let course = &course.course;
    if !course.is_given(events) {
        return Err(Status::OutOfRange);
    }
    let plan = policy.plan()?;
    match told(alloc, plan.get(), course, events) {
        Ok(told) => Ok(told),
        Err(_) => Err(Status::NoMemory),
    }
}

impl CourseGiven {
    // Whether its numbers and the inputs are in range, and there is an event.
    fn is_given(&self, events: &[EventGiven]) -> bool
        ensures { IsTrue result ↔ IsGiven self.now events.now }
    {
        self.steps <= MAX_STEPS
            && self.from <= FAR
            && self.took <= FAR
            && !events.is_empty()
            && inputs_are_in_range(events)
    }

    // The course with these events.
    fn with(&self, alloc: Global, events: &[EventGiven]) -> Result<PlanCourse, NoMemory>
        requires { IsGiven self.now events.now }
        ensures { IfOk result (λ course. course_of course ≡ course_given self.now events.now) }
    {
        let Some(from) = Moment::new(self.from) else {
            unreachable!()
        };
        let Some(took) = Millis::new(self.took) else {
            unreachable!()
        };
        let inputs = inputs_of(alloc, events)?;
        let words = words_of(alloc, events)?;
        match PlanCourse::new(self.steps, from, took, inputs, words) {
            Some(course) => Ok(course),
            None => unreachable!(),
        }
    }
}

fn inputs_are_in_range(events: &[EventGiven]) -> bool
    ensures { IsTrue result ↔ All InputIsInRange events.now }
{
    for event in events {
        if event.input > FAR {
            return false;
        }
    }
    true
}

fn inputs_of(alloc: Global, events: &[EventGiven]) -> Result<Vec<Millis>, NoMemory>
    requires { All InputIsInRange events.now }
    ensures { IfOk result (λ inputs. inputs.items ≡ map (λ (e : EventGiven). e.input) events.now) }
{
    let mut inputs = Vec::with_capacity(alloc, events.len())?;
    for event in events {
        match Millis::new(event.input) {
            Some(input) => inputs.push(input)?,
            None => unreachable!(),
        }
    }
    Ok(inputs)
}

fn words_of(alloc: Global, events: &[EventGiven]) -> Result<Vec<[u32; 4]>, NoMemory>
    ensures { IfOk result (λ words. words.items ≡ map (λ (e : EventGiven). e.words) events.now) }
{
    let mut words = Vec::with_capacity(alloc, events.len())?;
    for event in events {
        words.push(event.words)?;
    }
    Ok(words)
}

// The lines of the plan's course, as C is told of them.
fn told(
    alloc: Global,
    plan: &Plan,
    course: &CourseGiven,
    events: &[EventGiven],
) -> Result<CourseTold, NoMemory>
    requires { IsGiven course.now events.now }
    ensures { IfOk result (AreTold (lines_of_course plan.now (course_given course.now events.now))) }
{
    let course = course.with(alloc, events)?;
    let all = course_lines(alloc, plan, &course)?;
    lines_told(alloc, &all)
}

fn lines_told(alloc: Global, all: &Vec<Line>) -> Result<CourseTold, NoMemory>
    ensures { IfOk result (AreTold all.now.items) }
{
    let mut lines = Vec::with_capacity(alloc, all.len())?;
    let mut text = String::new(alloc);
    for line in all {
        let output = line.output.text(alloc)?;
        text.push_str(output.as_str())?;
        lines.push(LineTold::of(line, text.len()))?;
    }
    Ok(CourseTold { lines, text })
}

impl LineTold {
    // A line whose output ends here among the bytes of all outputs.
    fn of(line: &Line, text_to: usize) -> LineTold
        ensures { result ≡ told_by line.now.decision line.now.moment text_to }
    {
        let start = line.decision.start();
        LineTold {
            moment: line.moment.get(),
            start: match start {
                Some(start) => start.get(),
                None => 0,
            },
            text_to: text_to as u64,
            goes_on: start.is_some(),
        }
    }
}
