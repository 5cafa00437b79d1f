ghost use Rattle.std.specs.Prelude.{◌≡◌, ◌+◌, ◌≤◌, ◌<◌, ◌↔◌, [], vec_len, IsSome, IfSome, IfOk};
ghost use Rattle.sched_time.specs.Capped.{capped};

use sched_plan::{Event, Val};
use sched_time::{Millis, Moment, NoMemory};
use std::alloc::Global;

/// The most events that one plan is stepped for along a course.
pub const MAX_STEPS: u64 = 4096;

/// How a plan is stepped. A moment and a duration are in milliseconds.
#[derive(Clone, Copy, Debug, PartialEq, Eq)]
pub struct PlanOptions {
    /// The most events to print, from 0 to 4096.
    pub steps: u64,
    /// The moment of the first event.
    pub from: Moment,
    /// How long after a planned start its event comes.
    pub took: Millis,
    /// The input of every event.
    pub input: Millis,
    /// The random word of every event, in all four lanes.
    pub word: u32,
    ghost in_range: { steps ≤ 4096 },
}

/// How a plan is stepped, with an input and words of its own for each event.
#[derive(Debug, Drop)]
pub struct PlanCourse {
    steps: u64,
    from: Moment,
    took: Millis,
    inputs: Vec<Millis>,
    words: Vec<[u32; 4]>,
    ghost in_range: { steps ≤ 4096 },
    ghost some_input: { 0 < vec_len inputs },
    ghost some_words: { 0 < vec_len words },
}

impl PlanCourse {
    ghost use Rattle.sched_plan_course.specs.Course.{course_of, item_or_last, steady as steady_course};
    ghost use Rattle.sched_plan_course.specs.Run.{event_at};

    /// At most so many events, the first at `from`, each later one `took` after the start that was planned before it,
    /// and of each by its number the input and the words for lanes 0 to 3; the last ones of both are those of all later
    /// events. None where there are more than 4,096 steps, no input or no words.
    pub fn new(
        steps: u64,
        from: Moment,
        took: Millis,
        inputs: Vec<Millis>,
        words: Vec<[u32; 4]>,
    ) -> Option<PlanCourse>
        ensures some { IsSome result ↔ ((steps ≤ 4096) × (0 < vec_len inputs) × (0 < vec_len words)) }
        ensures course { IfSome result (λ c. course_of c ≡ record {
          steps = steps;
          from = from;
          took = took;
          inputs = inputs.items;
          words = words.items;
        }) }
    {
        if steps > MAX_STEPS || inputs.is_empty() || words.is_empty() {
            return None;
        }
        Some(PlanCourse {
            steps,
            from,
            took,
            inputs,
            words,
        })
    }

    /// The same input and the same words at each event. Fails only with `NoMemory`.
    pub fn steady(alloc: Global, options: &PlanOptions) -> Result<PlanCourse, NoMemory>
        ensures { IfOk result (λ course. course_of course ≡ steady_course options.now) }
    {
        let mut inputs = Vec::new(alloc);
        inputs.push(options.input)?;
        let mut words = Vec::new(alloc);
        words.push([options.word; 4])?;
        Ok(PlanCourse {
            steps: options.steps,
            from: options.from,
            took: options.took,
            inputs,
            words,
        })
    }

    /// How many events there are at most.
    pub fn steps(&self) -> u64
        ensures value { result ≡ (course_of self.now).steps }
        ensures few { result ≤ 4096 }
    {
        self.steps
    }

    /// The moment of the first event.
    pub fn first(&self) -> Moment
        ensures { result ≡ (course_of self.now).from }
    {
        self.from
    }

    /// The moment of the event that follows one with this planned start.
    pub fn after(&self, start: Moment) -> Moment
        ensures { result ≡ capped (start + (course_of self.now).took) }
    {
        start.plus(self.took)
    }

    /// Event `number`, from 0, which comes at this moment.
    pub fn event(&self, number: usize, now: Moment) -> Event
        ensures { result ≡ event_at (course_of self.now) number now }
    {
        Event {
            now,
            words: self.words(number),
            input: Val::from(self.input(number)),
        }
    }

    fn input(&self, number: usize) -> Millis
        ensures { result ≡ item_or_last 0 (course_of self.now).inputs number }
    {
        self.inputs[number.min(self.inputs.len() - 1)]
    }

    fn words(&self, number: usize) -> [u32; 4]
        ensures { result ≡ item_or_last [] (course_of self.now).words number }
    {
        self.words[number.min(self.words.len() - 1)]
    }
}
