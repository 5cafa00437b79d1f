use crate::values::Val;
use sched_time::{Decision, Moment};

/// One step that a schedule was given: the moment, four random words and the input.
#[derive(Drop)]
pub struct Event {
    pub now: Moment,
    pub words: [u32; 4],
    pub input: Val,
}

/// What a schedule gives at a step: an output, and whether it goes on.
#[derive(Drop)]
pub struct Answer {
    pub output: Val,
    pub decision: Decision,
}
