use sched_time::{Decision, Tick};

/// What a step is made with, at each node that it comes to.
#[derive(Clone, Copy)]
pub(crate) struct Cue {
    pub(crate) tick: Tick,
    /// The number that the event's input is; in the second plan of a feed that of the first one's output.
    pub(crate) input: Option<u64>,
}

/// What is read of a plan's answer.
#[derive(Clone, Copy)]
pub(crate) struct Reply {
    /// The number that the part of the output that is read is.
    pub(crate) number: Option<u64>,
    pub(crate) decision: Decision,
}
