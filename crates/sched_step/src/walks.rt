use sched_plan::Val;
use sched_time::Tick;
use std::alloc::Global;

/// What a step is made with, at each node that it comes to.
#[derive(Clone, Copy)]
pub(crate) struct Walk<'a> {
    pub(crate) alloc: Global,
    pub(crate) tick: Tick,
    /// The event's input; in the second plan of a feed the output of the first.
    pub(crate) input: &'a Val,
    /// The step is made from before the first event, whatever the tree is.
    pub(crate) fresh: bool,
}
