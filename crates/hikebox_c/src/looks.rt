//! Looks at the words of limits, and the requests that begin by these.
ghost use Rattle.sched_handle.specs.Limits.{OnLimits};
ghost use Rattle.sched_handle.specs.Looks.{Looks, Begins};
ghost use Rattle.hikebox_c.specs.Calls.{Tells, OnHeld};

use sched_handle::{Handle, Status, tell};
use sched_limit_handle::Words;

#[unsafe(no_mangle)]
pub extern "C" fn hikebox_limit_look(limit: &mut Handle, words: &mut Words, quiet: &mut bool) -> u32
    ensures { OnHeld (OnLimits (Looks words.new)) limit.old.held limit.new.held
        (Tells result quiet.old quiet.new) }
{
    let Some(held) = limit.as_mut() else {
        return Status::Empty.code();
    };
    let answer = held.limits_look(words);
    tell(answer, quiet)
}

#[unsafe(no_mangle)]
pub extern "C" fn hikebox_limit_begin(limit: &mut Handle, words: &Words, begun: &mut bool) -> u32
    ensures { OnHeld (OnLimits (Begins words.now)) limit.old.held limit.new.held
        (Tells result begun.old begun.new) }
{
    let Some(held) = limit.as_mut() else {
        return Status::Empty.code();
    };
    let answer = held.limits_begin(words);
    tell(answer, begun)
}
