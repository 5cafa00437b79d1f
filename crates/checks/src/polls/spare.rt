//! A fallback that answers at once.

use futures::task::{Context, Poll};
use sched_plan::Val;
use sched_run::{Code, Coded, Fallback, Ran, Scripted};
use sched_time::{Millis, NoMemory};
use std::alloc::Global;

/// A fallback with the answer 4. It keeps a copy of the output that it was asked with, for which it takes memory.
#[derive(Drop)]
pub struct Spare {
    alloc: Global,
    asked: Option<(Millis, Val)>,
    answered: Option<Ran>,
}

impl Spare {
    /// One that was not asked yet.
    pub fn new(alloc: Global) -> Spare {
        Spare {
            alloc,
            asked: None,
            answered: None,
        }
    }
}

impl Fallback<Scripted> for Spare {
    ghost asked = { λ spare. spare.asked };

    ghost answered = { λ spare. spare.answered };

    fn poll_fallback(
        &mut self,
        fault: &Code,
        output: &Val,
        _cx: &mut Context<'_>,
    ) -> Poll<Result<Result<Code, Code>, NoMemory>> {
        let Ok(output) = output.copy(self.alloc) else {
            return Poll::Ready(Err(NoMemory));
        };
        let code = Millis::from(4);
        self.asked = Some((fault.code(), output));
        self.answered = Some(Ran::Won(code));
        Poll::Ready(Ok(Ok(Code(code))))
    }

    fn asked(&self) -> Option<(Millis, &Val)> {
        match &self.asked {
            Some((code, output)) => Some((*code, output)),
            None => None,
        }
    }

    fn answered(&self) -> Option<Ran> {
        self.answered
    }
}
