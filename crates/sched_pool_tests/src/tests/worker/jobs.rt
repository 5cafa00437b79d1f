//! Jobs that are paced, each behind its lock.
use futures::task::{Context, Poll};
use sched_task::{How, Task};
use sched_time::{Millis, Moment, Tick};
use std::alloc::Global;
use std::process::Abort;
use std::sync::{Mutex, Wait};

/// Is won at its last poll, and waits this long after each poll before that.
#[derive(Drop)]
pub(crate) struct Paced {
    left: u64,
    pause: Option<Millis>,
    due: Option<Moment>,
    over: Option<How>,
}

/// A job with so many polls, and the milliseconds that it waits after each but the last.
pub(crate) fn job(rt: &impl Abort, polls: u64, pause: Option<u64>) -> Mutex<Paced> {
    let pause = match pause {
        Some(pause) => Some(Millis::new(pause).expect(rt, "the pause is in range")),
        None => None,
    };
    Mutex::new(Paced {
        left: polls,
        pause,
        due: None,
        over: None,
    })
}

/// The jobs with these polls and pauses.
pub(crate) fn jobs_of(
    rt: &impl Abort,
    alloc: Global,
    rows: &[(u64, Option<u64>)],
) -> Vec<Mutex<Paced>> {
    let mut jobs = Vec::new(alloc);
    for (polls, pause) in rows {
        let pushed = jobs.push(job(rt, *polls, *pause));
        pushed.ok().expect(rt, "there is memory");
    }
    jobs
}

impl Task for Paced {
    ghost use Rattle.std.specs.Prelude.{◌≡◌, true, None, if◌then◌else◌, is_some, refl};

    ghost ended = { λ task. task.over };

    ghost waits_for = { λ task. if is_some task.over then None else task.due };

    ghost one_poll = { λ task tick ready after. ready ≡ is_some after.over };

    ghost gives_up = { λ task after. is_some after.over ≡ true };

    ghost rests = { λ task over. rw over refl };

    fn poll_at(&mut self, _alloc: Global, tick: &Tick, _cx: &mut Context<'_>) -> Poll<()> {
        if self.over.is_some() {
            return Poll::Ready(());
        }
        if self.left <= 1 {
            self.left = 0;
            self.over = Some(How::Won);
            return Poll::Ready(());
        }
        self.left -= 1;
        self.due = match self.pause {
            Some(pause) => Some(tick.now.plus(pause)),
            None => None,
        };
        Poll::Pending
    }

    fn due(&self) -> Option<Moment> {
        if self.over.is_some() { None } else { self.due }
    }

    fn over(&self) -> Option<How> {
        self.over
    }

    fn cancel(&mut self) {
        if self.over.is_none() {
            self.over = Some(How::Cancelled);
        }
    }
}

/// What is left of the job, and how it ended.
pub(crate) fn shown(rt: &impl Wait, job: &Mutex<Paced>) -> (u64, Option<How>) {
    let job = job.lock(rt);
    (job.left, job.over)
}

/// Cancels the job.
pub(crate) fn cancel(rt: &impl Wait, job: &Mutex<Paced>) {
    job.lock(rt).cancel();
}
