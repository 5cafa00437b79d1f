//! Tasks that the loop drives, polls and waits counted, and that are futures.
use futures::task::{Context, Poll};
use sched_task::{Clock, How, MidWords, Task};
use sched_time::{Millis, Moment, Tick};
use sched_wheel::{LoopStop, WheelLoop};
use std::alloc::{AllocGlobal, Global};
use std::process::Abort;
use std::random::RandomSource;
use std::sync::Wait;

mod clocks;
mod rows;
mod system;
mod timed;

fn moment(rt: &impl Abort, at: u64) -> Moment {
    Moment::new(at).expect(rt, "the moment is in range")
}

fn millis(rt: &impl Abort, duration: u64) -> Millis {
    Millis::new(duration).expect(rt, "the duration is in range")
}

// Asserts what the loop answers where it may take so many turns.
fn runs<R, C: Clock>(
    rt: &R,
    tasks: &mut [Paced],
    clock: &mut C,
    turns: u64,
    answer: Result<u64, LoopStop>,
)
where
    R: Wait + RandomSource + AllocGlobal + Abort,
{
    assert_eq!(rt;
        WheelLoop::run(rt, tasks, clock, &mut MidWords, turns),
        answer
    );
}

// The moments at which the task was polled.
fn assert_polled(rt: &impl Abort, task: &Paced, want: &[u64]) {
    assert_eq!(rt; task.ticks.len(), want.len());
    for (tick, at) in task.ticks.iter().zip(want.iter()) {
        assert_eq!(rt; tick.now.get(), *at);
    }
}

// Is won at its last poll, and waits this long after each poll before that. It notes its ticks.
#[derive(Drop)]
struct Paced {
    left: u64,
    pause: Option<Millis>,
    due: Option<Moment>,
    over: Option<How>,
    ticks: Vec<Tick>,
}

// The same, by the milliseconds that it waits.
fn pausing(rt: &impl Abort, alloc: Global, polls: u64, pause: u64) -> Paced {
    Paced::new(alloc, polls, Some(millis(rt, pause)))
}

impl Paced {
    fn new(alloc: Global, polls: u64, pause: Option<Millis>) -> Paced {
        Paced {
            left: polls,
            pause,
            due: None,
            over: None,
            ticks: Vec::new(alloc),
        }
    }
}

impl Task for Paced {
    ghost use Rattle.std.specs.Prelude.{◌≡◌, true, None, if◌then◌else◌, is_some, refl};

    ghost ended = { λ task. task.over };

    ghost waits_for = { λ task. if is_some task.over then None else task.due };

    ghost one_poll = { λ task tick ready after. ready ≡ is_some after.over };

    ghost gives_up = { λ task after. is_some after.over ≡ true };

    ghost rests = { λ task over. rw over refl };

    fn poll_at(&mut self, _alloc: Global, tick: &Tick, _cx: &mut Context<'_>) -> Poll<()> {
        if self.over.is_some() {
            return Poll::Ready(());
        }
        let words = tick.words;
        if self
            .ticks
            .push(Tick {
                now: tick.now,
                words,
            })
            .is_err()
            || self.left <= 1
        {
            self.over = Some(How::Won);
            return Poll::Ready(());
        }
        self.left -= 1;
        self.due = match self.pause {
            Some(pause) => Some(tick.now.plus(pause)),
            None => None,
        };
        Poll::Pending
    }

    fn due(&self) -> Option<Moment> {
        if self.over.is_some() { None } else { self.due }
    }

    fn over(&self) -> Option<How> {
        self.over
    }

    fn cancel(&mut self) {
        if self.over.is_none() {
            self.over = Some(How::Cancelled);
        }
    }
}
