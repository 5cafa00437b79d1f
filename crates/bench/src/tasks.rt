//! Drives tasks by the loop: `bench tasks [TASKS] [TURNS]`, by default 10 tasks and 1,000 turns.
//!
//! Each task waits for as many milliseconds as there are tasks, and each for moments of its own, so one poll and one
//! wait take turns, whatever the number of tasks. It prints where the clock stood in the end.
use futures::task::{Context, Poll};
use sched_task::{Clock, How, MidWords, Task, VirtualClock};
use sched_time::{Millis, Moment, Tick};
use sched_wheel::WheelLoop;
use std::alloc::{AllocGlobal, Global};
use std::random::RandomSource;
use std::rt::Runtime;
use std::sync::Wait;
use std::{env, io};

// Waits as long after each poll, and is never over unless it is cancelled.
#[derive(Drop)]
struct Ticker {
    pause: Millis,
    due: Moment,
    over: Option<How>,
}

impl Task for Ticker {
    ghost use Rattle.std.specs.Prelude.{◌≡◌, true, None, Some, if◌then◌else◌, is_some, refl};

    ghost ended = { λ task. task.over };

    ghost waits_for = { λ task. if is_some task.over then None else Some task.due };

    ghost one_poll = { λ task tick ready after. ready ≡ is_some after.over };

    ghost gives_up = { λ task after. is_some after.over ≡ true };

    ghost rests = { λ task over. rw over refl };

    fn poll_at(&mut self, _alloc: Global, tick: &Tick, _cx: &mut Context<'_>) -> Poll<()> {
        if self.over.is_some() {
            return Poll::Ready(());
        }
        self.due = tick.now.plus(self.pause);
        Poll::Pending
    }

    fn due(&self) -> Option<Moment> {
        if self.over.is_some() {
            None
        } else {
            Some(self.due)
        }
    }

    fn over(&self) -> Option<How> {
        self.over
    }

    fn cancel(&mut self) {
        if self.over.is_none() {
            self.over = Some(How::Cancelled);
        }
    }
}

pub fn bench<R: Runtime + RandomSource + Wait + AllocGlobal>(rt: &R) -> io::Result<()> {
    let mut numbers = env::args(rt)?.skip(2);
    let count = numbers
        .next()
        .and_then(|word| word.as_str().parse().ok())
        .unwrap_or(10);
    let turns = numbers
        .next()
        .and_then(|word| word.as_str().parse().ok())
        .unwrap_or(1000);
    let Some(mut tasks) = tickers(rt.alloc(), count) else {
        return println!(rt; "no tasks");
    };
    let mut clock = VirtualClock::at(Moment::new(0).unwrap());
    let _ = WheelLoop::run(rt, &mut tasks, &mut clock, &mut MidWords, turns);
    println!(rt;
        "{count} tasks, {turns} turns: at {now}",
        now = clock.now().get()
    )
}

// So many tasks, due at the first milliseconds one after the other.
fn tickers(alloc: Global, count: u32) -> Option<Vec<Ticker>> {
    let pause = Millis::from(count);
    let mut tasks = Vec::new(alloc);
    for number in 0..count {
        let due = Moment::new(number.into())?;
        let over = None;
        tasks.push(Ticker { pause, due, over }).ok()?;
    }
    Some(tasks)
}
