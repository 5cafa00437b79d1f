//! The system's clock.
ghost use Rattle.std.specs.Prelude.{◌≡◌, ◌≤◌, ◌-◌, ◌/◌, ⊤, ℕ, Option, Some, None, IfOk, IfErr};
ghost use Rattle.std.specs.Time.{instant_nanos};
ghost use Rattle.sched_time.specs.Capped.{capped};
ghost use Rattle.sched_task.specs.System.{reading_of, moment_of, Told, Waited};

use crate::clocks::Clock;
use sched_time::{FAR, Millis, Moment};
use std::marker::Model;
use std::time::{self, Duration, Instant};
use std::{io, thread};

/// What a clock reads its time of, and sleeps by: a reference to the runtime, or to any `Clock` of `std`.
pub trait TimeSource: Copy {
    // Holds of a source, the nanoseconds of a reading, or none where it failed, and the source after that.
    ghost reads: { Self → Option ℕ → Self → Type 0 };

    // Holds of a source, the milliseconds to sleep for, and the source after that.
    ghost sleeps: { Self → ℕ → Self → Type 0 };

    /// Reads the time. An error of the system is handed on.
    fn read(&mut self) -> io::Result<Instant>
        ensures { reads self.old (reading_of result) self.new };

    /// Sleeps for so long, or for less where the system wakes it.
    fn sleep(&mut self, pause: Millis)
        ensures { sleeps self.old pause self.new };
}

impl<R: time::Clock> TimeSource for &R {
    // `std` states nothing of its reading and its sleep, so nothing is stated here.
    ghost reads = { λ _ _ _. ⊤ };

    ghost sleeps = { λ _ _ _. ⊤ };

    fn read(&mut self) -> io::Result<Instant> {
        Instant::now(*self)
    }

    fn sleep(&mut self, pause: Millis) {
        thread::sleep(*self, Duration::from_millis(pause.get()))
    }
}

/// The milliseconds since it was made, by a source of time. It never tells an earlier moment than it told before: where
/// its source goes back or fails, it tells the last one.
#[derive(Drop)]
pub struct SystemClock<S> {
    source: S,
    start: Instant,
    last: Moment,
}

impl<S> Model for SystemClock<S> {
    ghost use Rattle.sched_task.specs.System.{Counting};

    ghost Value = { Counting S };

    ghost view = { λ clock. record { source = clock.source; start = clock.start; last = clock.last } };
}

impl<S: TimeSource> SystemClock<S> {
    /// A clock at moment 0, as `SystemClock::new(&rt)?`. Where its source can't be read, its error is handed on.
    pub fn new(source: S) -> io::Result<SystemClock<S>>
        ensures made { IfOk result
            (λ clock. (clock.last ≡ 0) × S.reads source (Some (instant_nanos clock.start)) clock.source) }
        ensures refused { IfErr result (λ _. (after : S) × S.reads source None after) }
    {
        let mut source = source;
        let start = source.read()?;
        Ok(SystemClock {
            source,
            start,
            last: moment_at(start, start),
        })
    }

    /// A clock that counts from the same moment, so that threads, and one run after another, can have one time.
    pub fn copy(&self) -> SystemClock<S>
        ensures { result ≡ self.now }
    {
        SystemClock {
            source: self.source,
            start: self.start,
            last: self.last,
        }
    }
}

impl<S: TimeSource> Clock for SystemClock<S> {
    ghost tells = { λ clock moment after. (clock.last ≤ moment) × Told S.reads clock moment after };

    ghost waits = { λ clock until moment after.
        (clock.last ≤ moment) × Waited S.reads S.sleeps clock until moment after };

    fn now(&mut self) -> Moment {
        let reading = self.source.read();
        self.last = moment_told(self.start, self.last, reading);
        self.last
    }

    fn wait_until(&mut self, until: Moment) -> Moment {
        let first = self.now();
        if until.get() <= first.get() {
            return first;
        }
        self.source.sleep(until.since(first));
        self.now()
    }
}

// The moment that a clock made at `start` tells after a reading, where it told `last` before.
fn moment_told(start: Instant, last: Moment, reading: io::Result<Instant>) -> Moment
    ensures told { result ≡ moment_of start last (reading_of reading) }
    ensures later { last ≤ result }
{
    let Ok(instant) = reading else {
        return last;
    };
    let moment = moment_at(start, instant);
    if last.get() < moment.get() {
        moment
    } else {
        last
    }
}

// The moment of an instant, by a clock that was made at `start`.
fn moment_at(start: Instant, instant: Instant) -> Moment
    ensures { result ≡ capped ((instant_nanos instant - instant_nanos start) / 1000000) }
{
    let passed = instant.duration_since(start).as_millis();
    let millis = u64::try_from(passed).unwrap_or(FAR);
    match Moment::new(millis.min(FAR)) {
        Some(moment) => moment,
        None => unreachable!(),
    }
}
