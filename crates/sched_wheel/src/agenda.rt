//! Which tasks a loop polls next, and which wait for which moment.
ghost use Rattle.std.specs.Prelude.{◌≡◌, ◌+◌, ◌≤◌, ◌<◌, IfOk, IfNone, OnSome};
ghost use Rattle.std.specs.VecDeque.{deque_len};
ghost use Rattle.std.specs.BinaryHeap.{heap_len};
ghost use Rattle.futures.specs.LinkedLists.Wheel.{key_limit, armed_count};

use futures::util::wheel::Wheel;
use sched_time::{FAR, Moment, NoMemory};
use std::alloc::Global;
use std::cmp::Reverse;
use std::collections::{BinaryHeap, VecDeque};

/// Tasks by number: those to poll in turn, and those that wait for a moment after the clock's last answer.
#[derive(Drop)]
pub(crate) struct Agenda {
    count: usize,
    // The clock's last answer.
    moment: Moment,
    ready: VecDeque<usize>,
    // Moments in milliseconds, none before the wheel's own time.
    wheel: Wheel,
    // Moments before the wheel's own time, as they come after a clock that goes back.
    early: BinaryHeap<Reverse<(u64, usize)>>,
    ghost room: { count ≤ key_limit wheel },
}

impl Agenda {
    /// With room for this many tasks.
    pub(crate) fn new(alloc: Global, count: usize, moment: Moment) -> Result<Agenda, NoMemory>
        ensures count { IfOk result (λ agenda. agenda.count ≡ count) }
    {
        let mut wheel = Wheel::new(alloc)?;
        if count > 0 {
            wheel.reserve_key(count - 1)?;
        }
        Ok(Agenda {
            count,
            moment,
            ready: VecDeque::with_capacity(alloc, count)?,
            wheel,
            early: BinaryHeap::new(alloc),
        })
    }

    /// The clock's last answer.
    pub(crate) fn moment(&self) -> Moment
        ensures { result ≡ self.now.moment }
    {
        self.moment
    }

    /// Puts a task where it is polled in turn, or once its moment has come.
    pub(crate) fn put(&mut self, task: usize, due: Option<Moment>) -> Result<(), NoMemory>
        requires { task < self.old.count }
        ensures count { self.new.count ≡ self.old.count }
        ensures moment { self.new.moment ≡ self.old.moment }
    {
        match due {
            Some(due) if self.moment.get() < due.get() => self.wait(task, due),
            _ => {
                self.ready.push_back(task)?;
                Ok(())
            }
        }
    }

    /// Puts a task where it waits for a moment after the clock's last answer.
    pub(crate) fn wait(&mut self, task: usize, due: Moment) -> Result<(), NoMemory>
        requires { task < self.old.count }
        ensures count { self.new.count ≡ self.old.count }
        ensures moment { self.new.moment ≡ self.old.moment }
        ensures ready { deque_len self.new.ready ≡ deque_len self.old.ready }
    {
        if due.get() < self.wheel.elapsed() {
            self.early.push(Reverse((due.get(), task)))?;
        } else {
            self.wheel.insert(task, due.get());
        }
        Ok(())
    }

    /// Notes the clock's answer, and makes ready what waited for a moment up to it.
    pub(crate) fn reach(&mut self, moment: Moment) -> Result<(), NoMemory>
        ensures count { self.new.count ≡ self.old.count }
        ensures moment { self.new.moment ≡ moment }
    {
        self.moment = moment;
        while let Some(task) = self.next_awake() {
            self.ready.push_back(task)?;
        }
        Ok(())
    }

    // A task whose moment has come, out of those that wait.
    fn next_awake(&mut self) -> Option<usize>
        ensures count { self.new.count ≡ self.old.count }
        ensures moment { self.new.moment ≡ self.old.moment }
        ensures fewer { OnSome result (heap_len self.new.early + armed_count self.new.wheel + 1
            ≡ heap_len self.old.early + armed_count self.old.wheel) }
    {
        match self.next_early() {
            Some(task) => Some(task),
            None => self.next_of_wheel(),
        }
    }

    fn next_early(&mut self) -> Option<usize>
        ensures count { self.new.count ≡ self.old.count }
        ensures moment { self.new.moment ≡ self.old.moment }
        ensures wheel { self.new.wheel ≡ self.old.wheel }
        ensures fewer { OnSome result (heap_len self.new.early + 1 ≡ heap_len self.old.early) }
        ensures none { IfNone result (heap_len self.new.early ≡ heap_len self.old.early) }
    {
        let Reverse((due, _)) = self.early.peek()?;
        if *due > self.moment.get() {
            return None;
        }
        let Reverse((_, task)) = self.early.pop()?;
        Some(task)
    }

    // Where the wheel's time is after the clock's answer, none of its moments has come.
    fn next_of_wheel(&mut self) -> Option<usize>
        ensures count { self.new.count ≡ self.old.count }
        ensures moment { self.new.moment ≡ self.old.moment }
        ensures early { heap_len self.new.early ≡ heap_len self.old.early }
        ensures fewer { OnSome result (armed_count self.new.wheel + 1 ≡ armed_count self.old.wheel) }
    {
        if self.moment.get() < self.wheel.elapsed() {
            return None;
        }
        self.wheel.poll(self.moment.get())
    }

    /// Whether a task is to be polled in turn.
    pub(crate) fn has_ready(&self) -> bool {
        !self.ready.is_empty()
    }

    /// Takes the next task to poll.
    pub(crate) fn next(&mut self) -> Option<usize>
        ensures fewer { OnSome result (deque_len self.new.ready + 1 ≡ deque_len self.old.ready) }
        ensures count { self.new.count ≡ self.old.count }
        ensures moment { self.new.moment ≡ self.old.moment }
    {
        self.ready.pop_front()
    }

    /// The least moment that a task waits for. The wheel's time runs on to it.
    pub(crate) fn least(&mut self) -> Option<Moment>
        ensures count { self.new.count ≡ self.old.count }
    {
        if let Some(Reverse((due, _))) = self.early.peek() {
            return Moment::new(*due);
        }
        let task = self.wheel.poll(FAR)?;
        let due = self.wheel.elapsed();
        self.wheel.insert(task, due);
        Moment::new(due)
    }
}
