//! Workers at gates that count and cancel.
use super::jobs::{Paced, cancel, job};
use super::plays::{Play, Step, plays};
use super::*;
use sched_task::How;
use std::sync::atomic::{AtomicU64, Ordering};
use std::sync::{Mutex, Wait};

// Counts what it is asked and told.
#[derive(Drop)]
struct Counts {
    asked: AtomicU64,
    told: AtomicU64,
}

impl Gate for Counts {
    fn ready(&self, _job: usize) -> bool {
        self.asked.fetch_add(1, Ordering::SeqCst) != 0
    }

    fn polled(&self, _job: usize) {
        self.told.fetch_add(1, Ordering::SeqCst);
    }
}

// The first turn is without a poll. Then there are two polls and a wait.
#[test]
fn a_gate_is_told_of_each_poll(rt: HostRuntime) {
    let gate = Counts {
        asked: AtomicU64::new(0),
        told: AtomicU64::new(0),
    };
    let play = Play {
        hold: 1,
        steps: &[Step::Gated(9, after(4, Finish::AllOver))],
        ends_at: 100,
    };
    plays(&rt, &[job(&rt, 2, Some(100))], &gate, &play);
    assert_eq!(rt; gate.asked.load(Ordering::SeqCst), 3);
    assert_eq!(rt; gate.told.load(Ordering::SeqCst), 2);
}

// Cancels the job once it was polled.
#[derive(Drop)]
struct Cancels<'a, R> {
    rt: &'a R,
    job: &'a Mutex<Paced>,
}

impl<'a, R: Wait> Gate for Cancels<'a, R> {
    fn ready(&self, _job: usize) -> bool {
        true
    }

    fn polled(&self, _job: usize) {
        cancel(self.rt, self.job);
    }
}

// The cancel is seen at the second poll, when the moment has come that the first one showed.
#[test]
fn a_cancel_overtakes_a_moment(rt: HostRuntime) {
    let jobs = [job(&rt, 9, Some(100))];
    let gate = Cancels {
        rt: &rt,
        job: &jobs[0],
    };
    let play = Play {
        hold: 1,
        steps: &[
            Step::Gated(9, after(3, Finish::AllOver)),
            Step::Left(0, 8, Some(How::Cancelled)),
        ],
        ends_at: 100,
    };
    plays(&rt, &jobs, &gate, &play);
}
