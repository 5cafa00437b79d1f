//! Two jobs on a thread each, with a gate that tells that both threads run.
use super::pools::total;
use super::*;
use sched_pool::Gate;
use std::sync::atomic::{AtomicBool, Ordering};

// Each of jobs 0 and 1, where it is first asked for, looks for the other one to have begun.
#[derive(Drop)]
struct Meeting {
    zero_begun: AtomicBool,
    one_begun: AtomicBool,
    zero_met: AtomicBool,
    one_met: AtomicBool,
}

fn meet(mine: &AtomicBool, other: &AtomicBool, met: &AtomicBool) {
    if mine.swap(true, Ordering::SeqCst) {
        return;
    }
    for _ in 0..100_000_000u32 {
        if other.load(Ordering::SeqCst) {
            met.store(true, Ordering::SeqCst);
            return;
        }
    }
}

impl Gate for Meeting {
    fn ready(&self, job: usize) -> bool {
        if job == 0 {
            meet(&self.zero_begun, &self.one_begun, &self.zero_met);
        } else {
            meet(&self.one_begun, &self.zero_begun, &self.one_met);
        }
        true
    }

    fn polled(&self, _job: usize) {}
}

#[test]
fn two_threads_meet(rt: HostRuntime) {
    let gate = Meeting {
        zero_begun: AtomicBool::new(false),
        one_begun: AtomicBool::new(false),
        zero_met: AtomicBool::new(false),
        one_met: AtomicBool::new(false),
    };
    assert_eq!(rt; total(&rt, 100, (2, 2), &gate), 6);
    assert!(rt; gate.zero_met.load(Ordering::SeqCst));
    assert!(rt; gate.one_met.load(Ordering::SeqCst));
}
