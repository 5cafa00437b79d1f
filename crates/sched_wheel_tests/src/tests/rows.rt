use super::{Paced, assert_polled, moment, pausing, runs};
use sched_task::{Clock, How, Task, VirtualClock};
use sched_wheel::LoopStop;
use std::alloc::Global;
use std::process::Abort;

// Three polls and two waits.
#[test]
fn turns_are_polls_and_waits(rt: HostRuntime) {
    let mut tasks = [pausing(&rt, rt.alloc(), 3, 100)];
    let mut clock = VirtualClock::at(moment(&rt, 0));
    runs(&rt, &mut tasks, &mut clock, 9, Ok(5));
    assert_eq!(rt; tasks[0].over(), Some(How::Won));
    assert_eq!(rt; clock.now().get(), 200);
    assert_polled(&rt, &tasks[0], &[0, 100, 200]);
}

// The third poll is left for a further call.
#[test]
fn a_further_call_goes_on(rt: HostRuntime) {
    let mut tasks = [pausing(&rt, rt.alloc(), 3, 100)];
    let mut clock = VirtualClock::at(moment(&rt, 0));
    let spent = Err(LoopStop::TurnsSpent);
    runs(&rt, &mut tasks, &mut clock, 4, spent);
    assert_polled(&rt, &tasks[0], &[0, 100]);
    runs(&rt, &mut tasks, &mut clock, 1, Ok(1));
    assert_polled(&rt, &tasks[0], &[0, 100, 200]);
}

// A hundred tasks, of which task k waits for k + 1 after its first poll.
fn many(rt: &impl Abort, alloc: Global) -> Vec<Paced> {
    let mut tasks = Vec::new(alloc);
    for pause in 1..=100 {
        let pushed = tasks.push(pausing(rt, alloc, 2, pause));
        assert!(rt; pushed.is_ok(), "there is memory");
    }
    tasks
}

// Each wait is for one task: 200 polls and 100 waits.
#[test]
fn each_of_many_waits_for_its_own_moment(rt: HostRuntime) {
    let mut tasks = many(&rt, rt.alloc());
    let mut clock = VirtualClock::at(moment(&rt, 0));
    runs(&rt, &mut tasks, &mut clock, 1000, Ok(300));
    assert_eq!(rt; clock.now().get(), 100);
    for (pause, task) in (1..=100).zip(tasks.iter()) {
        assert_polled(&rt, task, &[0, pause]);
    }
}

// What waits for nothing uses up all turns by polls; what was over is not polled.
#[test]
fn a_task_that_is_never_over_spends_all_turns(rt: HostRuntime) {
    let mut tasks = [
        Paced::new(rt.alloc(), 1, None),
        Paced::new(rt.alloc(), 100, None),
    ];
    tasks[0].cancel();
    let mut clock = VirtualClock::at(moment(&rt, 3));
    let spent = Err(LoopStop::TurnsSpent);
    runs(&rt, &mut tasks, &mut clock, 10, spent);
    assert_polled(&rt, &tasks[1], &[3; 10]);
    assert_polled(&rt, &tasks[0], &[]);
    assert_eq!(rt; tasks[0].over(), Some(How::Cancelled));
    tasks[1].cancel();
    runs(&rt, &mut tasks, &mut clock, 0, Ok(0));
}

// A task that never waits does not keep another from its moment.
#[test]
fn tasks_take_turns(rt: HostRuntime) {
    let mut tasks = [
        Paced::new(rt.alloc(), 6, None),
        pausing(&rt, rt.alloc(), 3, 0),
    ];
    let mut clock = VirtualClock::at(moment(&rt, 0));
    let spent = Err(LoopStop::TurnsSpent);
    runs(&rt, &mut tasks, &mut clock, 6, spent);
    assert_polled(&rt, &tasks[0], &[0; 3]);
    assert_eq!(rt; tasks[1].over(), Some(How::Won));
}
