//! Tasks as futures: each poll is at the clock's moment, with the next four words.
ghost use Rattle.std.specs.Prelude.{◌≡◌, true, List, IfOk, is_some};
ghost use Rattle.sched_task.specs.Course.{Course, Turn};

use super::{Paced, millis, moment};
use futures::executor::block_on;
use rand_core::{Rng, SeedableRng};
use rand_xoshiro::Xoshiro128PlusPlus;
use sched_task::{Clock, How, MidWords, Task, Timed, VirtualClock};
use std::alloc::AllocGlobal;
use std::io;
use std::process::Abort;
use std::random::RandomSource;
use std::sync::Wait;

// A task by `block_on` comes back over, after a course of polls by the clock and the generator.
fn finish<R, T: Task, C: Clock + Drop, G: Rng + Drop>(
    rt: &R,
    task: T,
    clock: C,
    rng: G,
) -> io::Result<T>
where
    R: Wait + RandomSource + AllocGlobal,
    ensures over { IfOk result (λ out. is_some (T.ended out) ≡ true) }
    ensures course { IfOk result (λ out. (turns : List (Turn T C))
        × Course T.waits_for T.one_poll C.tells C.waits task clock (G.stream rng) turns out) }
{
    block_on(rt, Timed::new(rt.alloc(), task, clock, rng))
}

// Asserts how a task ends by a clock from this moment, and the moments and the words of its polls.
fn ends<R>(
    rt: &R,
    task: Paced,
    from: u64,
    rng: impl Rng + Drop,
    how: How,
    polls: &[(u64, [u32; 4])],
)
where
    R: Wait + RandomSource + AllocGlobal + Abort,
{
    let clock = VirtualClock::at(moment(rt, from));
    let task = finish(rt, task, clock, rng).expect(rt, "there is memory");
    assert_ended(rt, &task, how, polls);
}

fn assert_ended(rt: &impl Abort, task: &Paced, how: How, polls: &[(u64, [u32; 4])]) {
    assert_eq!(rt; task.over(), Some(how));
    assert!(rt; task.due().is_none());
    assert_eq!(rt; task.ticks.len(), polls.len());
    for (tick, poll) in task.ticks.iter().zip(polls) {
        assert_eq!(rt; (tick.now.get(), tick.words), *poll);
    }
}

// The words are the first ones that the authors' C program gives for the seed 1, 2, 3, 4.
#[test]
fn each_poll_has_the_next_four_words(rt: HostRuntime) {
    let seed = [1, 0, 0, 0, 2, 0, 0, 0, 3, 0, 0, 0, 4, 0, 0, 0];
    let rng = Xoshiro128PlusPlus::from_seed(seed);
    let polls = [
        (5, [641, 1573767, 3222811527, 3517856514]),
        (5, [836907274, 4247214768, 3867114732, 1355841295]),
    ];
    let task = Paced::new(rt.alloc(), 2, None);
    ends(&rt, task, 5, rng, How::Won, &polls);
}

#[test]
fn a_task_that_waits_is_polled_at_the_clocks_answer(rt: HostRuntime) {
    let middle = [2147483648; 4];
    let polls = [(7, middle), (107, middle), (207, middle)];
    let task = Paced::new(rt.alloc(), 3, Some(millis(&rt, 100)));
    ends(&rt, task, 7, MidWords, How::Won, &polls);
}
