//! A closure that is called again after each success.
ghost use Rattle.std.specs.Prelude.{◌≡◌, Some, None};
ghost use Rattle.sched_ticket_draws.specs.Freely.{free_grants};
ghost use Rattle.sched_task_law.specs.Kind.{a_repeat};
ghost use Rattle.sched_run_machine.specs.Machine.{begins};
ghost use Rattle.sched_closure.specs.Turns.{calling};
ghost use Rattle.sched_closure.specs.Begins.{Goes};
ghost use Rattle.sched_closure.specs.Endings.{how_of_repeat, gave_of_repeat};

use crate::endings::{RepeatCallEnding, repeat_ending};
use crate::turns::call_on;
use rand_core::Rng;
use sched_effect::Coded;
use sched_run_machine::{Drives, Machine, RepeatMachine};
use sched_task::Clock;
use std::alloc::AllocGlobal;
use std::sync::Wait;

/// Calls this closure again after each success, as the repeat's schedule says, until it fails or the schedule is done,
/// and answers how that ended. Between two calls it waits by the clock.
///
/// The repeat's machine is made of this driver, and is answered beside the ending.
///
/// Each run calls the closure once, and ends at the moment that the clock tells after the call: the schedule's delays
/// count from there. The schedule is stepped with the code of each success. Where memory is refused or a journal is
/// full at the end of a run that succeeded, the repeat ends as `Broken`, with that run's item.
///
/// With a deadline, by `Until` as its driver, each call but the first begins by the deadline. The repeat ends as
/// `ScheduleDone` where the start planned is past it, and as `DeadlinePassed` where a wait goes past it.
pub fn repeat_call<I, F, R, S, K, G, C>(
    rt: &R,
    driver: S,
    clock: &mut K,
    words: &mut G,
    call: C,
) -> (RepeatCallEnding<I, F>, RepeatMachine<S>)
where
    I: Coded + Drop,
    F: Coded + Drop,
    R: Wait + AllocGlobal,
    S: Drives,
    K: Clock,
    G: Rng,
    C: FnMut() -> Result<I, F>,
    requires fresh { S.driving.fresh driver }
    requires callable { C.IsAlwaysCallable call }
    ensures goes { (called : C) × Goes free_grants K.tells K.waits C.step I.coded F.coded
        S.driving (a_repeat S.driving.keeps)
        (calling (begins free_grants driver 0) clock.old (G.stream words.old) call None)
        (calling result.1 clock.new (G.stream words.new) called (Some (gave_of_repeat result.0)))
        (how_of_repeat result.0) (gave_of_repeat result.0) }
    ensures over { result.1.over ≡ Some (how_of_repeat result.0) }
{
    let mut repeat = Machine::repeating(driver);
    let outcome = call_on(rt, &mut repeat, clock, words, call, None);
    let ending = repeat_ending(outcome, repeat.over());
    (ending, repeat)
}
