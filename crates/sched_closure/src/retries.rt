//! A closure that is called until it succeeds.
ghost use Rattle.std.specs.Prelude.{◌≡◌, [], Some, None, Ok, Err, IfOk, IfSome, IfNone, true};
ghost use Rattle.sched_task_law.specs.Kind.{a_retry};
ghost use Rattle.sched_run_machine.specs.Machine.{begins, unbegun, IsMachineOf, PollsEach};
ghost use Rattle.sched_closure.specs.Turns.{calling};
ghost use Rattle.sched_closure.specs.Calls.{machine_turning};
ghost use Rattle.sched_closure.specs.Begins.{Goes, EndsUnbegun};
ghost use Rattle.sched_closure.specs.Endings.{how_of, gave};

use crate::endings::{CallEnding, retry_ending};
use crate::turns::{Turns, call_on};
use rand_core::Rng;
use sched_effect::{Coded, ran_of};
use sched_run_machine::{Drives, Machine, Next};
use sched_task::{Clock, RunFault, four_words};
use sched_ticket_draws::{Draws, Quiet};
use sched_time::{Moment, NoMemory, Tick};
use std::alloc::{AllocGlobal, Global};
use std::sync::Wait;

/// Calls this closure until it succeeds, again after each failure as the retry's schedule says, with a ticket for each
/// retry, and answers how that ended. Between two calls it waits by the clock.
///
/// The retry's machine is made at the first failure, by `begin`, and is answered beside the ending. Where the first
/// call succeeds there is none: the clock was asked once, for the moment at which that call began, and nothing else was
/// done.
///
/// Each run calls the closure once, and ends at the moment that the clock tells after the call: the schedule's delays
/// count from there. Where memory is refused or a journal is full at the end of a run that failed, the retry ends as
/// `Broken`, with that run's fault; so it does where `begin` is refused memory. No clause says that the clock is asked
/// after the call and not before it, since neither knows of the other; tests do.
///
/// With a deadline, by `Until` as the retry's driver, each call but the first begins by the deadline. The retry ends as
/// `ScheduleDone` where the start planned is past it; the driver's `late_start` then tells that start. Where a wait
/// goes past the deadline it ends as `DeadlinePassed`.
///
/// What it draws by is made at the first failure too, so it is one that need not be told how a call went: a budget or a
/// quota. `limited_call` takes any other limit.
pub fn retry_call<I, F, R, S, D, K, G, B, C>(
    rt: &R,
    begin: &mut B,
    clock: &mut K,
    words: &mut G,
    mut call: C,
) -> (CallEnding<I, F>, Option<Machine<S, D>>)
where
    I: Coded + Drop,
    F: Coded + Drop,
    R: Wait + AllocGlobal,
    S: Drives,
    D: Quiet,
    K: Clock,
    G: Rng,
    B: FnMut(Global) -> Result<(S, D), NoMemory>,
    C: FnMut() -> Result<I, F>,
    requires makes { B.IsAlwaysCallable begin.old }
    requires fresh { (alloc : _) (made : _) (after : B) → B.step begin.old alloc made after →
        IfOk made (λ m. S.driving.fresh m.0) }
    requires callable { C.IsAlwaysCallable call }
    ensures begun { IfSome result.1 (λ retry. (made : _) × (alloc : _) × B.step begin.old alloc (Ok made) begin.new
        × (called : C) × Goes D.grants K.tells K.waits C.step I.coded F.coded S.driving (a_retry S.driving.keeps)
        (calling (begins D.grants made.0 made.1) clock.old (G.stream words.old) call None)
        (calling retry clock.new (G.stream words.new) called (Some (gave result.0))) (how_of result.0)
        (gave result.0)) }
    ensures unbegun { IfNone result.1 ((called : C)
        × EndsUnbegun D.grants K.tells K.waits C.step I.coded F.coded S.driving.keeps
        ((alloc : _) × (cause : _) × B.step begin.old alloc (Err cause) begin.new)
        (calling begin.old clock.old (G.stream words.old) call None)
        (calling begin.new clock.new (G.stream words.new) called (Some (gave result.0))) result.0) }
    ensures over { IfSome result.1 (λ retry. retry.over ≡ Some (how_of result.0)) }
{
    let began = clock.now();
    match call() {
        Ok(item) => (CallEnding::Won(item), None),
        Err(fault) => go_on(rt, begin, (began, fault), clock, words, call),
    }
}

// Makes the retry, whose first run began at this moment and failed so, and goes on with it.
#[cold]
#[inline(never)]
fn go_on<I, F, R, S, D, K, G, B, C>(
    rt: &R,
    begin: &mut B,
    first: (Moment, F),
    clock: &mut K,
    words: &mut G,
    call: C,
) -> (CallEnding<I, F>, Option<Machine<S, D>>)
where
    I: Coded + Drop,
    F: Coded + Drop,
    R: Wait + AllocGlobal,
    S: Drives,
    D: Quiet,
    K: Clock,
    G: Rng,
    B: FnMut(Global) -> Result<(S, D), NoMemory>,
    C: FnMut() -> Result<I, F>,
    requires makes { B.IsAlwaysCallable begin.old }
    requires fresh { (alloc : _) (made : _) (after : B) → B.step begin.old alloc made after →
        IfOk made (λ m. S.driving.fresh m.0) }
    requires callable { C.IsAlwaysCallable call }
    ensures begun { (k : K) (c : C) → K.tells k first.0 clock.old → C.step c (Err first.1) call →
        IfSome result.1 (λ retry. (made : _) × (alloc : _) × B.step begin.old alloc (Ok made) begin.new
        × (called : C) × Goes D.grants K.tells K.waits C.step I.coded F.coded S.driving (a_retry S.driving.keeps)
        (calling (begins D.grants made.0 made.1) k (G.stream words.old) c None)
        (calling retry clock.new (G.stream words.new) called (Some (gave result.0))) (how_of result.0)
        (gave result.0)) }
    ensures unbegun { (k : K) (c : C) → K.tells k first.0 clock.old → C.step c (Err first.1) call →
        IfNone result.1 ((called : C) × EndsUnbegun D.grants K.tells K.waits C.step I.coded F.coded S.driving.keeps
        ((alloc : _) × (cause : _) × B.step begin.old alloc (Err cause) begin.new)
        (calling begin.old k (G.stream words.old) c None)
        (calling begin.new clock.new (G.stream words.new) called (Some (gave result.0))) result.0) }
    ensures over { IfSome result.1 (λ retry. retry.over ≡ Some (how_of result.0)) }
{
    let alloc = rt.alloc();
    let (began, fault) = first;
    let began = Tick {
        now: began,
        words: four_words(words),
    };
    let ended = Tick {
        now: clock.now(),
        words: four_words(words),
    };
    let Ok((driver, drawing)) = begin(alloc) else {
        return (CallEnding::Broken(RunFault::NoMemory, fault), None);
    };
    let mut retry = begun(driver, drawing, &began);
    let lost = Err(fault);
    let outcome = match retry.tell(alloc, &ended, ran_of(&lost)) {
        Some(_) => lost,
        None => call_on(rt, &mut retry, clock, words, call, Some(lost)),
    };
    let ending = retry_ending(outcome, retry.over());
    (ending, Some(retry))
}

// The machine of a retry whose first run began at the tick.
fn begun<S: Drives, D: Draws>(driver: S, drawing: D, tick: &Tick) -> Machine<S, D>
    requires { S.driving.fresh driver }
    ensures due { (machine_turning D.grants (a_retry S.driving.keeps) S.driving).due
        (begins D.grants driver drawing) None }
    ensures stands { IsMachineOf S.driving (a_retry S.driving.keeps) D.grants (begins D.grants driver drawing)
        (unbegun D.grants (S.driving.plan driver) (S.driving.ends driver) drawing) }
    ensures begun { result ≡ record (begins D.grants driver drawing) { under_way = true } }
    ensures polls { PollsEach S.driving (a_retry S.driving.keeps) D.grants
        (begins D.grants driver drawing) tick.entry.now [] result }
{
    let mut retry = Machine::new(driver, drawing);
    match retry.next() {
        Next::Poll => retry.begin(tick),
        Next::Run | Next::Wait(_) | Next::Over(_) => unreachable!(),
    }
    retry
}
