//! The loop.
ghost use Rattle.std.specs.Prelude.{◌≡◌, ◌≤◌, ◌<◌, true, false, All, Any, HoldsAt, length, IfOk, IfErr, IfSome, OnOk};
ghost use Rattle.std.specs.Prelude.{OnErr, OnSome, is_some};
ghost use Rattle.sched_wheel.specs.Polled.{IsAsked, IsCourse, IsOpen, standing};

use crate::agenda::Agenda;
use futures::task::{Context, Doorbell, Poll, Queue};
use rand_core::Rng;
use sched_task::{Clock, Task, four_words};
use sched_time::{Moment, NoMemory, Tick};
use std::alloc::{AllocGlobal, Global};
use std::random::RandomSource;
use std::sync::Wait;
use thiserror::Error;

/// Why a loop stopped before every task was over.
#[derive(Clone, Copy, Debug, PartialEq, Eq, Error)]
pub enum LoopStop {
    /// A growth was refused, or the system gave no random bytes for the name of the queue of this call.
    #[error("no memory")]
    NoMemory,
    /// All turns were taken.
    #[error("all turns were taken")]
    TurnsSpent,
}

impl From<NoMemory> for LoopStop {
    ghost use Rattle.std.specs.Prelude.{◌≡◌};
    ghost use Rattle.sched_wheel.specs.declared.loops.LoopStop.{LoopStop as Stop};

    ghost from_gives = { λ _ stop. stop ≡ Stop.NoMemory };

    fn from(_: NoMemory) -> Self {
        LoopStop::NoMemory
    }
}

/// Drives tasks on one thread.
pub struct WheelLoop;

impl WheelLoop {
    /// Polls the tasks, each when its moment has come, until all are over.
    ///
    /// It takes at most this many turns, and answers how many. A turn is one poll of a task that is not over, with a
    /// fresh answer of the clock and four words of the generator, or one wait. It waits only where every task that is
    /// not over waits for a moment after the clock's last answer, and then for the least of these.
    ///
    /// Refused as `NoMemory` and, where all turns were taken and a task is not over, as `TurnsSpent`; the tasks then
    /// stand as their polls left them, and a further call goes on.
    #[tactic(auto, using(crate::proofs::Polls::asked_none, crate::proofs::Polls::course_of_none))]
    pub fn run<R, T: Task, C: Clock, G: Rng>(
        rt: &R,
        tasks: &mut [T],
        clock: &mut C,
        rng: &mut G,
        turns: u64,
    ) -> Result<u64, LoopStop>
    where
        R: Wait + RandomSource + AllocGlobal,
        ensures turns { IfOk result (λ used. used ≤ turns) }
        ensures over { IfOk result (λ _. All (λ task. is_some (T.ended task) ≡ true) tasks.new) }
        ensures spent { IfErr result
            (λ stop. stop ≡ LoopStop.TurnsSpent → Any (λ task. is_some (T.ended task) ≡ false) tasks.new) }
        ensures polled { IsCourse T.ended T.waits_for T.one_poll C.tells C.waits turns
            (standing tasks.old (G.stream rng.old) clock.old) (standing tasks.new (G.stream rng.new) clock.new) }
        ensures used { IfOk result (λ used. IsCourse T.ended T.waits_for T.one_poll C.tells C.waits used
            (standing tasks.old (G.stream rng.old) clock.old) (standing tasks.new (G.stream rng.new) clock.new)) }
    {
        let Ok(queue) = Queue::new(rt, Doorbell::spinning()) else {
            return Err(LoopStop::NoMemory);
        };
        let Ok(vacancy) = queue.add() else {
            return Err(LoopStop::NoMemory);
        };
        vacancy.schedule();
        let Some(mut cx) = queue.next(rt) else {
            return Err(LoopStop::NoMemory);
        };
        let ended = drive(rt.alloc(), tasks, clock, rng, turns, &mut cx);
        cx.cancel();
        ended
    }
}

fn drive<T: Task, C: Clock, G: Rng>(
    alloc: Global,
    tasks: &mut [T],
    clock: &mut C,
    rng: &mut G,
    turns: u64,
    cx: &mut Context<'_>,
) -> Result<u64, LoopStop>
    ensures turns { IfOk result (λ used. used ≤ turns) }
    ensures over { IfOk result (λ _. All (λ task. is_some (T.ended task) ≡ true) tasks.new) }
    ensures spent { IfErr result
        (λ stop. stop ≡ LoopStop.TurnsSpent → Any (λ task. is_some (T.ended task) ≡ false) tasks.new) }
    ensures polled { IsCourse T.ended T.waits_for T.one_poll C.tells C.waits turns
        (standing tasks.old (G.stream rng.old) clock.old) (standing tasks.new (G.stream rng.new) clock.new) }
    ensures used { IfOk result (λ used. IsCourse T.ended T.waits_for T.one_poll C.tells C.waits used
        (standing tasks.old (G.stream rng.old) clock.old) (standing tasks.new (G.stream rng.new) clock.new)) }
{
    let mut agenda = begin(alloc, tasks, clock)?;
    for used in 0..turns {
        if !take_turn(alloc, &mut agenda, tasks, clock, rng, cx)? {
            return finished(tasks, used);
        }
    }
    finished(tasks, turns)
}

// The answer after this many turns.
fn finished<T: Task>(tasks: &[T], used: u64) -> Result<u64, LoopStop>
    ensures turns { IfOk result (λ answer. answer ≡ used) }
    ensures over { OnOk result (All (λ task. is_some (T.ended task) ≡ true) tasks.now) }
    ensures spent { OnErr result (Any (λ task. is_some (T.ended task) ≡ false) tasks.now) }
{
    if tasks.iter().all(|task| task.over().is_some()) {
        Ok(used)
    } else {
        Err(LoopStop::TurnsSpent)
    }
}

// The tasks that are not over, from the clock's first answer on.
fn begin<T: Task, C: Clock>(alloc: Global, tasks: &[T], clock: &mut C) -> Result<Agenda, NoMemory>
    ensures count { IfOk result (λ agenda. agenda.count ≡ length tasks.now) }
    ensures asked { IsAsked C.tells C.waits clock.old clock.new }
{
    let mut agenda = Agenda::new(alloc, tasks.len(), clock.now())?;
    for (number, task) in tasks.iter().enumerate() {
        if task.over().is_none() {
            agenda.put(number, task.due())?;
        }
    }
    Ok(agenda)
}

// One poll or one wait. `false`, and no task polled, where none is left.
fn take_turn<T: Task, C: Clock, G: Rng>(
    alloc: Global,
    agenda: &mut Agenda,
    tasks: &mut [T],
    clock: &mut C,
    rng: &mut G,
    cx: &mut Context<'_>,
) -> Result<bool, NoMemory>
    requires { agenda.old.count ≡ length tasks.old }
    ensures count { agenda.new.count ≡ length tasks.new }
    ensures polled { IsCourse T.ended T.waits_for T.one_poll C.tells C.waits 1
        (standing tasks.old (G.stream rng.old) clock.old) (standing tasks.new (G.stream rng.new) clock.new) }
    ensures none { IfOk result (λ some. some ≡ false → IsCourse T.ended T.waits_for T.one_poll C.tells C.waits 0
        (standing tasks.old (G.stream rng.old) clock.old) (standing tasks.new (G.stream rng.new) clock.new)) }
{
    let Some(number) = next_due(agenda, tasks, clock)? else {
        return wait_for_least(agenda, clock);
    };
    let now = agenda.moment();
    let words = four_words(rng);
    if let Poll::Pending = tasks[number].poll_at(alloc, &Tick { now, words }, cx) {
        agenda.put(number, tasks[number].due())?;
    }
    Ok(true)
}

// Waits for the least moment that a task waits for. `false` where none waits.
fn wait_for_least<C: Clock>(agenda: &mut Agenda, clock: &mut C) -> Result<bool, NoMemory>
    ensures count { agenda.new.count ≡ agenda.old.count }
    ensures asked { IsAsked C.tells C.waits clock.old clock.new }
{
    let Some(due) = agenda.least() else {
        return Ok(false);
    };
    agenda.reach(clock.wait_until(due))?;
    Ok(true)
}

// The next task to poll, at a fresh answer of the clock. One that waits for a moment after that answer, as after a
// clock that went back, is put back.
fn next_due<T: Task, C: Clock>(
    agenda: &mut Agenda,
    tasks: &[T],
    clock: &mut C,
) -> Result<Option<usize>, NoMemory>
    requires { agenda.old.count ≡ length tasks.now }
    ensures count { agenda.new.count ≡ agenda.old.count }
    ensures asked { IsAsked C.tells C.waits clock.old clock.new }
    ensures told { IfOk result (λ found. OnSome found (C.tells clock.old agenda.new.moment clock.new)) }
    ensures was_open { IfOk result (λ found. IfSome found (λ number. (number < length tasks.now)
        × HoldsAt (IsOpen T.ended T.waits_for agenda.new.moment) tasks.now number)) }
{
    if !agenda.has_ready() {
        return Ok(None);
    }
    agenda.reach(clock.now())?;
    while let Some(number) = agenda.next() {
        let Some(task) = tasks.get(number) else {
            continue;
        };
        if task.over().is_some() {
            continue;
        }
        match task.due() {
            Some(due) if agenda.moment().get() < due.get() => agenda.wait(number, due)?,
            _ => return Ok(Some(number)),
        }
    }
    Ok(None)
}
