//! Turns: a closure is called wherever a run is under way, by a clock.
ghost use Rattle.std.specs.Prelude.{◌≡◌, List, [], ◌∷◌, Bool, Option, Some, None, true, false, is_some, IfSome};
ghost use Rattle.std.specs.List.{FoldsTo};
ghost use Rattle.sched_time.specs.declared.numbers.Tick.{Tick as Ticked};
ghost use Rattle.sched_effect.specs.Runs.{ran_by};
ghost use Rattle.sched_effect.specs.declared.ran.Ran.{Ran as Finished};
ghost use Rattle.sched_task.specs.Course.{Answered};
ghost use Rattle.sched_task.specs.Words.{next_four};
ghost use Rattle.sched_task.specs.declared.endings.How.{How as Ended};
ghost use Rattle.sched_run_machine.specs.Next.{Finds, start_in};
ghost use Rattle.sched_closure.specs.Turns.{Turning, Turn, calling};

use rand_core::Rng;
use sched_effect::{Coded, Ran, ran_of};
use sched_run_machine::Next;
use sched_task::{Clock, How, four_words};
use sched_time::Tick;
use std::alloc::{AllocGlobal, Global};
use std::sync::Wait;

/// What says when a closure is called, and is told how each call went: the machine of a retry or of a repeat.
pub(crate) trait Turns {
    // How it ended, where it is over.
    ghost ended: { Self → Option Ended };

    // Its turns.
    ghost turning: { Turning Self };

    // Whether a run of it has finished.
    ghost has_run: { Self → Bool };

    // Holds of a run and how all may end after it, or that it goes on.
    ghost may_end: { Finished → Option Ended → Type 0 };

    /// What is to be done.
    fn next(&self) -> Next
        ensures finds { Finds (ended self.now) (turning.running self.now) result }
        ensures due { turning.due self.now (start_in result) };

    /// Begins a run at the tick, where one is to be begun, or ends all where another one would begin too late. Answers
    /// how this ended all, or `None` where it goes on.
    fn poll(&mut self, tick: &Tick) -> Option<How>
        requires unended { ended self.old ≡ None }
        ensures polls { turning.polls self.old tick.entry.now [] self.new }
        ensures over { ended self.new ≡ result }
        ensures ran { is_some result ≡ true → has_run self.old ≡ true }
        ensures ends { (ran : Finished) → may_end ran None → may_end ran result }
        ensures has_run { has_run self.new ≡ has_run self.old };

    /// Ends the run under way as it went, and answers how this ended all, or `None` where it goes on.
    fn tell(&mut self, alloc: Global, tick: &Tick, ran: Ran) -> Option<How>
        requires unended { ended self.old ≡ None }
        requires running { turning.running self.old ≡ true }
        ensures polls { turning.polls self.old tick.entry.now (ran ∷ []) self.new }
        ensures over { ended self.new ≡ result }
        ensures ends { may_end ran result };
}

/// Calls this closure wherever a run is under way, until all is over, and answers what the last call gave. `before` is
/// what an earlier call gave, if there was one.
pub(crate) fn call_on<I, F, R, M, K, G, C>(
    rt: &R,
    machine: &mut M,
    clock: &mut K,
    words: &mut G,
    mut call: C,
    before: Option<Result<I, F>>,
) -> Result<I, F>
where
    I: Coded + Drop,
    F: Coded + Drop,
    R: Wait + AllocGlobal,
    M: Turns,
    K: Clock,
    G: Rng,
    C: FnMut() -> Result<I, F>,
    requires unended { M.ended machine.old ≡ None }
    requires callable { C.IsAlwaysCallable call }
    requires first { before ≡ None → M.has_run machine.old ≡ false }
    requires goes_on { IfSome before (λ outcome. M.may_end (ran_by I.coded F.coded outcome) None) }
    ensures turns { (ticks : List Ticked) × (called : C)
        × FoldsTo (Turn M.turning K.tells K.waits C.step I.coded F.coded)
        (calling machine.old clock.old (G.stream words.old) call before)
        ticks
        (calling machine.new clock.new (G.stream words.new) called (Some result)) }
    ensures over { is_some (M.ended machine.new) ≡ true }
    ensures ends { M.may_end (ran_by I.coded F.coded result) (M.ended machine.new) }
{
    let alloc = rt.alloc();
    let mut last = before;
    for _ in rt.forever() {
        let next = machine.next();
        match next {
            Next::Run => {
                let outcome = call();
                let tick = next_tick(&next, clock, words);
                if machine.tell(alloc, &tick, ran_of(&outcome)).is_some() {
                    return outcome;
                }
                last = Some(outcome);
            }
            Next::Poll | Next::Wait(_) => {
                let tick = next_tick(&next, clock, words);
                if machine.poll(&tick).is_some() {
                    return last.unwrap();
                }
            }
            Next::Over(_) => unreachable!(),
        }
    }
    unreachable!()
}

// The tick of the next turn: the moment that the clock answers, where one is to be waited for after it waited, and the
// generator's next four words.
fn next_tick<K: Clock, G: Rng>(next: &Next, clock: &mut K, words: &mut G) -> Tick
    ensures moment { Answered K.tells K.waits (start_in next.now) clock.old result.now clock.new }
    ensures lanes { (result.words, G.stream words.new) ≡ next_four (G.stream words.old) }
{
    let now = match next {
        Next::Wait(start) => clock.wait_until(*start),
        Next::Poll | Next::Run | Next::Over(_) => clock.now(),
    };
    Tick {
        now,
        words: four_words(words),
    }
}
