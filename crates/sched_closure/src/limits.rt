//! A closure that is called until it succeeds, where a limit admits it.
ghost use Rattle.std.specs.Prelude.{◌≡◌, Some, IfSome};
ghost use Rattle.sched_closure.specs.Limits.{AsksFirst, WhereAdmitted};
ghost use Rattle.sched_closure.specs.Endings.{how_of};

use crate::endings::{CallEnding, retry_ending};
use crate::turns::call_on;
use rand_core::Rng;
use sched_effect::Coded;
use sched_run_machine::{Drives, Machine};
use sched_task::Clock;
use sched_ticket_draws::Draws;
use std::alloc::AllocGlobal;
use std::sync::Wait;

/// Calls this closure as `retry_call` does, where the limit admits its first call. Where it does not, no call is made,
/// and there is no ending: all that is known of the closure is that it may be called where the limit admits.
///
/// The limit is asked at the moment that the clock tells before the first call. It is told how each call went, before
/// the retry's schedule is asked, and once all is over. The retry's machine, which has the limit, is made before the
/// first call, and is answered in either case.
pub fn limited_call<I, F, R, S, D, K, G, C>(
    rt: &R,
    driver: S,
    limit: D,
    clock: &mut K,
    words: &mut G,
    call: C,
) -> (Option<CallEnding<I, F>>, Machine<S, D>)
where
    I: Coded + Drop,
    F: Coded + Drop,
    R: Wait + AllocGlobal,
    S: Drives,
    D: Draws,
    K: Clock,
    G: Rng,
    C: FnMut() -> Result<I, F>,
    requires fresh { S.driving.fresh driver }
    requires callable { WhereAdmitted D.grants K.tells limit clock.old (C.IsAlwaysCallable call) }
    ensures asks { AsksFirst S.driving D.grants K.tells K.waits C.step I.coded F.coded driver limit call
        clock.old (G.stream words.old) result.0 result.1 clock.new (G.stream words.new) }
    ensures over { IfSome result.0 (λ ending. result.1.over ≡ Some (how_of ending)) }
{
    let mut limit = limit;
    let is_admitted = limit.admit(clock.now());
    let mut retry = Machine::new(driver, limit);
    if !is_admitted {
        return (None, retry);
    }
    let outcome = call_on(rt, &mut retry, clock, words, call, None);
    let ending = retry_ending(outcome, retry.over());
    (Some(ending), retry)
}
