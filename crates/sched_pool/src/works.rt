//! One worker of a board.
ghost use Rattle.std.specs.Prelude.{◌≡◌, ◌<◌, ◌≤◌, [], length};
ghost use Rattle.sched_pool_claim.specs.Portion.{IsShareOf};
ghost use Rattle.sched_wheel.specs.Polled.{IsLeft};
ghost use Rattle.sched_pool_worker.specs.Working.{WentOn};
ghost use Rattle.sched_pool_worker.specs.declared.works.Finish.{Finish};

use crate::boards::Board;
use rand_core::Rng;
use sched_effect::Effect;
use sched_pool_claim::Share;
use sched_pool_worker::{Gate, Station, Work, Worked, work_through};
use sched_task::Clock;
use sched_ticket::Naming;
use std::alloc::AllocGlobal;
use std::random::RandomSource;
use std::sync::Wait;

impl<'a, X: Effect, N: Naming> Board<'a, X, N> {
    /// Works through a share of this board, as `work_through` does: claims jobs, drives them until all are over, and
    /// claims again, in at most `turns` turns.
    pub fn work<R, C: Clock, G: Rng, Q: Gate>(
        &self,
        rt: &R,
        share: &mut Share,
        station: &mut Station<C, G>,
        gate: &Q,
        turns: u64,
    ) -> Worked
    where
        R: Wait + RandomSource + AllocGlobal,
        requires { IsShareOf self.now.claims share.old }
        ensures of { IsShareOf self.now.claims share.new }
        ensures went_on { WentOn share.old share.new }
        ensures turns { result.turns ≤ turns }
        ensures polls { IsLeft turns (G.stream station.old.rng) (G.stream station.new.rng) }
        ensures used { result.finish ≡ Finish.AllOver →
            IsLeft result.turns (G.stream station.old.rng) (G.stream station.new.rng) }
        ensures all_over { result.finish ≡ Finish.AllOver →
            (share.new.active ≡ []) × (0 < length share.new.pass.has.refusals) }
        ensures spent { result.finish ≡ Finish.TurnsSpent →
            (result.turns ≡ turns) × (0 < length share.new.active) }
        ensures hold { station.new.hold ≡ station.old.hold }
    {
        let work = Work {
            jobs: self.jobs.as_slice(),
            claims: self,
        };
        work_through(rt, &work, share, station, gate, turns)
    }
}
