//! The turns of machines.
ghost use Rattle.std.specs.Prelude.{◌≡◌};

use crate::turns::Turns;
use sched_effect::Ran;
use sched_run_machine::{Aims, Drives, Machine, Next};
use sched_task::How;
use sched_ticket_draws::Draws;
use sched_time::Tick;
use std::alloc::Global;

impl<S: Drives, D: Draws, A: Aims> Turns for Machine<S, D, A> {
    ghost use Rattle.std.specs.Prelude.{nat_lt};
    ghost use Rattle.sched_task_law.specs.Kind.{repeats};
    ghost use Rattle.sched_closure.specs.Calls.{machine_turning};
    ghost use Rattle.sched_closure.specs.Endings.{EndsCalls};

    ghost ended = { λ m. m.over };

    ghost turning = { machine_turning D.grants (A.kind S.driving.keeps) S.driving };

    ghost has_run = { λ m. nat_lt 0 m.told };

    ghost may_end = { EndsCalls (repeats (A.kind S.driving.keeps)) };

    fn next(&self) -> Next {
        Machine::next(self)
    }

    fn poll(&mut self, tick: &Tick) -> Option<How> {
        Machine::poll(self, tick);
        self.over()
    }

    #[inline(always)]
    fn tell(&mut self, alloc: Global, tick: &Tick, ran: Ran) -> Option<How> {
        let _ = self.report(alloc, tick, ran);
        self.over()
    }
}
