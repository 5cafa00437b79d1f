//! What a poll of a run comes to.
ghost use Rattle.std.specs.Prelude.{◌≡◌, false, None};
ghost use Rattle.sched_task_law.specs.Kind.{repeats};
ghost use Rattle.sched_run_machine.specs.Machine.{would_be_late, Looks, PollsEach};
ghost use Rattle.sched_run_machine.specs.Runner.{polls_run, leaves_run, told_by, IsOver};

use crate::aims::Aims;
use crate::drives::Drives;
use crate::machine::Machine;
use crate::runner::Polled;
use sched_effect::{Coded, ran_of};
use sched_ticket_draws::Draws;
use sched_time::Tick;
use std::alloc::Global;

impl<R: Drives, D: Draws, A: Aims> Machine<R, D, A> {
    /// Tells the machine what a poll of its run gave: a run began or is under way, memory was refused to it, or it
    /// ended.
    pub fn report_poll<I: Coded + Drop, F: Coded + Drop>(
        &mut self,
        alloc: Global,
        tick: &Tick,
        polled: &Polled<I, F>,
    )
        requires looks { Looks R.driving (A.kind R.driving.keeps) D.grants self.old tick.now false }
        requires in_time { would_be_late (R.driving.ends self.old.driver) self.old tick.now.now ≡ false }
        requires unended { self.old.over ≡ None }
        requires idle { polls_run polled.now ≡ false → self.old.under_way ≡ false }
        ensures polls { PollsEach R.driving (A.kind R.driving.keeps) D.grants self.old tick.entry.now
            (told_by I.coded F.coded polled.now) self.new }
        ensures deadline { R.driving.ends self.new.driver ≡ R.driving.ends self.old.driver }
        ensures under_way { self.new.under_way ≡ leaves_run polled.now }
        ensures over { IsOver I.coded F.coded (repeats (A.kind R.driving.keeps)) polled.now self.new.over }
    {
        match polled {
            Polled::Pending => self.begin(tick),
            Polled::CannotBegin => self.break_off(tick, false),
            Polled::CannotRun => self.break_off(tick, true),
            Polled::Finished(run) => self.finish(alloc, tick, ran_of(run)),
        }
    }
}
