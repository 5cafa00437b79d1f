//! The machine of a retry or of a repeat.
ghost use Rattle.std.specs.Prelude.{◌≡◌, ◌+◌, [], ◌∷◌, true, false, None};
ghost use Rattle.sched_run_machine.specs.Retrying.{Retrying, Tells, GivesUp};
ghost use Rattle.sched_run_machine.specs.Machine.{begins, unbegun, is_told, would_be_late, TimesOut, BreaksOff};
ghost use Rattle.sched_run_machine.specs.Machine.{Cancels, IsMachineOf, Looks, IsMachine, PollsEach, PollsInTime};
ghost use Rattle.sched_run_machine.specs.Machine.{WaitsInTime, TellsEnd, StopsOrEnds, Ends};
ghost use Rattle.sched_run_machine.specs.Again.{BeginsAgain};
ghost use Rattle.sched_run_machine.specs.Aims.{EndsAs};
ghost use Rattle.sched_task_law.specs.Kind.{a_retry, a_repeat, repeats};
ghost use Rattle.sched_ticket_draws.specs.Freely.{free_grants};
ghost use Rattle.sched_task_law.specs.Past.{waits_for};
ghost use Rattle.sched_run_machine.specs.Next.{next_of, Finds};

use crate::aims::{Aims, Repeats, Retries};
use crate::drives::{Drives, is_past};
use crate::next::{Next, is_later};
use crate::until::Until;
use sched_driver_stepper::Stepper;
use sched_effect::Ran;
use sched_task::{How, RunFault};
use sched_ticket_draws::{Draws, Unlimited};
use sched_time::{Moment, Tick};
use std::alloc::Global;
use std::marker::{Model, PhantomData};

/// What makes a call that is run again and again, as its driver's schedule says: a retry until it succeeds, with a
/// ticket for each run after a failure, or a repeat until it fails, without tickets. It says when to run the call and
/// when to wait, and is told how each run went.
///
/// Contracts speak of each retry, or each repeat, that it may stand for: each that the calls made on it so far can have
/// led to.
#[derive(Drop)]
pub struct Machine<R: Drives, D: Draws, A: Aims = Retries> {
    driver: R,
    under_way: bool,
    over: Option<How>,
    drawing: D,
    had: u64,
    told: u64,
    aim: PhantomData<A>,
}

/// The machine of a repeat.
pub type RepeatMachine<R> = Machine<R, Unlimited, Repeats>;

impl<R: Drives, D: Draws, A: Aims> Model for Machine<R, D, A> {
    ghost use Rattle.sched_run_machine.specs.Machine.{Machine as Made, coded_machine, IsMachine};

    ghost Value = { Made R D };

    ghost coded = { coded_machine R.code D.code };

    ghost view = { λ m. record {
      driver = m.driver;
      under_way = m.under_way;
      over = m.over;
      drawing = m.drawing;
      had = m.had;
      told = m.told;
    } };

    ghost invariant = { λ m. IsMachine R.driving (A.kind R.driving.keeps) D.grants record {
      driver = m.driver;
      under_way = m.under_way;
      over = m.over;
      drawing = m.drawing;
      had = m.had;
      told = m.told;
    } };
}

impl<R: Drives, D: Draws> Machine<R, D, Retries> {
    /// The machine of a retry that has not begun, and that draws its tickets by this value. It takes no memory. Where
    /// what it draws by may refuse a first run, ask it (`Draws::admit`) before.
    pub fn new(driver: R, drawing: D) -> Machine<R, D>
        requires fresh { R.driving.fresh driver }
        ensures begins { result ≡ begins D.grants driver drawing }
        ensures stands { IsMachineOf R.driving (a_retry R.driving.keeps) D.grants result
            (unbegun D.grants (R.driving.plan driver) (R.driving.ends driver) drawing) }
    {
        Machine::unbegun(driver, drawing)
    }
}

impl<D: Draws> Machine<Until<Stepper>, D> {
    /// Begins again: it is then the machine of a retry that has not begun, of the same plan, with this deadline or
    /// none, that draws by what it drew by. One that is not over is cancelled. It takes no memory.
    #[inline(always)]
    pub fn again(&mut self, deadline: Option<Moment>)
        ensures { BeginsAgain D.grants deadline self.old self.new }
    {
        self.cancel();
        self.driver.reset(deadline);
        self.had = self.drawing.granted();
        self.under_way = false;
        self.over = None;
        self.told = 0;
    }
}

impl<R: Drives> Machine<R, Unlimited, Repeats> {
    /// The machine of a repeat that has not begun. It takes no memory.
    pub fn repeating(driver: R) -> RepeatMachine<R>
        requires fresh { R.driving.fresh driver }
        ensures begins { result ≡ begins free_grants driver 0 }
        ensures stands { IsMachineOf R.driving (a_repeat R.driving.keeps) free_grants result
            (unbegun free_grants (R.driving.plan driver) (R.driving.ends driver) 0) }
    {
        Machine::unbegun(driver, Unlimited::new())
    }
}

impl<R: Drives, D: Draws, A: Aims> Machine<R, D, A> {
    // A machine that has not begun.
    fn unbegun(driver: R, drawing: D) -> Machine<R, D, A>
        requires fresh { R.driving.fresh driver }
        ensures begins { result ≡ begins D.grants driver drawing }
        ensures stands { IsMachineOf R.driving (A.kind R.driving.keeps) D.grants result
            (unbegun D.grants (R.driving.plan driver) (R.driving.ends driver) drawing) }
    {
        let had = drawing.granted();
        Machine {
            driver,
            under_way: false,
            over: None,
            drawing,
            had,
            told: 0,
            aim: PhantomData,
        }
    }

    /// Begins a run at the tick, where none is under way, it is not over and waits for no later moment. Where its
    /// driver has a deadline and the tick is past that, it ends as `DeadlinePassed` and begins none, unless no run was
    /// made yet.
    #[inline(always)]
    pub fn poll(&mut self, tick: &Tick)
        ensures polls { PollsEach R.driving (A.kind R.driving.keeps) D.grants self.old tick.entry.now [] self.new }
        ensures in_time { PollsInTime D.grants (R.driving.ends self.old.driver) self.old tick.entry.now.now self.new }
        ensures deadline { R.driving.ends self.new.driver ≡ R.driving.ends self.old.driver }
    {
        if self.stays(tick) {
            return;
        }
        if self.is_too_late(tick.now) {
            self.time_out(tick);
            return;
        }
        self.begin(tick);
    }

    /// Ends it as `DeadlinePassed`, where it would begin another run past its deadline.
    pub fn time_out(&mut self, _tick: &Tick)
        requires looks { Looks R.driving (A.kind R.driving.keeps) D.grants self.old _tick.now false }
        requires late { would_be_late (R.driving.ends self.old.driver) self.old _tick.now.now ≡ true }
        ensures polls { PollsEach R.driving (A.kind R.driving.keeps) D.grants self.old _tick.entry.now [] self.new }
        ensures ends { TimesOut D.grants self.old self.new }
    {
        self.drawing.ended(true);
        self.over = Some(How::DeadlinePassed);
    }

    /// Begins a run at the tick, where none is under way.
    pub fn begin(&mut self, _tick: &Tick)
        requires looks { Looks R.driving (A.kind R.driving.keeps) D.grants self.old _tick.now false }
        requires in_time { would_be_late (R.driving.ends self.old.driver) self.old _tick.now.now ≡ false }
        ensures polls { PollsEach R.driving (A.kind R.driving.keeps) D.grants self.old _tick.entry.now [] self.new }
        ensures begins { self.new ≡ record self.old { under_way = true } }
    {
        self.under_way = true;
    }

    /// Ends the run under way as it went, and answers whether there was one: of a machine that is over, or has no run
    /// under way, nothing changes.
    ///
    /// A success ends a retry, and a failure a repeat. Another run steps the schedule; where that goes on, a retry
    /// draws a ticket, and with one it waits for the start planned, as a repeat does. A refused step ends either as
    /// `Broken`. What it draws by is told first how the run went, and last, where it is over, that its request is.
    #[inline]
    pub fn report(&mut self, alloc: Global, tick: &Tick, ran: Ran) -> bool
        ensures heard { result ≡ is_told self.old }
        ensures told { result ≡ true →
            PollsEach R.driving (A.kind R.driving.keeps) D.grants self.old tick.entry.now (ran ∷ []) self.new }
        ensures ends { result ≡ true → EndsAs (repeats (A.kind R.driving.keeps)) ran self.new.over }
        ensures deadline { R.driving.ends self.new.driver ≡ R.driving.ends self.old.driver }
        ensures unchanged { result ≡ false → self.new ≡ self.old }
    {
        if self.over.is_some() {
            return false;
        }
        if !self.under_way {
            return false;
        }
        self.finish(alloc, tick, ran);
        true
    }

    /// Ends the run under way as it went, or one that began at the tick, as `report` does.
    pub fn finish(&mut self, alloc: Global, tick: &Tick, ran: Ran)
        requires looks { Looks R.driving (A.kind R.driving.keeps) D.grants self.old tick.now false }
        requires in_time { would_be_late (R.driving.ends self.old.driver) self.old tick.now.now ≡ false }
        ensures polls { PollsEach R.driving (A.kind R.driving.keeps) D.grants
            self.old tick.entry.now (ran ∷ []) self.new }
        ensures ends { EndsAs (repeats (A.kind R.driving.keeps)) ran self.new.over }
        ensures idle { self.new.under_way ≡ false }
        ensures deadline { R.driving.ends self.new.driver ≡ R.driving.ends self.old.driver }
    {
        let driver = &mut self.driver;
        let drawing = &mut self.drawing;
        self.over = end_run::<R, D, A>(alloc, driver, drawing, tick, ran);
        self.under_way = false;
        self.told = self.told.saturating_add(1);
    }

    /// Ends it as `Broken(NoMemory)`: memory is refused to the run under way or to one that begins at the tick, or,
    /// where no run has begun, to its beginning.
    pub fn break_off(&mut self, _tick: &Tick, begun: bool)
        requires looks { Looks R.driving (A.kind R.driving.keeps) D.grants self.old _tick.now false }
        requires in_time { would_be_late (R.driving.ends self.old.driver) self.old _tick.now.now ≡ false }
        requires begun { self.old.under_way ≡ true → begun ≡ true }
        ensures polls { PollsEach R.driving (A.kind R.driving.keeps) D.grants self.old _tick.entry.now [] self.new }
        ensures breaks_off { BreaksOff D.grants begun self.old self.new }
    {
        self.drawing.ended(!begun);
        self.under_way = begun;
        self.over = Some(How::Broken(RunFault::NoMemory));
    }

    /// Whether a poll leaves it as it is: it is over, or waits for a later moment.
    #[inline(always)]
    pub fn stays(&self, tick: &Tick) -> bool
        ensures looks { Looks R.driving (A.kind R.driving.keeps) D.grants self.now tick.entry.now result }
        ensures unended { result ≡ false → self.now.over ≡ None }
    {
        if self.over.is_some() {
            return true;
        }
        is_later(self.due(), tick.now)
    }

    /// Whether another run would begin past the deadline at this moment: none is under way, and one was reported.
    pub fn is_too_late(&self, now: Moment) -> bool
        ensures { result ≡ would_be_late (R.driving.ends self.now.driver) self.now now }
    {
        is_past(self.driver.deadline(), now) && 0 < self.told && !self.under_way
    }

    /// The moment that it waits for, or `None` where it waits for none.
    #[inline(always)]
    pub fn due(&self) -> Option<Moment>
        ensures { (v : Retrying D) → IsMachineOf R.driving (A.kind R.driving.keeps) D.grants self.now v →
            result ≡ waits_for v.past }
    {
        self.next().start()
    }

    /// What the host is to do. It waits for no moment past the deadline of its driver, where that has one.
    #[inline(always)]
    pub fn next(&self) -> Next
        ensures finds { Finds self.now.over self.now.under_way result }
        ensures in_time { WaitsInTime (R.driving.ends self.now.driver) result }
        ensures next { (v : Retrying D) → IsMachineOf R.driving (A.kind R.driving.keeps) D.grants self.now v →
            result ≡ next_of v.past }
    {
        if let Some(how) = self.over {
            return Next::Over(how);
        }
        if self.under_way {
            return Next::Run;
        }
        match self.driver.next_start() {
            Some(start) => Next::Wait(start),
            None => Next::Poll,
        }
    }

    /// How it ended, or `None` where it is not over.
    pub fn over(&self) -> Option<How>
        ensures { result ≡ self.now.over }
    {
        self.over
    }

    /// Ends a machine that is not over as `Cancelled`, and tells what it draws by so; one that is over stays as it is.
    pub fn cancel(&mut self)
        ensures cancelled { Cancels D.grants self.old self.new }
        ensures stands { (v : Retrying D) → IsMachineOf R.driving (A.kind R.driving.keeps) D.grants self.old v →
            (u : Retrying D) × GivesUp D.grants v u
            × IsMachineOf R.driving (A.kind R.driving.keeps) D.grants self.new u }
    {
        if self.over.is_some() {
            return;
        }
        self.drawing.ended(!self.under_way);
        self.over = Some(How::Cancelled);
    }

    /// How many tickets it was granted, without those of earlier retries. There is always a task that it stands for.
    pub fn granted(&self) -> u64
        ensures stands { IsMachine R.driving (A.kind R.driving.keeps) D.grants self.now }
        ensures granted { (v : Retrying D) → IsMachineOf R.driving (A.kind R.driving.keeps) D.grants self.now v →
            result ≡ v.past.granted }
        ensures tickets { self.now.had + result ≡ D.grants.granted self.now.drawing }
    {
        self.drawing.granted() - self.had
    }

    /// How many runs were reported; 2^64 - 1 where there were more.
    pub fn told(&self) -> u64
        ensures { result ≡ self.now.told }
    {
        self.told
    }

    /// How many tickets what it draws by had been granted before.
    pub fn had(&self) -> u64
        ensures { result ≡ self.now.had }
    {
        self.had
    }

    /// The driver.
    pub fn driver(&self) -> &R
        ensures { result.now ≡ self.now.driver }
    {
        &self.driver
    }

    /// What it draws by.
    pub fn drawing(&self) -> &D
        ensures { result.now ≡ self.now.drawing }
    {
        &self.drawing
    }

    /// The driver, and what it drew by, with all its tickets.
    pub fn into_parts(self) -> (R, D)
        ensures driver { result.0 ≡ self.driver }
        ensures drawing { result.1 ≡ self.drawing }
        ensures stands { D.grants.stands result.1 }
    {
        let Machine {
            driver,
            under_way: _,
            over: _,
            drawing,
            had: _,
            told: _,
            aim: _,
        } = self;
        (driver, drawing)
    }
}

// Ends a run as it went: tells what draws how it went, asks the schedule, and tells that the task is over, where it is.
// Answers how this ends the machine, or `None` where it goes on.
fn end_run<R: Drives, D: Draws, A: Aims>(
    alloc: Global,
    driver: &mut R,
    drawing: &mut D,
    tick: &Tick,
    ran: Ran,
) -> Option<How>
    requires stands { D.grants.stands drawing.old }
    ensures stands { D.grants.stands drawing.new }
    ensures deadline { R.driving.ends driver.new ≡ R.driving.ends driver.old }
    ensures ends { Ends R.driving (A.kind R.driving.keeps) D.grants
        driver.old drawing.old tick.entry.now ran result driver.new drawing.new }
{
    tell_run(drawing, tick.now, &ran);
    let over = stop_or_go_on::<R, D, A>(alloc, driver, drawing, tick, ran);
    tell_end(drawing, &over);
    over
}

// Tells what draws how a run went.
fn tell_run<D: Draws>(drawing: &mut D, now: Moment, ran: &Ran)
    ensures { Tells D.grants ran.now now drawing.old drawing.new }
{
    match ran {
        Ran::Won(_) => drawing.succeeded(now),
        Ran::Lost(code) => drawing.failed(now, *code),
    }
}

// Tells what draws that its request is over, where it is.
fn tell_end<D: Draws>(drawing: &mut D, over: &Option<How>)
    ensures { TellsEnd D.grants over.now drawing.old drawing.new }
{
    match over {
        None => {}
        Some(_) => drawing.ended(false),
    }
}

// A run that calls for it steps the schedule, and draws a ticket where that goes on and one is needed. Answers how this
// ends the machine, or `None` where it goes on.
fn stop_or_go_on<R: Drives, D: Draws, A: Aims>(
    alloc: Global,
    driver: &mut R,
    drawing: &mut D,
    tick: &Tick,
    ran: Ran,
) -> Option<How>
    requires stands { D.grants.stands drawing.old }
    ensures stands { D.grants.stands drawing.new }
    ensures deadline { R.driving.ends driver.new ≡ R.driving.ends driver.old }
    ensures ends { StopsOrEnds R.driving (A.kind R.driving.keeps) D.grants
        driver.old drawing.old tick.entry.now ran result driver.new drawing.new }
{
    let code = match A::called(ran) {
        Ok(code) => code,
        Err(how) => return Some(how),
    };
    match driver.step(alloc, tick, code) {
        Err(cause) => Some(How::Broken(cause)),
        Ok(None) => Some(How::ScheduleDone),
        Ok(Some(_)) => {
            if !A::draws() || drawing.draw(tick.now) {
                None
            } else {
                Some(How::BudgetRefused)
            }
        }
    }
}
