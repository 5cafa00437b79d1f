//! Drivers with a deadline.
ghost use Rattle.std.specs.Prelude.{◌≡◌, ◌-◌, false, ◌||◌, [], is_some, IfSome, option_map};
ghost use Rattle.sched_driver.specs.Driven.{Driven};
ghost use Rattle.sched_driver_stepper.specs.Standing.{standing_after};
ghost use Rattle.sched_task_law.specs.Deadline.{is_past, in_time, late, earlier};
ghost use Rattle.sched_task_law.specs.Past.{schedule_is_done, next_start_by};
ghost use Rattle.sched_run_machine.specs.Drives.{by_until};

use crate::drives::{Drives, GivesOutput};
use sched_driver_stepper::Stepper;
use sched_plan::Val;
use sched_task::RunFault;
use sched_time::{Millis, Moment, Tick};
use std::alloc::Global;
use std::marker::Model;

/// A driver with a deadline: it goes on as its driver does, but is done where the start planned is past the deadline.
/// A start at the deadline is in time.
///
/// The first run, which no step plans, is made even where the deadline is past already. Every later one begins by the
/// deadline: where its machine is polled only past that, as after a wait that took too long, the machine ends. Of two
/// deadlines, one round the other, the earlier one counts.
#[derive(Drop)]
pub struct Until<R: Drives> {
    driver: R,
    deadline: Option<Moment>,
}

impl<R: Drives> Model for Until<R> {
    ghost use Rattle.sched_run_machine.specs.Drives.{Until as Timed, coded_until};

    ghost Value = { Timed R };

    ghost coded = { coded_until R.code };

    ghost view = { λ u. record { driver = u.driver; deadline = u.deadline } };
}

impl<R: Drives> Until<R> {
    /// The driver with this deadline. Where that is `None`, it is what the driver is alone.
    pub fn new(driver: R, deadline: Option<Moment>) -> Until<R>
        ensures driver { result.driver ≡ driver }
        ensures deadline { result.deadline ≡ deadline }
    {
        Until { driver, deadline }
    }

    /// The deadline, if there is one.
    pub fn deadline(&self) -> Option<Moment>
        ensures { result ≡ self.now.deadline }
    {
        self.deadline
    }

    /// How long it is from `now` to the deadline, 0 where that is past; `None` without a deadline.
    pub fn left(&self, now: Moment) -> Option<Millis>
        ensures { result ≡ option_map (λ deadline. deadline - now) self.now.deadline }
    {
        match self.deadline {
            Some(deadline) => Some(left_until(deadline, now)),
            None => None,
        }
    }

    /// The start that the plan has past the deadline, where the deadline ended it; `None` where it goes on, where its
    /// plan is done, and before the first step.
    pub fn late_start(&self) -> Option<Moment>
        ensures late { (d : Driven) → R.driving.stands self.now.driver d →
            result ≡ late self.now.deadline (next_start_by (R.driving.ends self.now.driver) d) }
        ensures done { (d : Driven) → R.driving.stands self.now.driver d →
            schedule_is_done (earlier self.now.deadline (R.driving.ends self.now.driver)) d
            ≡ (schedule_is_done (R.driving.ends self.now.driver) d || is_some result) }
    {
        starts_late(self.deadline, self.driver.next_start())
    }

    /// The driver.
    pub fn driver(&self) -> &R
        ensures { result.now ≡ self.now.driver }
    {
        &self.driver
    }

    /// The driver, without the deadline.
    pub fn into_driver(self) -> R
        ensures { result ≡ self.driver }
    {
        let Until {
            driver,
            deadline: _,
        } = self;
        driver
    }
}

impl Until<Stepper> {
    /// Back to before the first event, with this deadline.
    pub fn reset(&mut self, deadline: Option<Moment>)
        ensures driver { self.new.driver ≡ standing_after self.old.driver.plan [] }
        ensures deadline { self.new.deadline ≡ deadline }
    {
        self.driver.reset();
        self.deadline = deadline;
    }
}

impl<R: Drives> Drives for Until<R> {
    ghost use mathlib.Core.Path.{ap, ◌∙◌};
    ghost use Rattle.sched_task_law.proofs.Journals.{start_by_both};

    ghost driving = { by_until R.driving };

    ghost begins = { λ v fresh. R.begins v.driver fresh };

    ghost plans = { λ v d st. ap (in_time v.deadline) (R.plans v.driver d st)
        ∙ start_by_both v.deadline (R.driving.ends v.driver) d };

    fn deadline(&self) -> Option<Moment> {
        the_earlier(self.deadline, self.driver.deadline())
    }

    fn next_start(&self) -> Option<Moment> {
        starts_in_time(self.deadline, self.driver.next_start())
    }

    fn step(
        &mut self,
        alloc: Global,
        tick: &Tick,
        code: Millis,
    ) -> Result<Option<Moment>, RunFault> {
        self.driver.step(alloc, tick, code)?;
        Ok(starts_in_time(self.deadline, self.driver.next_start()))
    }
}

impl<R: GivesOutput> GivesOutput for Until<R> {
    ghost outputs = { λ v. R.outputs v.driver };

    ghost gives = { λ v. R.gives v.driver };

    fn last(&self) -> Option<&Val> {
        self.driver.last()
    }
}

// The earlier of two deadlines, where there are two.
fn the_earlier(one: Option<Moment>, other: Option<Moment>) -> Option<Moment>
    ensures { result ≡ earlier one other }
{
    match other {
        None => one,
        Some(second) => match one {
            None => other,
            Some(first) => {
                if first.get() <= second.get() {
                    one
                } else {
                    other
                }
            }
        },
    }
}

// The start planned, where it is not past the deadline.
fn starts_in_time(deadline: Option<Moment>, start: Option<Moment>) -> Option<Moment>
    ensures in_time { result ≡ in_time deadline start }
    ensures none_past { IfSome result (λ moment. is_past deadline moment ≡ false) }
{
    match deadline {
        None => start,
        Some(deadline) => {
            let last = deadline.get();
            match start {
                Some(start) => {
                    if start.get() <= last {
                        Some(start)
                    } else {
                        None
                    }
                }
                None => None,
            }
        }
    }
}

// The start planned, where it is past the deadline.
fn starts_late(deadline: Option<Moment>, start: Option<Moment>) -> Option<Moment>
    ensures { result ≡ late deadline start }
{
    match deadline {
        None => None,
        Some(deadline) => {
            let last = deadline.get();
            match start {
                Some(start) => {
                    if last < start.get() {
                        Some(start)
                    } else {
                        None
                    }
                }
                None => None,
            }
        }
    }
}

// How long it is from `now` to the deadline, 0 where that is past.
fn left_until(deadline: Moment, now: Moment) -> Millis
    ensures { result ≡ deadline - now }
{
    if now.get() <= deadline.get() {
        deadline.since(now)
    } else {
        Millis::from(0u32)
    }
}
