//! What is left of a retry.
ghost use Rattle.std.specs.Prelude.{◌≡◌, ◌+◌, length, is_some, IfSome};
ghost use Rattle.sched_task_law.specs.Kind.{retry};
ghost use Rattle.sched_task_law.specs.Past.{bit};
ghost use Rattle.sched_task_law.specs.Law.{Law, is_stop};
ghost use Rattle.sched_retry.specs.Ending.{EndingFits};

use crate::endings::Ending;
use sched_driver::Driver;
use sched_effect::{Coded, Effect};
use sched_task::How;
use sched_time::Moment;
use std::marker::Model;

/// A retry that is taken back: what it has done, how it ended, and its ending where it was over.
/// Contracts see it as what it has done. The law of a retry holds of that.
#[derive(Drop)]
pub struct RetryEnd<X: Effect> {
    pub(crate) effect: X,
    pub(crate) driver: Driver,
    pub(crate) begun: Vec<Moment>,
    pub(crate) over: Option<How>,
    pub(crate) ending: Option<Ending<X::Item, X::Fault>>,
    pub(crate) granted: u64,
}

impl<X: Effect> Model for RetryEnd<X> {
    ghost use Rattle.std.specs.Prelude.{◌≡◌, is_some, IfSome};
    ghost use Rattle.sched_task_law.specs.Kind.{retry};
    ghost use Rattle.sched_task_law.specs.Past.{Past};
    ghost use Rattle.sched_task_law.specs.Law.{Law};
    ghost use Rattle.sched_driver.specs.Driven.{coded_driven};
    ghost use Rattle.sched_task_law.specs.Codes.{coded_past};
    ghost use Rattle.sched_retry.specs.Ending.{EndingFits, left};

    ghost Value = { Past };

    ghost coded = { coded_past coded_driven };

    ghost view = { λ e. left e.driver (X.finished e.effect) e.begun.items e.over e.granted };

    ghost invariant = { λ e. Law retry (left e.driver (X.finished e.effect) e.begun.items e.over e.granted)
        × (is_some e.ending ≡ is_some e.over)
        × IfSome e.ending (EndingFits X.Item.coded X.Fault.coded e.over (X.finished e.effect)) };
}

impl<X: Effect> RetryEnd<X> {
    /// The effect, with its finished runs.
    pub fn effect(&self) -> &X
        ensures { X.finished result.now ≡ self.now.runs }
    {
        &self.effect
    }

    /// The driver, with the journal of the failures.
    pub fn driver(&self) -> &Driver
        ensures { result.now ≡ self.now.driver }
    {
        &self.driver
    }

    /// The moments at which runs were begun.
    pub fn begun(&self) -> &[Moment]
        ensures { result.now ≡ self.now.begun }
    {
        &self.begun
    }

    /// How it ended, or `None` where it was not over. The law of a retry holds.
    pub fn how(&self) -> Option<How>
        ensures how { result ≡ self.now.over }
        ensures law { Law retry self.now }
    {
        self.over
    }

    /// The ending, where it was over.
    pub fn ending(&self) -> Option<&Ending<X::Item, X::Fault>>
        ensures some { is_some result ≡ is_some self.now.over }
        ensures fits { IfSome result (λ e. EndingFits X.Item.coded X.Fault.coded self.now.over self.now.runs e.now) }
    {
        self.ending.as_ref()
    }

    /// How many tickets it was granted. They are as many as the journal's events, less one where the schedule was done
    /// or the budget refused a ticket.
    pub fn granted(&self) -> u64
        ensures granted { result ≡ self.now.granted }
        ensures events { result + bit (is_stop self.now.over) ≡ length self.now.driver.journal }
    {
        self.granted
    }

    /// The effect, the driver, the moments at which runs were begun, and the ending where it was over.
    pub fn into_parts(self) -> (X, Driver, Vec<Moment>, Option<Ending<X::Item, X::Fault>>)
        ensures runs { X.finished result.0 ≡ self.runs }
        ensures driver { result.1 ≡ self.driver }
        ensures begun { result.2.items ≡ self.begun }
        ensures some { is_some result.3 ≡ is_some self.over }
        ensures fits { IfSome result.3 (EndingFits X.Item.coded X.Fault.coded self.over self.runs) }
    {
        let RetryEnd {
            effect,
            driver,
            begun,
            over: _,
            ending,
            granted: _,
        } = self;
        (effect, driver, begun, ending)
    }
}
