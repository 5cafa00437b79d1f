//! A pass of a limit, with its limit, and what one request holds of it.
ghost use Rattle.std.specs.Prelude.{◌≡◌, IfOk};
ghost use Rattle.sched_limit_word.specs.View.{first_view};
ghost use Rattle.sched_limit.specs.Step.{nothing};

use crate::asks::Asks;
use crate::fault::SplitFault;
use crate::hold::Hold;
use sched_limit::{Refusal, Refuses, Request, Told};
use sched_limit_word::{Limit, Pass};
use sched_time::NoMemory;
use std::alloc::Global;
use std::marker::Model;
use std::sync::Arc;

/// A pass of a limit, with its limit, and what one request at a time holds of it. Contracts see it as all of these.
/// What its request holds is given back where that ends, also where the value is dropped.
pub struct OnLimit<M: Refuses> {
    pub(crate) pass: Pass,
    pub(crate) limit: Arc<Limit<M>>,
    pub(crate) hold: Hold,
}

impl<M: Refuses> Model for OnLimit<M> {
    ghost use Rattle.sched_limit_word.specs.Held.{IsOf};
    ghost use Rattle.sched_limit.specs.Holds.{IsHeld};
    ghost use Rattle.sched_limit_request.specs.Limits.{OfLimit};

    ghost Value = { OfLimit M };

    ghost view = { λ d. record { pass = d.pass; limit = d.limit.value; request = d.hold.request } };

    ghost invariant = { λ d. let m = d.limit.value.machine in
        IsOf d.limit.value d.pass × IsHeld (M.tokens m) (M.holds m) d.hold.request d.pass.has.moves };
}

impl<M: Refuses> OnLimit<M> {
    /// What asks a new limit of this machine, with its first pass.
    pub fn new(alloc: Global, machine: M) -> Result<OnLimit<M>, NoMemory>
        ensures machine { IfOk result (λ d. d.limit.machine ≡ machine) }
        ensures first { IfOk result (λ d. d.pass.has ≡ first_view (M.first machine)) }
        ensures request { IfOk result (λ d. d.request ≡ nothing) }
    {
        let (limit, pass) = Limit::new(alloc, machine)?;
        let limit = Arc::new(alloc, limit)?;
        Ok(OnLimit {
            pass,
            limit,
            hold: Hold::nothing(),
        })
    }

    /// What its request holds.
    pub fn request(&self) -> Request
        ensures { result ≡ self.now.request }
    {
        self.hold.request()
    }
}

impl<M: Refuses> Asks for OnLimit<M> {
    ghost use Rattle.sched_limit.specs.Step.{rules};
    ghost use Rattle.sched_limit_request.specs.Limits.{limit_asked};

    ghost asked = { limit_asked (rules M.next M.refusal M.generation M.worth) };

    #[inline(always)]
    fn tell(&mut self, told: &Told, random: u32) -> Result<(), Refusal> {
        self.hold.tell(&mut self.pass, &*self.limit, told, random)
    }

    fn split(&mut self) -> Result<OnLimit<M>, SplitFault> {
        let Ok(limit) = Arc::try_clone(&self.limit) else {
            return Err(SplitFault::NoMemory);
        };
        match self.pass.split(&*self.limit) {
            Ok(pass) => Ok(OnLimit {
                pass,
                limit,
                hold: Hold::nothing(),
            }),
            Err(_) => Err(SplitFault::TooManyPasses),
        }
    }
}

impl<M: Refuses> Drop for OnLimit<M> {
    fn drop(self) {
        let OnLimit {
            mut pass,
            limit,
            hold,
        } = self;
        hold.end(&mut pass, &*limit);
    }
}
