//! A pass of a pace, with the pace and its last take.
ghost use Rattle.std.specs.Prelude.{◌≡◌, None, IfOk, IfErr};
ghost use Rattle.sched_limit_word.specs.View.{first_view};
ghost use Rattle.sched_pace.specs.Held.{Takes, Gives, Splits, NoSplit, Sees};

use crate::fault::{SplitFault, TakeFault};
use crate::pace::Pace;
use crate::step;
use crate::step::Last;
use sched_limit_word::{Call, Limit, MAX_TRIES, Pass};
use sched_time::{Moment, NoMemory};
use std::alloc::Global;
use std::marker::Model;
use std::sync::Arc;

/// A pass of a pace, with the pace, and its last take where that was granted and can be given back. Contracts see it as
/// all of these. Each thread has one of its own.
#[derive(Drop)]
pub struct OnPace {
    pass: Pass,
    limit: Arc<Limit<Pace>>,
    last: Option<Last>,
}

impl Model for OnPace {
    ghost use Rattle.sched_limit_word.specs.Held.{IsOf};
    ghost use Rattle.sched_pace.specs.Held.{OfPace, HoldsLast};

    ghost Value = { OfPace };

    ghost view = { λ d. record { pass = d.pass; limit = d.limit.value; last = d.last } };

    ghost invariant = { λ d.
        IsOf d.limit.value d.pass × HoldsLast d.limit.value.machine d.last d.pass.has.moves };
}

impl OnPace {
    /// A new pace, with its first pass. No call has begun, and the pace begins at moment 0.
    pub fn new(alloc: Global, pace: Pace) -> Result<OnPace, NoMemory>
        ensures machine { IfOk result (λ d. d.limit.machine ≡ pace) }
        ensures first { IfOk result (λ d. d.pass.has ≡ first_view 0) }
        ensures last { IfOk result (λ d. d.last ≡ None) }
    {
        let (limit, pass) = Limit::new(alloc, pace)?;
        match Arc::new(alloc, limit) {
            Ok(limit) => Ok(OnPace {
                pass,
                limit,
                last: None,
            }),
            Err(_) => Err(NoMemory),
        }
    }

    /// Takes a call of this cost at this moment, and answers when it may begin. The take before it stands from now on.
    #[inline(always)]
    pub fn take(&mut self, now: Moment, cost: u64) -> Result<Moment, TakeFault>
        ensures { Takes self.old now cost result self.new }
    {
        match self
            .pass
            .call(&*self.limit, Call::Draw(now, cost, 0), MAX_TRIES)
        {
            Ok(word) => {
                let mut word = word;
                step::take(self.limit.machine(), now, cost, &mut self.last, &mut word)
            }
            Err(_) => {
                self.last = None;
                Err(TakeFault::RacesLost)
            }
        }
    }

    /// Gives the last take back, once, where it was granted: for a call that is cancelled before it begins. Answers
    /// whether it has come back: it has not where another take was granted since, and then it stays taken.
    #[inline(always)]
    pub fn give_back(&mut self) -> bool
        ensures { Gives self.old result self.new }
    {
        let Some(back) = self.last else {
            return false;
        };
        let call = Call::Returned(back.cost, back.mark);
        match self.pass.call(&*self.limit, call, u64::MAX) {
            Ok(word) => {
                let mut word = word;
                step::give_back(self.limit.machine(), &mut self.last, &mut word)
            }
            Err(_) => {
                self.last = None;
                false
            }
        }
    }

    /// When a call of cost 1 would begin that asks at this moment, however long it would wait. Nothing changes.
    #[inline(always)]
    pub fn seen(&mut self, now: Moment) -> Moment
        ensures { Sees self.old now result self.new }
    {
        let word = self.pass.look(&*self.limit);
        self.limit.machine().next_begins_at(now, word)
    }

    /// A pass of the same pace for another thread, which has no take.
    pub fn split(&mut self) -> Result<OnPace, SplitFault>
        ensures part { IfOk result (λ part. Splits self.old part self.new) }
        ensures err { IfErr result (λ fault. NoSplit self.old fault self.new) }
    {
        let Ok(limit) = Arc::try_clone(&self.limit) else {
            return Err(SplitFault::NoMemory);
        };
        match self.pass.split(&*self.limit) {
            Ok(pass) => Ok(OnPace {
                pass,
                limit,
                last: None,
            }),
            Err(_) => Err(SplitFault::TooManyPasses),
        }
    }
}
