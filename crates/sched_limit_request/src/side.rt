//! A pass of the limit of a throttle's even windows, or of its odd ones.
ghost use Rattle.std.specs.Prelude.{◌≡◌, IfOk, IfErr, OnOk};
ghost use Rattle.sched_limit_word.specs.Calls.{LostRaces};
ghost use Rattle.sched_limit_word.specs.View.{first_view};
ghost use Rattle.sched_limit_request.specs.Limits.{Unsplit, left_held, look_of, part_held};
ghost use Rattle.sched_limit_request.specs.Sides.{IsSameSide};
ghost use Rattle.sched_limit_request.specs.Windows.{Closes, TriesOn, Turns};

use crate::fault::SplitFault;
use sched_limit::{Throttle, Told, Turn, count_of, lost_answer, tries_of};
use sched_limit_word::{Call, Limit, Machine, Pass, RacesLost};
use sched_time::{Moment, NoMemory};
use std::alloc::Global;
use std::marker::Model;
use std::sync::Arc;

/// A pass of every other window of a throttle, with their limit. Contracts see it as both.
#[derive(Drop)]
pub struct Side {
    pass: Pass,
    limit: Arc<Limit<Throttle>>,
    /// The word that it closed a window with, where it has made no other call since.
    closed: Option<u64>,
}

impl Model for Side {
    ghost use Rattle.std.specs.Prelude.{◌≡◌, IfSome};
    ghost use Rattle.sched_limit_word.specs.Held.{IsOf};
    ghost use Rattle.sched_limit_request.specs.Sides.{OfSide};

    ghost Value = { OfSide };

    ghost view = { λ s. record { pass = s.pass; limit = s.limit.value } };

    ghost invariant = { λ s. IsOf s.limit.value s.pass × IfSome s.closed (λ word. s.pass.has.seen ≡ word) };
}

impl Side {
    /// The first pass of the windows of a new throttle.
    pub fn new(alloc: Global, throttle: Throttle) -> Result<Side, NoMemory>
        ensures machine { IfOk result (λ s. s.limit.machine ≡ throttle) }
        ensures first { IfOk result (λ s. s.pass.has ≡ first_view 0) }
    {
        let (limit, pass) = Limit::new(alloc, throttle)?;
        let limit = Arc::new(alloc, limit)?;
        Ok(Side {
            pass,
            limit,
            closed: None,
        })
    }

    /// The throttle.
    pub fn throttle(&self) -> &Throttle
        ensures { result.now ≡ self.now.limit.machine }
    {
        self.limit.machine()
    }

    /// One turn of what a request tells at this moment: the other side closes the window before, and this one counts.
    #[inline(always)]
    pub fn turn(&mut self, other: &mut Side, told: &Told, random: u32, at: Moment) -> Turn
        requires { other.old.limit.machine ≡ self.old.limit.machine }
        ensures this { IsSameSide self.old self.new }
        ensures that { IsSameSide other.old other.new }
        ensures turns { Turns self.old.limit.machine told.now random at result self.old.pass.has other.old.pass.has
            self.new.pass.has other.new.pass.has }
    {
        match other.closed(at, tries_of(told)) {
            Ok(before) => self.count(told, random, at, before),
            Err(RacesLost) => Turn::Done(lost_answer(told)),
        }
    }

    /// Closes the window before that of this moment, and answers the word that it was closed with. It is closed once.
    #[inline(always)]
    fn closed(&mut self, at: Moment, tries: u64) -> Result<u64, RacesLost>
        ensures same { IsSameSide self.old self.new }
        ensures ok { IfOk result (λ before.
            Closes self.old.limit.machine at before self.old.pass.has self.new.pass.has) }
        ensures err { IfErr result (λ _. LostRaces tries self.old.pass.has self.new.pass.has) }
    {
        if let Some(word) = self.closed {
            if self.limit.machine().has_closed(at, word) {
                return Ok(word);
            }
        }
        self.closed = None;
        let found = self.pass.call(&*self.limit, Call::Closed(at), tries)?;
        let word = self.limit.machine().next(Call::Closed(at), found);
        self.closed = Some(word);
        Ok(word)
    }

    /// Counts what a request tells in the window of this moment, by the word that the one before was closed with.
    #[inline(always)]
    fn count(&mut self, told: &Told, random: u32, at: Moment, before: u64) -> Turn
        ensures same { IsSameSide self.old self.new }
        ensures tries { TriesOn self.old.limit.machine told.now random at before result self.old.pass.has
            self.new.pass.has }
    {
        self.closed = None;
        let call = count_of(told, random, at, before);
        match self.pass.call(&*self.limit, call, tries_of(told)) {
            Ok(word) => self.limit.machine().turn_of(told, random, at, before, word),
            Err(RacesLost) => Turn::Done(lost_answer(told)),
        }
    }

    /// Reads the word of its windows, and makes no call.
    pub fn look(&mut self) -> u64
        ensures { self.new ≡ record self.old { pass = look_of self.old.pass result } }
    {
        self.closed = None;
        self.pass.look(&*self.limit)
    }

    /// A pass of the same windows for another thread.
    pub fn split(&mut self) -> Result<Side, SplitFault>
        ensures part { IfOk result (λ part. part ≡ record self.old { pass = part_held self.old.pass }) }
        ensures left { OnOk result (self.new ≡ record self.old { pass = left_held self.old.pass }) }
        ensures unsplit { IfErr result (λ why. (self.new ≡ self.old) × Unsplit self.old.pass why) }
    {
        let Ok(limit) = Arc::try_clone(&self.limit) else {
            return Err(SplitFault::NoMemory);
        };
        self.closed = None;
        match self.pass.split(&*self.limit) {
            Ok(pass) => Ok(Side {
                pass,
                limit,
                closed: None,
            }),
            Err(_) => Err(SplitFault::TooManyPasses),
        }
    }
}
