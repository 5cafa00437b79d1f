//! What is due of the requests that came, by moment, and at one moment by the number of the request.
ghost use Rattle.std.specs.Prelude.{◌≡◌, ℕ, ◌+◌, ◌*◌, ◌<◌, ◌≤◌, Option, Some, None, IfOk, IfSome, IfNone, OnOk};

use crate::turns::{Turn, bound_of};
use sched_calendar::Calendar;
use sched_time::NoMemory;
use std::alloc::Global;

/// What is due of requests, as keys in the order in which they come.
#[derive(Drop)]
pub(crate) struct Agenda {
    keys: Calendar,
}

impl Agenda {
    ghost use Rattle.sched_storm_trace.specs.Trace.{updated};
    ghost use Rattle.sched_storm.specs.Keys.{key_of, Holds, Pops, ComesFirst};

    /// Nothing.
    pub(crate) fn new(alloc: Global) -> Result<Agenda, NoMemory>
        ensures { IfOk result (λ a. Holds a (λ _. None)) }
    {
        Ok(Agenda {
            keys: Calendar::new(alloc)?,
        })
    }

    /// This is due of a request of which nothing was.
    pub(crate) fn add(&mut self, turn: Turn) -> Result<(), NoMemory>
        requires at { turn.at ≤ 7200000 }
        requires number { turn.request < 1048576 }
        ensures { (keys : ℕ → Option ℕ) → Holds self.old keys → keys turn.request ≡ None →
            OnOk result (Holds self.new (updated keys turn.request (Some (key_of turn)))) }
    {
        self.keys.add(turn.key())
    }

    /// What is least due, where it comes before this, and is then due no more.
    #[inline(always)]
    pub(crate) fn pop_before(&mut self, turn: Option<Turn>) -> Option<Turn>
        requires { IfSome turn (λ turn. (turn.at ≤ 7200000) × (turn.request < 1048576)) }
        ensures some { (keys : ℕ → Option ℕ) → Holds self.old keys →
            IfSome result (λ next. Pops keys turn next self.new) }
        ensures none { (keys : ℕ → Option ℕ) → Holds self.old keys → IfNone result (Holds self.new keys) }
        ensures first { (keys : ℕ → Option ℕ) → Holds self.old keys → IfNone result (ComesFirst keys turn) }
    {
        let key = self.keys.pop_before(bound_of(turn))?;
        Some(Turn::of(key))
    }
}
