//! Draws on nothing.
ghost use Rattle.std.specs.Prelude.{◌≡◌, ◌+◌, min};

use crate::draws::{Draws, Quiet};
use sched_time::{Millis, Moment};
use std::marker::Model;

/// No budget: each draw is granted, and counted. Only after 18446744073709551615 draws it refuses, and for good.
/// Contracts see it as the number of draws.
#[derive(Drop)]
pub struct Unlimited {
    granted: u64,
}

impl Model for Unlimited {
    ghost use Rattle.std.specs.Prelude.{ℕ};

    ghost Value = { ℕ };

    ghost view = { λ d. d.granted };
}

impl Unlimited {
    /// What has granted nothing yet.
    pub fn new() -> Unlimited
        ensures { result ≡ 0 }
    {
        Unlimited { granted: 0 }
    }

    /// Joins the other into this one, which then was granted as many draws as both, or 18446744073709551615 where that
    /// is less.
    #[inline(always)]
    pub fn take_in(&mut self, other: Unlimited)
        ensures { self.new ≡ min (self.old + other) 18446744073709551615 }
    {
        self.granted = self.granted.saturating_add(other.granted);
    }
}

impl Draws for Unlimited {
    ghost use Rattle.sched_ticket_draws.specs.Freely.{free_grants, free_lawful};

    ghost grants = { free_grants };

    ghost lawful = { free_lawful };

    fn admit(&mut self, _now: Moment) -> bool {
        true
    }

    fn draw(&mut self, _now: Moment) -> bool {
        if self.granted < u64::MAX {
            self.granted += 1;
            true
        } else {
            false
        }
    }

    fn succeeded(&mut self, _now: Moment) {}

    fn failed(&mut self, _now: Moment, _code: Millis) {}

    fn ended(&mut self, _unused: bool) {}

    fn granted(&self) -> u64 {
        self.granted
    }
}

impl Quiet for Unlimited {
    ghost use Rattle.sched_ticket_draws.specs.Freely.{free_quiet};

    ghost quiet = { free_quiet };
}
