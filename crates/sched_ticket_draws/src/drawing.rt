//! What a retry draws by that is chosen while the program runs: one type for a budget, a quota and nothing.
ghost use Rattle.std.specs.Prelude.{◌≡◌, true, IfOk, IfErr};
ghost use Rattle.sched_ticket_draws.specs.Passes.{are_like, OfOne, Joined, IsTotal, NoTotal};

use crate::draws::{Draws, Quiet};
use crate::on_budget::OnBudget;
use crate::on_quota::OnQuota;
use crate::unlimited::Unlimited;
use sched_ticket::Budget;
use sched_ticket_quota::Quota;
use sched_time::{Millis, Moment};
use std::sync::Arc;

/// What a retry draws its tickets by.
#[derive(Drop)]
pub enum Drawing {
    /// A pass of a budget.
    Budget(OnBudget<Arc<Budget>>),
    /// A pass of a quota.
    Quota(OnQuota<Arc<Quota>>),
    /// Nothing: each retry is granted.
    Unlimited(Unlimited),
}

impl Drawing {
    /// Whether both are passes of budgets, or of quotas, or draw on nothing.
    pub fn is_like(&self, other: &Drawing) -> bool
        ensures { result ≡ are_like self.now other.now }
    {
        match self {
            Drawing::Budget(_) => matches!(other, Drawing::Budget(_)),
            Drawing::Quota(_) => matches!(other, Drawing::Quota(_)),
            Drawing::Unlimited(_) => matches!(other, Drawing::Unlimited(_)),
        }
    }

    /// Joins what the other has into this one.
    #[inline(always)]
    pub fn take_in(&mut self, other: Drawing)
        requires like { are_like self.old other ≡ true }
        requires one { OfOne self.old other }
        ensures { Joined self.old other self.new }
    {
        match self {
            Drawing::Budget(pass) => match other {
                Drawing::Budget(other) => pass.take_in(other),
                Drawing::Quota(_) => unreachable!(),
                Drawing::Unlimited(_) => unreachable!(),
            },
            Drawing::Quota(pass) => match other {
                Drawing::Quota(other) => pass.take_in(other),
                Drawing::Budget(_) => unreachable!(),
                Drawing::Unlimited(_) => unreachable!(),
            },
            Drawing::Unlimited(pass) => match other {
                Drawing::Unlimited(other) => pass.take_in(other),
                Drawing::Budget(_) => unreachable!(),
                Drawing::Quota(_) => unreachable!(),
            },
        }
    }

    /// The number of tickets that were drawn of what it draws on, where it has all parts of that, which ends with it.
    /// Otherwise another pass is alive or was dropped, and this one comes back. Nothing has no parts: it is what this
    /// one was granted.
    pub fn close(self) -> Result<u64, Drawing>
        ensures ok { IfOk result (IsTotal self) }
        ensures err { IfErr result (NoTotal self) }
    {
        match self {
            Drawing::Budget(pass) => match pass.close() {
                Ok(tickets) => Ok(tickets),
                Err(pass) => Err(Drawing::Budget(pass)),
            },
            Drawing::Quota(pass) => match pass.close() {
                Ok(tickets) => Ok(tickets),
                Err(pass) => Err(Drawing::Quota(pass)),
            },
            Drawing::Unlimited(pass) => Ok(pass.granted()),
        }
    }
}

impl Draws for Drawing {
    ghost use Rattle.sched_ticket_draws.specs.Drawing.{drawing_grants, drawing_lawful};

    ghost grants = { drawing_grants };

    ghost lawful = { drawing_lawful };

    fn admit(&mut self, now: Moment) -> bool {
        match self {
            Drawing::Budget(drawing) => drawing.admit(now),
            Drawing::Quota(drawing) => drawing.admit(now),
            Drawing::Unlimited(drawing) => drawing.admit(now),
        }
    }

    fn draw(&mut self, now: Moment) -> bool {
        match self {
            Drawing::Budget(drawing) => drawing.draw(now),
            Drawing::Quota(drawing) => drawing.draw(now),
            Drawing::Unlimited(drawing) => drawing.draw(now),
        }
    }

    fn succeeded(&mut self, _now: Moment) {}

    fn failed(&mut self, _now: Moment, _code: Millis) {}

    fn ended(&mut self, _unused: bool) {}

    fn granted(&self) -> u64 {
        match self {
            Drawing::Budget(drawing) => drawing.granted(),
            Drawing::Quota(drawing) => drawing.granted(),
            Drawing::Unlimited(drawing) => drawing.granted(),
        }
    }
}

impl Quiet for Drawing {
    ghost use Rattle.sched_ticket_draws.specs.Drawing.{drawing_quiet};

    ghost quiet = { drawing_quiet };
}
