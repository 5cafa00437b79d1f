//! Draws on a quota that tell the windows of the tickets.
ghost use Rattle.std.specs.Prelude.{◌≡◌, ◌∷◌, [], map, IfSome, IsSomeAnd};
ghost use Rattle.sched_ticket.specs.Lists.{IsSame};
ghost use Rattle.sched_ticket_quota.specs.Held.{IsOf};
ghost use Rattle.sched_ticket_quota.specs.Windows.{window_of};

use sched_ticket_draws::{Draws, RefersTo};
use sched_ticket_quota::{Pass, Quota};
use sched_time::{Millis, Moment};
use std::alloc::Global;
use std::marker::Model;

// The numbers of a window: the ticket `n` is of the window `n / NUMBERS`.
const NUMBERS: u64 = 4294967296;

/// A pass of a quota, with its quota, that notes the window of each of its tickets. Contracts see it as both.
#[derive(Drop)]
pub struct Tally<Q: RefersTo<Quota>> {
    pass: Pass,
    quota: Q,
    // The windows, or `None` where memory for one was refused.
    windows: Option<Vec<u64>>,
}

impl<Q: RefersTo<Quota>> Model for Tally<Q> {
    ghost use Rattle.std.specs.Prelude.{map, IfSome};
    ghost use Rattle.sched_ticket.specs.Lists.{IsSame};
    ghost use Rattle.sched_ticket_quota.specs.Held.{IsOf};
    ghost use Rattle.sched_ticket_quota.specs.Windows.{window_of};
    ghost use Rattle.sched_ticket_draws.specs.Quotas.{OfQuota};

    ghost Value = { OfQuota };

    ghost view = { λ d. record { pass = d.pass; quota = Q.target d.quota } };

    ghost invariant = { λ d. IsOf (Q.target d.quota) d.pass
        × IfSome d.windows (λ ws. IsSame ws.items (map window_of d.pass.has.tickets)) };
}

impl<Q: RefersTo<Quota>> Tally<Q> {
    /// What draws on this quota with this pass of it, which has no ticket yet. It takes no memory.
    pub fn new(alloc: Global, pass: Pass, quota: Q) -> Tally<Q>
        requires of { IsOf (Q.target quota) pass }
        requires none { pass.has.tickets ≡ [] }
        ensures pass { result.pass ≡ pass }
        ensures quota { result.quota ≡ Q.target quota }
    {
        Tally {
            pass,
            quota,
            windows: Some(Vec::new(alloc)),
        }
    }

    /// The pass, with all its tickets, and the window of each of these, or `None` where memory for one was refused.
    pub fn into_parts(self) -> (Pass, Option<Vec<u64>>)
        ensures pass { result.0 ≡ self.pass }
        ensures of { IsOf self.quota result.0 }
        ensures windows { IfSome result.1 (λ ws. IsSame ws.items (map window_of result.0.has.tickets)) }
    {
        let Tally {
            pass,
            quota: _,
            windows,
        } = self;
        (pass, windows)
    }
}

impl<Q: RefersTo<Quota>> Draws for Tally<Q> {
    ghost use Rattle.sched_ticket_draws.specs.Quotas.{quota_grants, quota_lawful};

    ghost grants = { quota_grants };

    ghost lawful = { quota_lawful };

    fn admit(&mut self, now: Moment) -> bool {
        self.pass.deposit(self.quota.target(), now);
        true
    }

    fn draw(&mut self, now: Moment) -> bool {
        match self.pass.draw(self.quota.target(), now) {
            Ok(ticket) => {
                self.windows = with_window(self.windows.take(), ticket / NUMBERS);
                true
            }
            Err(_) => false,
        }
    }

    fn succeeded(&mut self, _now: Moment) {}

    fn failed(&mut self, _now: Moment, _code: Millis) {}

    fn ended(&mut self, _unused: bool) {}

    fn granted(&self) -> u64 {
        self.pass.granted()
    }
}

// The windows with this one. `None` where memory is refused.
fn with_window(windows: Option<Vec<u64>>, window: u64) -> Option<Vec<u64>>
    ensures { IfSome result (λ more. IsSomeAnd windows (λ ws. IsSame more.items (window ∷ ws.items))) }
{
    let mut windows = windows?;
    if windows.push(window).is_err() {
        return None;
    }
    Some(windows)
}
