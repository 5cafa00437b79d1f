//! What a retry asks of what it draws on, and what it tells it.
ghost use Rattle.std.specs.Prelude.{◌≡◌};
ghost use Rattle.sched_ticket_draws.specs.Grants.{Grants, Lawful};

use sched_time::{Millis, Moment};

/// What grants tickets for retries, or refuses them, and is told how each run went. It keeps the number of tickets that
/// it was granted.
///
/// One request after another uses it: `admit` before its first run, `succeeded` or `failed` after each run, `draw`
/// before it waits for a retry, and `ended` once it is over. Budgets and quotas admit each request, and a quota counts
/// it; where they are told how it went, they do nothing.
pub trait Draws: Drop {
    // What it grants, and what a call of it does.
    ghost grants: { Grants Self };

    /// Asks before the first run of a request, at the moment `now`, and answers whether that may be made.
    fn admit(&mut self, now: Moment) -> bool
        ensures { grants.admitted self.old now result self.new };

    /// Draws a ticket at the moment `now`, and answers whether it was granted.
    fn draw(&mut self, now: Moment) -> bool
        ensures drew { grants.drew self.old now result self.new }
        ensures stands { grants.stands self.new };

    /// Tells that a run of the request succeeded.
    fn succeeded(&mut self, now: Moment)
        ensures { grants.succeeded self.old now self.new };

    /// Tells that a run of the request failed with this code, whether it is retried or not.
    fn failed(&mut self, now: Moment, code: Millis)
        ensures { grants.failed self.old now code self.new };

    /// Tells that the request is over, however. `unused` says that the run was not begun that it was to make next, for
    /// which it drew its last ticket.
    fn ended(&mut self, unused: bool)
        ensures { grants.ended self.old unused self.new };

    /// How many tickets it was granted so far, for earlier retries too.
    fn granted(&self) -> u64
        ensures granted { result ≡ grants.granted self.now }
        ensures stands { grants.stands self.now };

    // Each call keeps the law of draws.
    ghost lawful: { Lawful grants };
}

/// What changes nothing where it is told how a request went. A retry may make it as late as at its first failure.
pub trait Quiet: Draws {
    ghost use Rattle.sched_ticket_draws.specs.Grants.{IsQuiet};

    // It changes nothing.
    ghost quiet: { IsQuiet Self.grants };
}
