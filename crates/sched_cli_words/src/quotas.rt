ghost use Rattle.std.specs.Prelude.{◌≤◌};
ghost use Rattle.sched_ticket_quota.specs.Held.{AreTerms};

use sched_ticket_quota::Terms;

/// How jobs are run on a quota.
#[derive(Clone, Copy, Debug, PartialEq, Eq)]
pub struct QuotaOptions {
    /// The reserve, the share and the period of the quota.
    pub terms: Terms,
    /// How many turns the loop takes at most, from 0 to 4294967296.
    pub turns: u64,
    ghost made: { AreTerms terms },
    ghost turned: { turns ≤ 4294967296 },
}
