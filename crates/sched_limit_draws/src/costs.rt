//! What a draw costs.
ghost use Rattle.std.specs.Prelude.{◌≡◌};
ghost use Rattle.sched_limit_draws.specs.Costs.{cost_of};

use sched_time::Millis;

/// What a draw of a limit costs, by the code of the failure before it. A limit that has no costs takes no notice.
#[derive(Clone, Copy, Debug, PartialEq, Eq, Drop)]
pub struct Costs {
    /// Of each draw but those.
    pub each: u64,
    /// Of a draw after a call that came too late.
    pub late: u64,
    /// The code of such a call.
    pub late_code: u64,
}

impl Costs {
    /// The same of each draw.
    pub fn of_each(each: u64) -> Costs
        ensures each { result.each ≡ each }
        ensures late { result.late ≡ each }
    {
        Costs {
            each,
            late: each,
            late_code: 0,
        }
    }

    /// What a draw costs after a failure with this code.
    pub fn after(&self, code: Millis) -> u64
        ensures { result ≡ cost_of self.now code }
    {
        if code.get() == self.late_code {
            self.late
        } else {
            self.each
        }
    }
}
