//! What is seen of limits, and breakers that somebody opens or closes by hand.
ghost use Rattle.sched_handle.specs.Limits.{OnLimits};
ghost use Rattle.sched_handle.specs.States.{DoesByHand, SeesLimit};

use crate::held::Held;
use crate::status::Status;
use sched_limit::Seen;
use sched_limit_request::Hand;
use sched_time::Moment;

impl Held {
    /// Opens each breaker of the limits or closes it, and answers whether there is one.
    pub fn limits_by_hand(&mut self, hand: &Hand) -> Result<bool, Status>
        ensures { OnLimits (DoesByHand hand.now) self.old result self.new }
    {
        if let Held::Limits(limits) = self {
            Ok(limits.by_hand(hand))
        } else {
            Err(Status::WrongKind)
        }
    }

    /// What the state of the limit of this number is, if there is one.
    pub fn limits_seen(&mut self, which: u64, now: Moment) -> Result<Option<Seen>, Status>
        ensures { OnLimits (SeesLimit which now) self.old result self.new }
    {
        if let Held::Limits(limits) = self {
            Ok(limits.seen(which, now))
        } else {
            Err(Status::WrongKind)
        }
    }
}
