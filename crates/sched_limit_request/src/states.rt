//! What a limit's state is, from one read of its words.
ghost use Rattle.sched_limit_request.specs.States.{IsSeen, IsThrottleSeen};

use crate::on_limit::OnLimit;
use crate::on_throttle::OnThrottle;
use sched_limit::{Seen, States};
use sched_time::Moment;

impl<M: States> OnLimit<M> {
    /// What the limit's state is. No call is made.
    pub fn seen(&mut self) -> Seen
        ensures { IsSeen M.seen self.old result self.new }
    {
        let word = self.pass.look(&*self.limit);
        self.limit.machine().seen(word)
    }
}

impl OnThrottle {
    /// What the throttle's state is, in the window of this moment. No call is made.
    pub fn seen(&mut self, now: Moment) -> Seen
        ensures { IsThrottleSeen now self.old result self.new }
    {
        let even = self.even.look();
        let odd = self.odd.look();
        self.even.throttle().seen(now, even, odd)
    }
}
