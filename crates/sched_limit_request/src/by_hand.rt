//! A breaker that somebody opens or closes by hand.
ghost use Rattle.std.specs.Prelude.{◌≡◌};
ghost use Rattle.sched_limit_request.specs.ByHand.{IsByHand, call_by_hand};

use crate::on_limit::OnLimit;
use sched_limit::Breaker;
use sched_limit_word::Call;
use sched_time::Moment;

/// What somebody does to a breaker by hand.
#[derive(Clone, Copy, Debug, PartialEq, Eq, Drop)]
pub enum Hand {
    /// Opens it at this moment, until another one.
    Open(Moment, Moment),
    /// Closes it at this moment.
    Close(Moment),
}

impl Hand {
    /// The call that this makes.
    fn call(&self) -> Call
        ensures { result ≡ call_by_hand self.now }
    {
        match self {
            Hand::Open(now, until) => Call::OpenedByHand(*now, *until),
            Hand::Close(now) => Call::ClosedByHand(*now),
        }
    }
}

impl OnLimit<Breaker> {
    /// Opens the breaker by hand, or closes it, in a new generation. Results of runs that were admitted before change
    /// nothing, also of its own request.
    pub fn by_hand(&mut self, hand: &Hand)
        ensures { IsByHand hand.now self.old self.new }
    {
        let _ = self.pass.call(&*self.limit, hand.call(), u64::MAX);
    }
}
