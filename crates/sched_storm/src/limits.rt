//! The limit of a storm, where a request asks or tells it something.
ghost use Rattle.std.specs.Prelude.{◌≡◌, ◌≤◌, IfOk, OnOk};
ghost use Rattle.sched_storm_limit.specs.Limits.{admitting, failing, succeeding};
ghost use Rattle.sched_storm_limit.specs.States.{state_of};
ghost use Rattle.sched_storm.specs.Turns.{asking, ending_by};

use crate::storm::Storm;
use crate::turns::{Turn, is_late, is_over};
use sched_storm_limit::Stand;
use sched_storm_report::{Failure, Then};
use sched_time::{Moment, NoMemory};

impl Storm {
    /// Whether a request would be admitted before its first call.
    pub(crate) fn admits(&self, limit: &Stand, turn: Turn) -> Result<bool, NoMemory>
        requires near { turn.at ≤ 7200000 }
        ensures { IfOk result (λ yes.
            yes ≡ (admitting self.now.draws turn.at turn.request (state_of limit.now)).0) }
    {
        limit.admits(self.draws(), moment(turn), turn.request)
    }

    /// A request asks to be admitted before its first call.
    pub(crate) fn admit(&self, limit: &mut Stand, turn: Turn) -> Result<bool, NoMemory>
        requires near { turn.at ≤ 7200000 }
        ensures { IfOk result (λ yes. (yes, state_of limit.new)
            ≡ admitting self.now.draws turn.at turn.request (state_of limit.old)) }
    {
        limit.admit(self.draws(), moment(turn), turn.request)
    }

    /// A call of a request failed.
    pub(crate) fn tell_failed(&self, limit: &mut Stand, turn: Turn)
        requires near { turn.at ≤ 7200000 }
        ensures { state_of limit.new ≡ failing self.now.draws turn.at turn.request (state_of limit.old) }
    {
        limit.fail(self.draws(), moment(turn), turn.request);
    }

    /// A request asks for a retry, where its policy plans a start for one.
    pub(crate) fn ask(
        &self,
        limit: &mut Stand,
        turn: Turn,
        failure: Failure,
        start: &Option<Moment>,
    ) -> Result<bool, NoMemory>
        requires near { turn.at ≤ 7200000 }
        ensures { IfOk result (λ granted. (granted, state_of limit.new)
            ≡ asking self.now failure turn.at turn.request start.now (state_of limit.old)) }
    {
        limit.draw_if(
            start.is_some(),
            self.draws(),
            is_late(failure),
            moment(turn),
            turn.request,
        )
    }

    /// What follows a call that failed may end its request.
    pub(crate) fn tell_ended(
        &self,
        limit: &mut Stand,
        turn: Turn,
        then: Then,
    ) -> Result<(), NoMemory>
        ensures { OnOk result (state_of limit.new ≡ ending_by self.now then turn.request (state_of limit.old)) }
    {
        limit.end_if(is_over(then), self.draws(), turn.request)
    }

    /// A call of a request succeeded, and it is over.
    pub(crate) fn tell_succeeded(&self, limit: &mut Stand, turn: Turn) -> Result<(), NoMemory>
        requires near { turn.at ≤ 7200000 }
        ensures { OnOk result (state_of limit.new
            ≡ succeeding self.now.draws turn.at turn.request (state_of limit.old)) }
    {
        limit.succeed(self.draws(), moment(turn), turn.request)
    }
}

// The moment of a turn.
fn moment(turn: Turn) -> Moment
    requires { turn.at ≤ 7200000 }
    ensures { result ≡ turn.at }
{
    Moment::new(turn.at).unwrap()
}
