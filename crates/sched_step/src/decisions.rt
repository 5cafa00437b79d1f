//! What two decisions make together.
ghost use Rattle.std.specs.Prelude.{◌≡◌};
ghost use Rattle.sched_plan.specs.Answer.{join_decisions, meet_decisions};
ghost use Rattle.sched_plan.specs.Changes.{goes_past};

use sched_time::{Decision, Moment};

/// Going on at the later start where both do.
pub fn meet(one: Decision, other: Decision) -> Decision
    ensures { result ≡ meet_decisions one other }
{
    match one {
        Decision::Go(one) => match other {
            Decision::Go(other) => Decision::Go(one.meet(other)),
            Decision::Done => Decision::Done,
        },
        Decision::Done => Decision::Done,
    }
}

/// Going on at the earlier start where both do, and where one does at its start.
pub fn join(one: Decision, other: Decision) -> Decision
    ensures { result ≡ join_decisions one other }
{
    match one {
        Decision::Go(first) => match other {
            Decision::Go(second) => Decision::Go(first.join(second)),
            Decision::Done => Decision::Go(first),
        },
        Decision::Done => other,
    }
}

/// Whether it goes on later than this moment.
pub(crate) fn goes_past(moment: Moment, decision: Decision) -> bool
    ensures { result ≡ goes_past moment decision }
{
    match decision {
        Decision::Go(interval) => moment < interval.start(),
        Decision::Done => false,
    }
}
