//! Moments at which a schedule goes on.
ghost use Rattle.std.specs.Prelude.{◌≡◌, ◌+◌, ◌-◌, ◌<◌};
ghost use Rattle.sched_time.specs.Capped.{capped};
ghost use Rattle.sched_time.specs.declared.starts.Decision.{Decision};
ghost use Rattle.sched_plan.specs.Answer.{next_boundary};
ghost use Rattle.sched_step.specs.Progress.{moment_view};

use sched_plan::Val;
use sched_time::{Decision, Interval, Millis, Moment};

/// A moment as a value; nothing where there is none.
pub(crate) fn view_moment(moment: Option<Moment>) -> Val
    ensures { result ≡ moment_view moment }
{
    match moment {
        Some(moment) => Val::from(Millis::from(moment)),
        None => Val::unit(),
    }
}

/// How long after `since` it is at `now`.
pub(crate) fn time_between(since: Moment, now: Moment) -> Millis
    ensures { result ≡ now - since }
{
    let time = now.get().saturating_sub(since.get());
    Millis::new(time).unwrap()
}

/// Going on so much after `now`.
pub(crate) fn go_after(now: Moment, delay: Millis) -> Decision
    ensures { result ≡ Decision.Go (capped (now + delay)) }
{
    Decision::Go(Interval::after(now.plus(delay)))
}

/// Going on at `now`.
pub fn go_at(now: Moment) -> Decision
    ensures { result ≡ Decision.Go now }
{
    Decision::Go(Interval::after(now))
}

/// The next boundary of intervals of this length, the first of which begins at `first`.
pub(crate) fn next_boundary(length: Millis, first: Moment, now: Moment) -> Moment
    requires { 0 < length }
    ensures { result ≡ next_boundary length first now }
{
    let past = time_between(first, now).get() % length.get();
    let rest = Millis::new(length.get() - past).unwrap();
    now.plus(rest)
}
