ghost use Rattle.std.specs.Prelude.{◌≡◌, max, IfOk, IsTrue};
ghost use Rattle.sched_plan.specs.Outputs.{number_of};
ghost use Rattle.sched_step.specs.Kept.{kept_mark, mark_anew};
ghost use Rattle.sched_step.specs.Progress.{one_view, one_keeps, one_began};
ghost use Rattle.sched_step.specs.StateOf.{event_of};
ghost use Rattle.sched_step.specs.Step.{answered, begins, fold_total, is_over, kept_origin, one_next, round_next};
ghost use Rattle.sched_step.specs.Step.{since_of, total_of};

use crate::times::{time_between, view_moment};
use crate::walks::Walk;
use sched_plan::{Fold, One, Val, ValShape};
use sched_time::{Decision, Millis, Moment, NoMemory};
use std::alloc::Global;

/// What a node over one plan keeps, where that is no list.
#[derive(Clone, Copy, Debug, PartialEq, Eq)]
pub(crate) enum Mark {
    /// Nothing.
    Bare,
    /// The first moment, once there was one.
    Since(Option<Moment>),
    /// The first moment of the present round, once there was one.
    RoundSince(Option<Moment>),
    /// The last moment, once there was one.
    LastAt(Option<Moment>),
    /// What a fold has made of the outputs.
    Total(Millis),
}

impl Mark {
    /// Where a step is made that may begin anew.
    #[tactic(auto, using(crate::proofs::Marked::anew_first, crate::proofs::Marked::anew_keeps))]
    pub(crate) fn origin(self, fresh: bool, node: One) -> Mark
        requires { IsTrue (one_keeps node (kept_mark self)) }
        ensures value { kept_mark result ≡ kept_origin fresh node (kept_mark self) }
        ensures keeps { IsTrue (one_keeps node (kept_mark result)) }
    {
        if fresh { self.anew() } else { self }
    }

    // The mark of its kind before the first event.
    fn anew(self) -> Mark
        ensures { result ≡ mark_anew self }
    {
        match self {
            Mark::Bare => Mark::Bare,
            Mark::Since(_) => Mark::Since(None),
            Mark::RoundSince(_) => Mark::RoundSince(None),
            Mark::LastAt(_) => Mark::LastAt(None),
            Mark::Total(_) => Mark::Total(Millis::from(0)),
        }
    }

    /// The value that shows it, beside that of the plan under the node.
    pub(crate) fn view(self, alloc: Global, plan: Val) -> Result<Val, NoMemory>
        ensures { IfOk result (λ v. v ≡ one_view (kept_mark self) plan) }
    {
        match self {
            Mark::Bare => Ok(plan),
            Mark::Since(moment) | Mark::RoundSince(moment) | Mark::LastAt(moment) => {
                Val::pair(alloc, view_moment(moment), plan)
            }
            Mark::Total(number) => Val::pair(alloc, Val::from(number), plan),
        }
    }

    /// Whether it is of the node's kind.
    pub(crate) fn is_of(self, node: One) -> bool
        ensures { result ≡ one_keeps node (kept_mark self) }
    {
        match (node, self) {
            (One::Gather(Fold::Sum | Fold::Count | Fold::Max), Mark::Total(_)) => true,
            (One::Within(_) | One::EndsBy(_), Mark::Since(_)) => true,
            (One::Renew(_), Mark::RoundSince(_)) => true,
            (One::RenewIdle(_), Mark::LastAt(_)) => true,
            (
                One::Gate { .. }
                | One::Add(_)
                | One::Set(_)
                | One::Cap(_)
                | One::AddOut
                | One::Jitter { .. }
                | One::First
                | One::Second
                | One::Nothing,
                Mark::Bare,
            ) => true,
            _ => false,
        }
    }

    /// Whether it has no moment after `now`.
    pub(crate) fn began_by(self, now: Moment) -> bool
        ensures { result ≡ one_began (kept_mark self) now }
    {
        match self.since() {
            Some(moment) => moment <= now,
            None => true,
        }
    }

    /// The moment, if there is one.
    pub(crate) fn since(&self) -> Option<Moment>
        ensures { result ≡ since_of (kept_mark self.now) }
    {
        match *self {
            Mark::Since(moment) | Mark::RoundSince(moment) | Mark::LastAt(moment) => moment,
            Mark::Bare | Mark::Total(_) => None,
        }
    }

    /// The number, or 0.
    pub(crate) fn total(&self) -> Millis
        ensures { result ≡ total_of (kept_mark self.now) }
    {
        match *self {
            Mark::Total(number) => number,
            _ => Millis::from(0),
        }
    }

    /// Whether the plan under the node begins anew at an event at `now`.
    pub(crate) fn begins(&self, node: One, now: Moment) -> bool
        ensures { result ≡ begins node (kept_mark self.now) now }
    {
        match node {
            One::Renew(length) | One::RenewIdle(length) => is_over(length, self.since(), now),
            _ => false,
        }
    }

    /// After one more event, to which the plan under the node gave this output and decision.
    #[tactic(auto, using(crate::proofs::Marked::totalled))]
    pub(crate) fn next(
        &self,
        walk: &Walk<'_>,
        node: &One,
        output: &Val,
        decision: &Decision,
    ) -> Mark
        requires { IsTrue (one_keeps node.now (kept_mark self.now)) }
        ensures { kept_mark result ≡ one_next node.now (kept_mark self.now)
            (event_of walk.now.tick walk.now.input.now) (answered output.now decision.now) }
    {
        let now = walk.tick.now;
        match *node {
            One::Gather(fold) => Mark::Total(folded(fold, self.total(), output, decision)),
            One::Within(_) | One::EndsBy(_) => Mark::Since(Some(self.since().unwrap_or(now))),
            One::Renew(length) => Mark::RoundSince(Some(round(length, self.since(), now))),
            One::RenewIdle(_) => Mark::LastAt(Some(now)),
            One::Gate { .. }
            | One::Add(_)
            | One::Set(_)
            | One::Cap(_)
            | One::AddOut
            | One::Jitter { .. }
            | One::First
            | One::Second
            | One::Nothing => Mark::Bare,
        }
    }
}

// Whether so much time has passed since the moment, if there is one.
fn is_over(length: Millis, since: Option<Moment>, now: Moment) -> bool
    ensures { result ≡ is_over length since now }
{
    match since {
        Some(moment) => length <= time_between(moment, now),
        None => false,
    }
}

// The moment at which the present round began.
fn round(length: Millis, since: Option<Moment>, now: Moment) -> Moment
    ensures { result ≡ round_next (is_over length since now) since now }
{
    match since {
        Some(moment) if time_between(moment, now).get() < length.get() => moment,
        _ => now,
    }
}

// What a fold makes of its number so far and of this output; a list is kept as no number.
fn folded(fold: Fold, total: Millis, output: &Val, decision: &Decision) -> Millis
    ensures { result ≡ fold_total fold total (answered output.now decision.now) }
{
    if let Decision::Done = *decision {
        return total;
    }
    match fold {
        Fold::Sum => total.plus(number(output)),
        Fold::Count => total.plus(Millis::from(1)),
        Fold::Max => greater(total, number(output)),
        Fold::List => total,
    }
}

// The number that a value is, or 0.
fn number(value: &Val) -> Millis
    ensures { result ≡ number_of value.now }
{
    match value.shape() {
        ValShape::Num(number) => *number,
        _ => Millis::from(0),
    }
}

// The greater of both.
fn greater(one: Millis, other: Millis) -> Millis
    ensures { result ≡ max one other }
{
    if one.get() < other.get() { other } else { one }
}
