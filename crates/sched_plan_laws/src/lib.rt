//! Laws of the delays of plans, on every history. Each function does nothing: its contract is a law, which readers can
//! cite. It stands on `sched_plan`.
#![tactic(auto)]

ghost use Rattle.sched_plan_laws.specs.Delays.{DecorrelatedIsBounded};

/// Each delay of `Plan::decorrelated` lies between its base and its longest delay, whatever the random words.
pub fn decorrelated_is_bounded()
    ensures { DecorrelatedIsBounded }
{}
