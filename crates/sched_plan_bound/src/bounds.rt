//! Bounds that a plan's nodes give.
ghost use Rattle.std.specs.Prelude.{◌≡◌, IfSome};
ghost use Rattle.sched_plan_bound.specs.Bound.{bound_of, two_bound, GoesOnAtMost};

use sched_plan::{Leaf, One, Plan, PlanShape, Two};
use sched_time::FAR;

/// A number of events at which the plan goes on at most, whatever comes, where its nodes give one: at each later event
/// of a history it is done.
#[tactic(auto, using(crate::proofs::BoundLaw::known_bound))]
pub fn most_goes(plan: &Plan) -> Option<u64>
    ensures value { result ≡ bound_of plan.now }
    ensures law { IfSome result (GoesOnAtMost plan.now) }
{
    match plan.shape() {
        PlanShape::Leaf(Leaf::Recurs(count)) => Some(count.get()),
        PlanShape::Leaf(Leaf::Lone(_)) => Some(1),
        PlanShape::Leaf(_) => None,
        PlanShape::One(One::Renew(_) | One::RenewIdle(_), _) => None,
        PlanShape::One(_, plan) => most_goes(plan),
        PlanShape::Two(node, plans) => of_two(*node, most_goes(&plans.0), most_goes(&plans.1)),
    }
}

// The same of a node over two plans, by what their nodes give.
fn of_two(node: Two, first: Option<u64>, second: Option<u64>) -> Option<u64>
    ensures { result ≡ two_bound node first second }
{
    match (node, first, second) {
        (Two::Meet | Two::Feed, Some(first), Some(second)) => Some(first.min(second)),
        (Two::Meet | Two::Feed, Some(most), None) => Some(most),
        (Two::Meet | Two::Feed, None, Some(most)) => Some(most),
        (Two::Join, Some(first), Some(second)) => Some(first.max(second)),
        (Two::Follow, Some(first), Some(second)) => Some(first.saturating_add(second).min(FAR)),
        _ => None,
    }
}
