ghost use Rattle.std.specs.Prelude.{◌≡◌, ◌≤◌, ◌*◌};
ghost use Rattle.sched_plan.specs.Schedule.{nodes_of};
ghost use Rattle.sched_step_flat.specs.Words.{leaf_width, one_width, width_of};

use sched_plan::{Fold, Leaf, One, Plan, PlanShape, Two};

/// How many words a leaf has.
#[inline(always)]
pub(crate) fn leaf_width(leaf: Leaf) -> usize
    ensures { result ≡ leaf_width leaf }
{
    match leaf {
        Leaf::Fixed(_) => 3,
        Leaf::Windowed(_) | Leaf::Fibonacci(_) => 2,
        Leaf::Identity => 0,
        _ => 1,
    }
}

/// How many words a node over one plan has of its own.
#[inline(always)]
pub(crate) fn one_width(node: One) -> usize
    ensures { result ≡ one_width node }
{
    match node {
        One::Gather(Fold::Sum | Fold::Count | Fold::Max)
        | One::Within(_)
        | One::EndsBy(_)
        | One::Renew(_)
        | One::RenewIdle(_) => 1,
        _ => 0,
    }
}

/// How many words a plan has.
///
/// It is inlined where it is called, so that a leaf takes no call.
#[cycle(width)]
#[inline(always)]
pub(crate) fn width(plan: &Plan) -> usize
    ensures value { result ≡ width_of plan.now }
    ensures few { result ≤ 3 * nodes_of plan.now }
{
    // Tells what the proof rests on: that the plan has few nodes.
    let _nodes = plan.nodes();
    match plan.shape() {
        PlanShape::Leaf(leaf) => leaf_width(*leaf),
        PlanShape::One(node, plan) => one_width(*node) + width_below(plan),
        PlanShape::Two(node, plans) => {
            let both = width_below(&plans.0) + width_below(&plans.1);
            match *node {
                Two::Follow => 1 + both,
                Two::Meet | Two::Join | Two::Feed => both,
            }
        }
    }
}

// The same, by a call.
#[cycle(width)]
#[inline(never)]
fn width_below(plan: &Plan) -> usize
    ensures value { result ≡ width_of plan.now }
    ensures few { result ≤ 3 * nodes_of plan.now }
{
    width(plan)
}
