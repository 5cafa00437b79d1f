ghost use Rattle.std.specs.Prelude.{◌≡◌, length};
ghost use Rattle.sched_step_flat.specs.Words.{blank, width_of};

use crate::leaves::reset_leaf;
use crate::ones::reset_own;
use crate::puts::put_one;
use crate::widths::{one_width, width};
use sched_plan::{Plan, PlanShape, Two};

/// Makes the words those before the first event.
pub(crate) fn reset(plan: &Plan, words: &mut [u64])
    requires { length words.old ≡ width_of plan.now }
    ensures { words.new ≡ blank plan.now }
{
    match plan.shape() {
        PlanShape::Leaf(leaf) => reset_leaf(leaf, words),
        PlanShape::One(node, plan) => {
            let (own, under) = words.split_at_mut(one_width(*node));
            reset_own(node, own);
            reset(plan, under);
        }
        PlanShape::Two(node, plans) => match *node {
            Two::Follow => {
                let (own, both) = words.split_at_mut(1);
                let (front, rest) = both.split_at_mut(width(&plans.0));
                put_one(own, 0);
                reset(&plans.0, front);
                reset(&plans.1, rest);
            }
            Two::Meet | Two::Join | Two::Feed => {
                let (front, rest) = words.split_at_mut(width(&plans.0));
                reset(&plans.0, front);
                reset(&plans.1, rest);
            }
        },
    }
}
