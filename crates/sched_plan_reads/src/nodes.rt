//! Which random words a plan's nodes read, and whether they read the input.
ghost use Rattle.std.specs.Prelude.{◌≡◌};
ghost use Rattle.sched_plan_reads.specs.Reads.{reads_lane, reads_input, reads_of, weighed};

use sched_plan::{Leaf, One, Plan, PlanShape, Side};

/// What the plan reads: 1, 2, 4 and 8 for the random words of the lanes 0 to 3, and 16 for the input, added up.
pub fn reads(plan: &Plan) -> u64
    ensures { result ≡ reads_of plan.now }
{
    weighed(reads_lane(plan, 0), 1)
        + weighed(reads_lane(plan, 1), 2)
        + weighed(reads_lane(plan, 2), 4)
        + weighed(reads_lane(plan, 3), 8)
        + weighed(reads_input(plan), 16)
}

// The weight of what is read, and 0 of what is not.
fn weighed(is_read: bool, weight: u64) -> u64
    ensures { result ≡ weighed is_read weight }
{
    if is_read { weight } else { 0 }
}

// Whether a node reads the random word of this lane.
fn reads_lane(plan: &Plan, lane: usize) -> bool
    ensures { result ≡ reads_lane lane plan.now }
{
    match plan.shape() {
        PlanShape::Leaf(Leaf::Decorrelated { lane: own, .. }) => *own == lane,
        PlanShape::Leaf(_) => false,
        PlanShape::One(One::Jitter { lane: own, .. }, plan) => {
            *own == lane || reads_lane(plan, lane)
        }
        PlanShape::One(_, plan) => reads_lane(plan, lane),
        PlanShape::Two(_, plans) => reads_lane(&plans.0, lane) || reads_lane(&plans.1, lane),
    }
}

// Whether a node reads the input.
fn reads_input(plan: &Plan) -> bool
    ensures { result ≡ reads_input plan.now }
{
    match plan.shape() {
        PlanShape::Leaf(Leaf::Identity) => true,
        PlanShape::Leaf(_) => false,
        PlanShape::One(
            One::Gate {
                side: Side::Input,
                ..
            },
            _,
        ) => true,
        PlanShape::One(_, plan) => reads_input(plan),
        PlanShape::Two(_, plans) => reads_input(&plans.0) || reads_input(&plans.1),
    }
}
