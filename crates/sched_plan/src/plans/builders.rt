//! A builder for each node. Those over plans take them by value, and drop them at a refusal.
ghost use Rattle.std.specs.Prelude.{◌≡◌, IsTrue, Ok, Err, if◌then◌else◌, nat_le, ◌&&◌};
ghost use Rattle.sched_time.specs.declared.numbers.TheConstants.{FAR};
ghost use Rattle.sched_plan.specs.Schedule.{leaf as leaf_schedule, one, two, leaf_in_range, one_in_range};
ghost use Rattle.sched_plan.specs.Plan.{built_plan, Builds, counts_or_fault};

use super::{MAX_DEPTH, MAX_NODES, Plan, PlanFault, PlanShape};
use crate::leaves::Leaf;
use crate::nodes::{One, Two};
use sched_time::Millis;
use std::alloc::Global;

mod delays;
mod leaves;
mod outputs;
mod pairs;
mod rounds;

/// The last lane of the random words.
const LAST_LANE: u64 = 3;

impl Plan {
    // The plan of one leaf.
    fn of_leaf(leaf: Leaf) -> Plan
        requires { IsTrue (leaf_in_range leaf) }
        ensures { result ≡ leaf_schedule leaf }
    {
        Plan {
            shape: PlanShape::Leaf(leaf),
            nodes: 1,
            depth: 1,
        }
    }

    // The plan of a node over this one.
    fn over_one(alloc: Global, node: One, plan: Plan) -> Result<Plan, PlanFault>
        requires { IsTrue (one_in_range node) }
        ensures { Builds result (one node plan) }
    {
        let (nodes, depth) = within_limits(plan.nodes + 1, plan.depth + 1)?;
        let plan = Box::new(alloc, plan).map_err(|_| PlanFault::NoMemory)?;
        Ok(Plan {
            shape: PlanShape::One(node, plan),
            nodes,
            depth,
        })
    }

    // The plan of a node over both.
    fn over_two(alloc: Global, node: Two, first: Plan, second: Plan) -> Result<Plan, PlanFault>
        ensures { Builds result (two node first second) }
    {
        let deeper = first.depth.max(second.depth);
        let (nodes, depth) = within_limits(first.nodes + second.nodes + 1, deeper + 1)?;
        let plans = Box::new(alloc, (first, second)).map_err(|_| PlanFault::NoMemory)?;
        Ok(Plan {
            shape: PlanShape::Two(node, plans),
            nodes,
            depth,
        })
    }
}

// Both counts, if they are within the limits.
fn within_limits(nodes: usize, depth: usize) -> Result<(usize, usize), PlanFault>
    ensures { result ≡ counts_or_fault nodes depth }
{
    if depth > MAX_DEPTH {
        return Err(PlanFault::TooDeep);
    }
    if nodes > MAX_NODES {
        return Err(PlanFault::TooMany);
    }
    Ok((nodes, depth))
}

// The number as a duration or a count, up to `FAR`.
fn in_range(number: u64) -> Result<Millis, PlanFault>
    ensures { result ≡ (if nat_le number FAR then Ok number else Err PlanFault.OutOfRange) }
{
    Millis::new(number).ok_or(PlanFault::OutOfRange)
}

// The number as the length of an interval or a round, from 1 to `FAR`.
fn length_in_range(number: u64) -> Result<Millis, PlanFault>
    ensures { result ≡ (if nat_le 1 number && nat_le number FAR then Ok number else Err PlanFault.OutOfRange) }
{
    if number == 0 {
        return Err(PlanFault::OutOfRange);
    }
    in_range(number)
}
