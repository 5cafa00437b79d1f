//! Nodes on other plans.
ghost use Rattle.std.specs.Prelude.{option_map};
ghost use Rattle.sched_plan.specs.Schedule.{one as one_schedule, two as two_schedule};
ghost use Rattle.sched_plan_node.specs.Given.{answer_of, Gives};
ghost use Rattle.sched_plan_node.specs.Names.{one_named, two_named, one_names, ones_with_one, two_names, named};

use crate::faults::{NodeFault, of_node};
use crate::numbers::Numbers;
use sched_plan::Plan;
use std::alloc::Global;

/// The node of this name with these numbers on the plan.
pub(crate) fn over_one(
    alloc: Global,
    name: &str,
    numbers: Numbers,
    plan: Plan,
) -> Result<Plan, NodeFault>
    ensures { Gives result (answer_of (option_map (λ k. one_schedule k plan) (one_named name.now numbers))) }
{
    match numbers {
        Numbers::Zero => over_alone(alloc, name, plan),
        Numbers::One(n) => over_with_one(alloc, name, n, plan),
        Numbers::Three(n, m, k) => match name {
            // bin/nodes makes these rows.
            "jitter" => of_node(Plan::jitter(alloc, n, m, k, plan)),
            // end
            _ => Err(NodeFault::NotANode),
        },
        Numbers::Two(_, _) => Err(NodeFault::NotANode),
        Numbers::Four(_, _, _, _) => Err(NodeFault::NotANode),
        Numbers::More => Err(NodeFault::NotANode),
    }
}

fn over_alone(alloc: Global, name: &str, plan: Plan) -> Result<Plan, NodeFault>
    ensures { Gives result (answer_of (option_map (λ k. one_schedule k plan) (named one_names name.now))) }
{
    match name {
        // bin/nodes makes these rows.
        "add_out" => of_node(Plan::add_out(alloc, plan)),
        "first" => of_node(Plan::first(alloc, plan)),
        "second" => of_node(Plan::second(alloc, plan)),
        "nothing" => of_node(Plan::nothing(alloc, plan)),
        // end
        _ => Err(NodeFault::NotANode),
    }
}

fn over_with_one(alloc: Global, name: &str, n: u64, plan: Plan) -> Result<Plan, NodeFault>
    ensures { Gives result
        (answer_of (option_map (λ k. one_schedule k plan) (option_map (λ k. k n) (named ones_with_one name.now)))) }
{
    match name {
        // bin/nodes makes these rows.
        "add" => of_node(Plan::add(alloc, n, plan)),
        "set" => of_node(Plan::set(alloc, n, plan)),
        "cap" => of_node(Plan::cap(alloc, n, plan)),
        "within" => of_node(Plan::within(alloc, n, plan)),
        "ends_by" => of_node(Plan::ends_by(alloc, n, plan)),
        "renew" => of_node(Plan::renew(alloc, n, plan)),
        "renew_idle" => of_node(Plan::renew_idle(alloc, n, plan)),
        // end
        _ => Err(NodeFault::NotANode),
    }
}

/// The node of this name with these numbers on both plans.
pub(crate) fn over_both(
    alloc: Global,
    name: &str,
    numbers: Numbers,
    first: Plan,
    second: Plan,
) -> Result<Plan, NodeFault>
    ensures { Gives result
        (answer_of (option_map (λ k. two_schedule k first second) (two_named name.now numbers))) }
{
    match numbers {
        Numbers::Zero => pair(alloc, name, first, second),
        Numbers::One(_) => Err(NodeFault::NotANode),
        Numbers::Two(_, _) => Err(NodeFault::NotANode),
        Numbers::Three(_, _, _) => Err(NodeFault::NotANode),
        Numbers::Four(_, _, _, _) => Err(NodeFault::NotANode),
        Numbers::More => Err(NodeFault::NotANode),
    }
}

fn pair(alloc: Global, name: &str, first: Plan, second: Plan) -> Result<Plan, NodeFault>
    ensures { Gives result (answer_of (option_map (λ k. two_schedule k first second) (named two_names name.now))) }
{
    match name {
        // bin/nodes makes these rows.
        "meet" => of_node(Plan::meet(alloc, first, second)),
        "join" => of_node(Plan::join(alloc, first, second)),
        "follow" => of_node(Plan::follow(alloc, first, second)),
        "feed" => of_node(Plan::feed(alloc, first, second)),
        // end
        _ => Err(NodeFault::NotANode),
    }
}
