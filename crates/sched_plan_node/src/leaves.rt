//! Nodes on no plan.
ghost use Rattle.std.specs.Prelude.{◌≡◌, option_map};
ghost use Rattle.sched_plan.specs.Schedule.{leaf as leaf_schedule};
ghost use Rattle.sched_plan_node.specs.Given.{answer_of};
ghost use Rattle.sched_plan_node.specs.Names.{leaf_named, leaf_names, leaves_with_one, leaves_with_two, named};
ghost use Rattle.sched_plan_node.specs.Names.{leaves_with_three, leaves_with_four};

use crate::faults::{NodeFault, of_leaf};
use crate::numbers::Numbers;
use sched_plan::Plan;

/// The leaf of this name with these numbers.
pub(crate) fn leaf(name: &str, numbers: Numbers) -> Result<Plan, NodeFault>
    ensures { result ≡ answer_of (option_map leaf_schedule (leaf_named name.now numbers)) }
{
    match numbers {
        Numbers::Zero => leaf_alone(name),
        Numbers::One(n) => leaf_of_one(name, n),
        Numbers::Two(n, m) => leaf_of_two(name, n, m),
        Numbers::Three(n, m, k) => leaf_of_three(name, n, m, k),
        Numbers::Four(n, m, k, l) => leaf_of_four(name, n, m, k, l),
        Numbers::More => Err(NodeFault::NotANode),
    }
}

fn leaf_alone(name: &str) -> Result<Plan, NodeFault>
    ensures { result ≡ answer_of (option_map leaf_schedule (named leaf_names name.now)) }
{
    match name {
        // bin/nodes makes these rows.
        "forever" => of_leaf(Plan::forever()),
        "elapsed" => of_leaf(Plan::elapsed()),
        "identity" => of_leaf(Plan::identity()),
        // end
        _ => Err(NodeFault::NotANode),
    }
}

fn leaf_of_one(name: &str, n: u64) -> Result<Plan, NodeFault>
    ensures { result
        ≡ answer_of (option_map leaf_schedule (option_map (λ k. k n) (named leaves_with_one name.now))) }
{
    match name {
        // bin/nodes makes these rows.
        "recurs" => of_leaf(Plan::recurs(n)),
        "spaced" => of_leaf(Plan::spaced(n)),
        "fixed" => of_leaf(Plan::fixed(n)),
        "windowed" => of_leaf(Plan::windowed(n)),
        "linear" => of_leaf(Plan::linear(n)),
        "fibonacci" => of_leaf(Plan::fibonacci(n)),
        "lone" => of_leaf(Plan::lone(n)),
        // end
        _ => Err(NodeFault::NotANode),
    }
}

fn leaf_of_two(name: &str, n: u64, m: u64) -> Result<Plan, NodeFault>
    ensures { result
        ≡ answer_of (option_map leaf_schedule (option_map (λ k. k n m) (named leaves_with_two name.now))) }
{
    match name {
        // bin/nodes makes these rows.
        "exponential" => of_leaf(Plan::exponential(n, m)),
        "exponential_milli" => of_leaf(Plan::exponential_milli(n, m)),
        // end
        _ => Err(NodeFault::NotANode),
    }
}

fn leaf_of_three(name: &str, n: u64, m: u64, k: u64) -> Result<Plan, NodeFault>
    ensures { result
        ≡ answer_of (option_map leaf_schedule (option_map (λ l. l n m k) (named leaves_with_three name.now))) }
{
    match name {
        // bin/nodes makes these rows.
        "unfold" => of_leaf(Plan::unfold(n, m, k)),
        // end
        _ => Err(NodeFault::NotANode),
    }
}

fn leaf_of_four(name: &str, n: u64, m: u64, k: u64, l: u64) -> Result<Plan, NodeFault>
    ensures { result
        ≡ answer_of (option_map leaf_schedule (option_map (λ f. f n m k l) (named leaves_with_four name.now))) }
{
    match name {
        // bin/nodes makes these rows.
        "decorrelated" => of_leaf(Plan::decorrelated(n, m, k, l)),
        // end
        _ => Err(NodeFault::NotANode),
    }
}
