//! Policies.
ghost use Rattle.std.specs.Prelude.{◌≡◌, ◌≢◌, IfOk, IfErr, option_copied};
ghost use Rattle.sched_handle.specs.Fills.{Frees};
ghost use Rattle.sched_handle.specs.Policies.{ReadsPolicy, Shares, Sizes, Reads};
ghost use Rattle.sched_handle.specs.Replies.{nowhere};
ghost use Rattle.sched_handle.specs.Status.{code_of};
ghost use Rattle.sched_handle.specs.declared.held.Kind.TheVariants as kind;
ghost use Rattle.sched_handle.specs.declared.status.Status.TheVariants as status;
ghost use Rattle.hikebox_c.specs.Calls.{Tells, Kept, OnHeld, Makes, MakesWith, Comes};
ghost use Rattle.hikebox_c.specs.Policies.{IsGiven, IsNotGiven, IsNodeOf, MakesNode, WritesJson, size_of};
ghost use Rattle.hikebox_c.specs.Texts.{TellsText};

use crate::texts::tell_text;
use sched_handle::{Handle, Held, Kind, Place, Status, tell};
use sched_plan::{Plan, PlanFault, SharedPlan};
use sched_plan_json_write::to_json;
use sched_plan_node::{NodeFault, node};
use std::alloc::Global;
use std::str;

#[unsafe(no_mangle)]
pub extern "C" fn hikebox_policy_read(
    alloc: Global,
    json: &[u8],
    policy: &mut Handle,
    place: &mut Place,
) -> u32
    ensures policy { Makes (ReadsPolicy json.now) policy.old.held result policy.new.held }
    ensures place { result ≢ code_of status.NotJson → place.new ≡ nowhere }
{
    *place = Place::nowhere();
    if policy.is_full() {
        return Status::Full.code();
    }
    let made = Held::read(alloc, json, place);
    policy.fill(made)
}

#[unsafe(no_mangle)]
pub extern "C" fn hikebox_policy_node(
    alloc: Global,
    name: &[u8],
    numbers: &[u64],
    first: &mut Handle,
    second: &mut Handle,
    made: &mut Handle,
) -> u32
    ensures first { first.new.held ≡ first.old.held }
    ensures second { second.new.held ≡ second.old.held }
    ensures made { Makes (MakesNode name.now numbers.now first.old.held second.old.held)
        made.old.held result made.new.held }
{
    if made.is_full() {
        return Status::Full.code();
    }
    let policy = node_over(alloc, name, numbers, first, second);
    made.fill(policy)
}

// The policy of the node.
fn node_over(
    alloc: Global,
    name: &[u8],
    numbers: &[u64],
    first: &mut Handle,
    second: &mut Handle,
) -> Result<Box<Held>, Status>
    ensures first { first.new.held ≡ first.old.held }
    ensures second { second.new.held ≡ second.old.held }
    ensures made { MakesNode name.now numbers.now first.old.held second.old.held result }
{
    let one = given(first)?;
    let other = given(second)?;
    made(alloc, name, numbers, plan_in(&one), plan_in(&other))
}

// The policy that a handle holds, and none where it holds nothing.
fn given(handle: &mut Handle) -> Result<Option<SharedPlan>, Status>
    ensures kept { handle.new.held ≡ handle.old.held }
    ensures ok { IfOk result (IsGiven handle.old.held) }
    ensures err { IfErr result (IsNotGiven handle.old.held) }
{
    if !handle.is_full() {
        return Ok(None);
    }
    match handle.plan() {
        Ok(plan) => Ok(Some(plan)),
        Err(status) => Err(status),
    }
}

// The plan itself.
fn plan_in(given: &Option<SharedPlan>) -> Option<&Plan>
    ensures { option_copied result ≡ given.now }
{
    match given {
        Some(plan) => Some(plan.get()),
        None => None,
    }
}

// The policy of the node over these plans.
fn made(
    alloc: Global,
    name: &[u8],
    numbers: &[u64],
    first: Option<&Plan>,
    second: Option<&Plan>,
) -> Result<Box<Held>, Status>
    ensures { IsNodeOf name.now numbers.now (option_copied first.entry) (option_copied second.entry) result }
{
    let Ok(name) = str::from_utf8(name) else {
        return Err(Status::NotAPolicy);
    };
    match node(alloc, name, numbers, first, second) {
        Ok(plan) => Held::of_plan(alloc, plan),
        Err(NodeFault::NotANode) => Err(Status::NotAPolicy),
        Err(NodeFault::Plan(PlanFault::OutOfRange)) => Err(Status::OutOfRange),
        Err(NodeFault::Plan(PlanFault::TooDeep)) => Err(Status::TooDeep),
        Err(NodeFault::Plan(PlanFault::TooMany)) => Err(Status::TooMany),
        Err(NodeFault::Plan(PlanFault::NoMemory)) => Err(Status::NoMemory),
    }
}

#[unsafe(no_mangle)]
pub extern "C" fn hikebox_policy_share(
    alloc: Global,
    policy: &mut Handle,
    other: &mut Handle,
) -> u32
    ensures { MakesWith (Kept Shares) policy.old.held policy.new.held other.old.held result other.new.held }
{
    if other.is_full() {
        return Status::Full.code();
    }
    let Some(held) = policy.as_mut() else {
        return Status::Empty.code();
    };
    let made = held.shared(alloc);
    other.fill(made)
}

#[unsafe(no_mangle)]
pub extern "C" fn hikebox_policy_size(
    policy: &mut Handle,
    nodes: &mut u64,
    depth: &mut u64,
    most: &mut u64,
) -> u32
    ensures { OnHeld (Kept Sizes) policy.old.held policy.new.held
        (Tells result (size_of nodes.old depth.old most.old) (size_of nodes.new depth.new most.new)) }
{
    let Some(held) = policy.as_mut() else {
        return Status::Empty.code();
    };
    let size = held.size();
    match size {
        Ok(size) => {
            *nodes = size.nodes;
            *depth = size.depth;
            *most = size.most;
            0
        }
        Err(status) => status.code(),
    }
}

#[unsafe(no_mangle)]
pub extern "C" fn hikebox_policy_reads(policy: &mut Handle, reads: &mut u64) -> u32
    ensures { OnHeld (Kept Reads) policy.old.held policy.new.held (Tells result reads.old reads.new) }
{
    let Some(held) = policy.as_mut() else {
        return Status::Empty.code();
    };
    let answer = held.reads();
    tell(answer, reads)
}

#[unsafe(no_mangle)]
pub extern "C" fn hikebox_policy_json(
    alloc: Global,
    policy: &mut Handle,
    text: &mut [u8],
    length: &mut usize,
) -> u32
    ensures kept { policy.new.held ≡ policy.old.held }
    ensures json { Comes (WritesJson policy.old.held)
        (TellsText result text.old text.new length.old length.new) }
{
    let json = json_of(alloc, policy);
    tell_text(json, text, length)
}

fn json_of(alloc: Global, policy: &mut Handle) -> Result<String, Status>
    ensures kept { policy.new.held ≡ policy.old.held }
    ensures json { WritesJson policy.old.held result }
{
    let plan = policy.plan()?;
    match to_json(alloc, plan.get()) {
        Ok(text) => Ok(text),
        Err(_) => Err(Status::NoMemory),
    }
}

#[unsafe(no_mangle)]
pub extern "C" fn hikebox_policy_free(alloc: Global, policy: &mut Handle) -> u32
    ensures { Frees kind.Policy policy.old.held result policy.new.held }
{
    policy.free(alloc, Kind::Policy)
}
