ghost use Rattle.std.specs.Prelude.{◌≡◌, IfOk, IsTrue};
ghost use Rattle.sched_plan.specs.Schedule.{is_valid, one as one_schedule, two as two_schedule};
ghost use Rattle.sched_step.specs.Progress.{fits, at_one, is_beside};
ghost use Rattle.sched_step.specs.StateOf.{event_of};
ghost use Rattle.sched_step.specs.Step.{answered, Steps};
ghost use Rattle.sched_step.specs.Tree.{next_two, present_two};

use crate::decisions::{join, meet};
use crate::kept::Kept;
use crate::leaves::begin;
use crate::trees::{Tree, TreeShape};
use crate::turns::{Moves, Turn, Turns};
use crate::walks::Walk;
use sched_plan::{One, Plan, PlanShape, Two, Val};
use sched_time::{Decision, NoMemory};

/// Notes in the tree what it will be after one more event, and makes `output` and `decision` what the plan answers.
///
/// It is inlined where it is called, and the functions of the nodes are not: so a leaf takes no call that goes down.
#[cycle(advance)]
#[tactic(auto, using(crate::proofs::laws::First::leaf_anew))]
#[inline(always)]
pub(crate) fn advance(
    walk: &Walk<'_>,
    plan: &Plan,
    tree: &mut Tree,
    output: &mut Val,
    decision: &mut Decision,
) -> Result<(), NoMemory>
    requires { IsTrue (fits plan.now tree.old.present walk.now.tick.now) }
    ensures present { tree.new.present ≡ tree.old.present }
    ensures step { IfOk result (λ _. Steps plan.now walk.now.fresh (event_of walk.now.tick walk.now.input.now)
        tree.old.present tree.new.next (answered output.new decision.new)) }
{
    match (plan.shape(), &mut tree.shape) {
        (PlanShape::Leaf(leaf), TreeShape::Leaf { present, next }) => {
            if walk.fresh {
                return begin(walk, leaf, next, output, decision);
            }
            present.step(walk, leaf, next, output, decision)
        }
        (PlanShape::One(node, plan), TreeShape::One(kept, tree)) => {
            advance_one(walk, node, plan, kept, tree, output, decision)
        }
        (PlanShape::Two(node, plans), TreeShape::Two(turns, sides)) => match *node {
            Two::Meet | Two::Join => {
                advance_beside(walk, *node, plans, turns, sides, output, decision)
            }
            Two::Follow => advance_follow(walk, plans, turns, sides, output, decision),
            Two::Feed => advance_feed(walk, plans, turns, sides, output, decision),
        },
        _ => unreachable!(),
    }
}

// A node over one plan: the plan is stepped, and the node makes its answer of the plan's.
#[cycle(advance)]
#[tactic(auto, using(crate::proofs::laws::First::one_anew))]
#[inline(never)]
fn advance_one(
    walk: &Walk<'_>,
    node: &One,
    plan: &Plan,
    kept: &mut Kept,
    tree: &mut Tree,
    output: &mut Val,
    decision: &mut Decision,
) -> Result<(), NoMemory>
    requires valid { IsTrue (is_valid (one_schedule node.now plan.now)) }
    requires fits { IsTrue (fits (one_schedule node.now plan.now)
        (at_one kept.old.present tree.old.present) walk.now.tick.now) }
    ensures kept { kept.new.present ≡ kept.old.present }
    ensures present { tree.new.present ≡ tree.old.present }
    ensures step { IfOk result (λ _. Steps (one_schedule node.now plan.now) walk.now.fresh
        (event_of walk.now.tick walk.now.input.now) (at_one kept.old.present tree.old.present)
        (at_one kept.new.next tree.new.next) (answered output.new decision.new)) }
{
    let begins = kept.begins(*node, walk.tick.now);
    let under = Walk {
        alloc: walk.alloc,
        tick: walk.tick,
        input: walk.input,
        fresh: walk.fresh || begins,
    };
    advance(&under, plan, tree, output, decision)?;
    kept.step(walk, node, output, decision)
}

// Two plans side by side: a meet goes on while both do, a join while one does. A plan that is done is stepped as well.
#[cycle(advance)]
#[tactic(auto, using(crate::proofs::laws::First::two_anew))]
#[inline(never)]
fn advance_beside(
    walk: &Walk<'_>,
    node: Two,
    plans: &(Plan, Plan),
    turns: &mut Turns,
    sides: &mut (Tree, Tree),
    output: &mut Val,
    decision: &mut Decision,
) -> Result<(), NoMemory>
    requires beside { IsTrue (is_beside node) }
    requires fits { IsTrue (fits (two_schedule node plans.now.0 plans.now.1)
        (present_two turns.old sides.old) walk.now.tick.now) }
    ensures present { present_two turns.new sides.new ≡ present_two turns.old sides.old }
    ensures step { IfOk result (λ _. Steps (two_schedule node plans.now.0 plans.now.1) walk.now.fresh
        (event_of walk.now.tick walk.now.input.now) (present_two turns.old sides.old)
        (next_two turns.new sides.new) (answered output.new decision.new)) }
{
    turns.next = Turn::Together;
    turns.moves = Moves::Both;
    let mut both = Box::new(walk.alloc, (Val::unit(), Val::unit()))?;
    let mut second = Decision::Done;
    advance(walk, &plans.0, &mut sides.0, &mut both.0, decision)?;
    advance(walk, &plans.1, &mut sides.1, &mut both.1, &mut second)?;
    *output = Val::of_both(both);
    *decision = match node {
        Two::Meet => meet(*decision, second),
        Two::Join => join(*decision, second),
        Two::Follow | Two::Feed => unreachable!(),
    };
    Ok(())
}

// Two plans one through the other: the input of the second is the output of the first.
#[cycle(advance)]
#[tactic(auto, using(crate::proofs::laws::First::two_anew))]
#[inline(never)]
fn advance_feed(
    walk: &Walk<'_>,
    plans: &(Plan, Plan),
    turns: &mut Turns,
    sides: &mut (Tree, Tree),
    output: &mut Val,
    decision: &mut Decision,
) -> Result<(), NoMemory>
    requires { IsTrue (fits (two_schedule Two.Feed plans.now.0 plans.now.1)
        (present_two turns.old sides.old) walk.now.tick.now) }
    ensures present { present_two turns.new sides.new ≡ present_two turns.old sides.old }
    ensures step { IfOk result (λ _. Steps (two_schedule Two.Feed plans.now.0 plans.now.1) walk.now.fresh
        (event_of walk.now.tick walk.now.input.now) (present_two turns.old sides.old)
        (next_two turns.new sides.new) (answered output.new decision.new)) }
{
    turns.next = Turn::Together;
    turns.moves = Moves::Both;
    let mut fed = Val::unit();
    let mut first = Decision::Done;
    advance(walk, &plans.0, &mut sides.0, &mut fed, &mut first)?;
    let through = Walk {
        alloc: walk.alloc,
        tick: walk.tick,
        input: &fed,
        fresh: walk.fresh,
    };
    advance(&through, &plans.1, &mut sides.1, output, decision)?;
    *decision = meet(first, *decision);
    Ok(())
}

// Two plans in turn: the first until it is done; that event and all later ones go to the second.
#[cycle(advance)]
#[tactic(auto, using(crate::proofs::laws::First::two_anew))]
#[inline(never)]
fn advance_follow(
    walk: &Walk<'_>,
    plans: &(Plan, Plan),
    turns: &mut Turns,
    sides: &mut (Tree, Tree),
    output: &mut Val,
    decision: &mut Decision,
) -> Result<(), NoMemory>
    requires { IsTrue (fits (two_schedule Two.Follow plans.now.0 plans.now.1)
        (present_two turns.old sides.old) walk.now.tick.now) }
    ensures present { present_two turns.new sides.new ≡ present_two turns.old sides.old }
    ensures step { IfOk result (λ _. Steps (two_schedule Two.Follow plans.now.0 plans.now.1) walk.now.fresh
        (event_of walk.now.tick walk.now.input.now) (present_two turns.old sides.old)
        (next_two turns.new sides.new) (answered output.new decision.new)) }
{
    if let Turn::Crossed = turns.present.origin(walk.fresh, Two::Follow) {
        turns.next = Turn::Crossed;
        turns.moves = Moves::OnlySecond;
        return advance(walk, &plans.1, &mut sides.1, output, decision);
    }
    advance(walk, &plans.0, &mut sides.0, output, decision)?;
    if let Decision::Go(_) = *decision {
        turns.next = Turn::Uncrossed;
        turns.moves = Moves::OnlyFirst;
        if walk.fresh {
            // Tells what the proof rests on: that the moment is within `FAR`.
            let _millis = walk.tick.now.get();
            turns.moves = Moves::Both;
            sides.1.restart(&plans.1);
        }
        return Ok(());
    }
    turns.next = Turn::Crossed;
    turns.moves = Moves::Both;
    advance(walk, &plans.1, &mut sides.1, output, decision)
}
