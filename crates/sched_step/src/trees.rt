ghost use Rattle.std.specs.Prelude.{◌≡◌, [], IfOk, IsTrue};
ghost use Rattle.sched_time.specs.declared.numbers.TheConstants.{FAR};
ghost use Rattle.sched_step.specs.Progress.{fits, view_of};
ghost use Rattle.sched_step.specs.StateOf.{state_of};
ghost use Rattle.sched_step.specs.Tree.{first_next, second_next};

use crate::kept::Kept;
use crate::leaves::LeafState;
use crate::turns::{Moves, Turn, Turns};
use sched_plan::{Plan, PlanShape, Val};
use sched_time::{Moment, NoMemory};
use std::alloc::Global;
use std::marker::Model;

/// How far a plan has come, and how far it will have come once the step under way is taken: a tree of the plan's shape.
///
/// A step first notes what will be, and takes memory for outputs alone. So a refused one leaves what is as it was, and
/// `commit`, which takes no memory, can't be refused.
#[cycle(tree)]
#[derive(Drop)]
pub(crate) struct Tree {
    pub(crate) shape: TreeShape,
}

#[cycle(tree)]
#[derive(Drop)]
pub(crate) enum TreeShape {
    /// What is kept of a leaf's events.
    Leaf { present: LeafState, next: LeafState },
    /// What a node over one plan keeps, and the plan's state.
    One(Kept, Box<Tree>),
    /// Whose turn it is of two plans, and their states.
    Two(Turns, Box<(Tree, Tree)>),
}

impl Model for Tree {
    ghost use Rattle.sched_step.specs.Phases.{Phases, coded_phases};

    ghost Value = { Phases };

    ghost coded = { coded_phases };

    ghost use Rattle.sched_step.specs.Tree.{phases_of};

    ghost view = { λ t. phases_of t.shape };

    ghost use Rattle.sched_step.specs.ProgressSize.{progress_size};

    ghost size = { λ s. progress_size s.present };

    ghost use Rattle.sched_step.specs.TreeFalls.{deep_le-progress_size};

    ghost size_decreases = { λ t h. deep_le-progress_size t.shape };
}

impl Tree {
    /// Before the first event. Fails only with `NoMemory`.
    pub(crate) fn initial(alloc: Global, plan: &Plan) -> Result<Tree, NoMemory>
        ensures { IfOk result (λ tree. tree.present ≡ state_of plan.now []) }
    {
        let shape = match plan.shape() {
            PlanShape::Leaf(leaf) => {
                let present = LeafState::initial(*leaf);
                TreeShape::Leaf {
                    present,
                    next: present,
                }
            }
            PlanShape::One(node, plan) => {
                let tree = Tree::initial(alloc, plan)?;
                TreeShape::One(Kept::initial(alloc, *node), Box::new(alloc, tree)?)
            }
            PlanShape::Two(node, plans) => {
                let first = Tree::initial(alloc, &plans.0)?;
                let second = Tree::initial(alloc, &plans.1)?;
                TreeShape::Two(
                    Turns::at(Turn::initial(*node)),
                    Box::new(alloc, (first, second))?,
                )
            }
        };
        Ok(Tree { shape })
    }

    /// A tree that is what this one is. Fails only with `NoMemory`.
    pub(crate) fn copy(&self, alloc: Global) -> Result<Tree, NoMemory>
        ensures { IfOk result (λ tree. tree.present ≡ self.now.present) }
    {
        let shape = match &self.shape {
            TreeShape::Leaf { present, .. } => TreeShape::Leaf {
                present: *present,
                next: *present,
            },
            TreeShape::One(kept, tree) => {
                let tree = tree.copy(alloc)?;
                TreeShape::One(kept.copy(alloc)?, Box::new(alloc, tree)?)
            }
            TreeShape::Two(turns, sides) => {
                let first = sides.0.copy(alloc)?;
                let second = sides.1.copy(alloc)?;
                TreeShape::Two(Turns::at(turns.present), Box::new(alloc, (first, second))?)
            }
        };
        Ok(Tree { shape })
    }

    /// The value that shows how far the plan has come. Fails only with `NoMemory`.
    pub(crate) fn view(&self, alloc: Global) -> Result<Val, NoMemory>
        ensures { IfOk result (λ v. v ≡ view_of self.now.present) }
    {
        match &self.shape {
            TreeShape::Leaf { present, .. } => present.view(alloc),
            TreeShape::One(kept, tree) => {
                let plan = tree.view(alloc)?;
                kept.view(alloc, plan)
            }
            TreeShape::Two(turns, sides) => {
                let first = sides.0.view(alloc)?;
                let second = sides.1.view(alloc)?;
                turns.present.view(alloc, first, second)
            }
        }
    }

    /// Whether it is of the plan's shape and keeps no first moment after `now`.
    pub(crate) fn fits(&self, plan: &Plan, now: Moment) -> bool
        ensures { result ≡ fits plan.now self.now.present now }
    {
        match (plan.shape(), &self.shape) {
            (PlanShape::Leaf(leaf), TreeShape::Leaf { present, .. }) => {
                present.is_of(*leaf) && present.began_by(now)
            }
            (PlanShape::One(node, plan), TreeShape::One(kept, tree)) => {
                kept.is_of(*node) && kept.began_by(now) && tree.fits(plan, now)
            }
            (PlanShape::Two(node, plans), TreeShape::Two(turns, sides)) => {
                turns.present.fits(*node)
                    && sides.0.fits(&plans.0, now)
                    && sides.1.fits(&plans.1, now)
            }
            _ => false,
        }
    }

    /// The step under way takes it back to before the first event. It takes no memory.
    pub(crate) fn restart(&mut self, plan: &Plan)
        requires { IsTrue (fits plan.now self.old.present FAR) }
        ensures present { self.new.present ≡ self.old.present }
        ensures next { self.new.next ≡ state_of plan.now [] }
    {
        match (plan.shape(), &mut self.shape) {
            (PlanShape::Leaf(leaf), TreeShape::Leaf { next, .. }) => {
                *next = LeafState::initial(*leaf);
            }
            (PlanShape::One(node, plan), TreeShape::One(kept, tree)) => {
                kept.restart(*node);
                tree.restart(plan);
            }
            (PlanShape::Two(node, plans), TreeShape::Two(turns, sides)) => {
                turns.next = Turn::initial(*node);
                turns.moves = Moves::Both;
                sides.0.restart(&plans.0);
                sides.1.restart(&plans.1);
            }
            _ => unreachable!(),
        }
    }

    /// The step under way is taken: it is now what it was to be. It takes no memory, and leaves what doesn't move
    /// alone. Inlined as a step is.
    #[cycle(commit)]
    #[inline(always)]
    pub(crate) fn commit(&mut self)
        ensures { self.new.present ≡ self.old.next }
    {
        match &mut self.shape {
            TreeShape::Leaf { present, next } => *present = *next,
            TreeShape::One(kept, tree) => commit_one(kept, tree),
            TreeShape::Two(turns, sides) => commit_two(turns, sides),
        }
    }
}

#[cycle(commit)]
#[inline(never)]
fn commit_one(kept: &mut Kept, tree: &mut Tree)
    ensures kept { kept.new.present ≡ kept.old.next }
    ensures tree { tree.new.present ≡ tree.old.next }
{
    kept.commit();
    tree.commit();
}

#[cycle(commit)]
#[inline(never)]
fn commit_two(turns: &mut Turns, sides: &mut (Tree, Tree))
    ensures turn { turns.new.present ≡ turns.old.next }
    ensures first { sides.new.0.present ≡ first_next turns.old.moves sides.old.0 }
    ensures second { sides.new.1.present ≡ second_next turns.old.moves sides.old.1 }
{
    turns.present = turns.next;
    match turns.moves {
        Moves::Both => {
            sides.0.commit();
            sides.1.commit();
        }
        Moves::OnlyFirst => sides.0.commit(),
        Moves::OnlySecond => sides.1.commit(),
    }
}
