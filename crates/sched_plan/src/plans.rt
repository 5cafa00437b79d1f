ghost use Rattle.std.specs.Prelude.{◌≡◌, ◌≤◌, ◌↔◌, true, IsTrue, IfOk};
ghost use Rattle.sched_plan.specs.Schedule.{nodes_of, depth_of, is_valid};

use crate::leaves::Leaf;
use crate::nodes::{One, Two};
use sched_time::NoMemory;
use std::alloc::Global;
use std::marker::Model;
use thiserror::Error;

mod builders;

/// The most nodes of a plan.
pub const MAX_NODES: usize = 256;

/// The greatest depth of a plan; a leaf has depth 1.
pub const MAX_DEPTH: usize = 32;

/// Why a builder refused a plan.
#[derive(Clone, Copy, Debug, PartialEq, Eq, Error)]
pub enum PlanFault {
    /// A parameter is outside its range.
    #[error("a parameter is out of range")]
    OutOfRange,
    /// The plan would be deeper than 32.
    #[error("the plan is too deep")]
    TooDeep,
    /// The plan would have more than 256 nodes.
    #[error("the plan has too many nodes")]
    TooMany,
    /// A growth was refused.
    #[error("no memory")]
    NoMemory,
}

/// A recurrence schedule as plain data: a tree of at most 256 nodes, at most 32 deep, with each parameter in its range.
#[cycle(plan)]
#[derive(Drop)]
pub struct Plan {
    shape: PlanShape,
    nodes: usize,
    depth: usize,
}

/// What a plan is made of.
#[cycle(plan)]
#[derive(Drop)]
pub enum PlanShape {
    /// A recurrence of its own.
    Leaf(Leaf),
    /// A node over one plan.
    One(One, Box<Plan>),
    /// A node over two plans, which stand in one box.
    Two(Two, Box<(Plan, Plan)>),
}

impl Model for Plan {
    ghost use Rattle.std.specs.Prelude.{◌≡◌, ◌≤◌, true};
    ghost use Rattle.sched_plan.specs.Schedule.{Schedule, nodes_of, depth_of, is_valid};
    ghost use Rattle.sched_plan.specs.ScheduleCode.{coded_schedule};

    ghost Value = { Schedule };

    ghost coded = { coded_schedule };

    ghost use Rattle.sched_plan.specs.Plan.{schedule_of, IsSound};

    ghost view = { λ p. schedule_of p.shape };

    ghost invariant = { λ p. IsSound (schedule_of p.shape) p.nodes p.depth };

    ghost size = { nodes_of };

    ghost use Rattle.sched_plan.specs.PlanFalls.{deep_le-nodes_of};

    ghost size_decreases = { λ p h. deep_le-nodes_of p.shape };
}

impl Plan {
    ghost use Rattle.sched_plan.specs.Plan.{schedule_of};

    /// The shape at the top, for a caller to match on.
    pub fn shape(&self) -> &PlanShape
        ensures value { schedule_of result.now ≡ self.now }
        ensures valid { IsTrue (is_valid self.now) }
    {
        &self.shape
    }

    /// How many nodes the plan has, at most 256.
    pub fn nodes(&self) -> usize
        ensures value { result ≡ nodes_of self.now }
        ensures few { result ≤ 256 }
    {
        self.nodes
    }

    /// How deep the plan is, at most 32.
    pub fn depth(&self) -> usize
        ensures value { result ≡ depth_of self.now }
        ensures shallow { result ≤ 32 }
    {
        self.depth
    }

    /// An equal plan. Fails only with `NoMemory`.
    pub fn copy(&self, alloc: Global) -> Result<Plan, NoMemory>
        ensures { IfOk result (λ plan. plan ≡ self.now) }
    {
        let shape = match &self.shape {
            PlanShape::Leaf(leaf) => PlanShape::Leaf(*leaf),
            PlanShape::One(node, plan) => {
                PlanShape::One(*node, Box::new(alloc, plan.copy(alloc)?)?)
            }
            PlanShape::Two(node, plans) => {
                let first = plans.0.copy(alloc)?;
                let second = plans.1.copy(alloc)?;
                PlanShape::Two(*node, Box::new(alloc, (first, second))?)
            }
        };
        Ok(Plan {
            shape,
            nodes: self.nodes,
            depth: self.depth,
        })
    }

    /// Whether both plans are the same tree with the same parameters.
    pub fn same(&self, other: &Plan) -> bool
        ensures { IsTrue result ↔ (self.now ≡ other.now) }
    {
        match (&self.shape, &other.shape) {
            (PlanShape::Leaf(a), PlanShape::Leaf(b)) => a == b,
            (PlanShape::One(k, a), PlanShape::One(l, b)) => k == l && a.same(b),
            (PlanShape::Two(k, a), PlanShape::Two(l, b)) => {
                k == l && a.0.same(&b.0) && a.1.same(&b.1)
            }
            _ => false,
        }
    }
}
