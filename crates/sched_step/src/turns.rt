ghost use Rattle.std.specs.Prelude.{◌≡◌, IfOk};
ghost use Rattle.sched_plan.specs.Datum.{num};
ghost use Rattle.sched_step.specs.Progress.{two_view, two_keeps};
ghost use Rattle.sched_step.specs.StateOf.{first_turn};
ghost use Rattle.sched_step.specs.Step.{turn_origin};

use sched_plan::{Two, Val};
use sched_time::{Millis, NoMemory};
use std::alloc::Global;

/// Whose turn it is of two plans.
#[derive(Clone, Copy, Debug, PartialEq, Eq)]
pub(crate) enum Turn {
    /// Both are stepped side by side.
    Together,
    /// The first one's, which was never done.
    Uncrossed,
    /// The second one's.
    Crossed,
}

/// Which of two plans the step under way moves.
#[derive(Clone, Copy, Debug, PartialEq, Eq)]
pub(crate) enum Moves {
    Both,
    OnlyFirst,
    OnlySecond,
}

/// Whose turn it is, whose it will be, and which plans the step under way moves.
#[derive(Clone, Copy, Debug, PartialEq, Eq)]
pub(crate) struct Turns {
    pub(crate) present: Turn,
    pub(crate) next: Turn,
    pub(crate) moves: Moves,
}

impl Turn {
    /// Before the first event.
    pub(crate) fn initial(node: Two) -> Turn
        ensures { result ≡ first_turn node }
    {
        match node {
            Two::Meet | Two::Join | Two::Feed => Turn::Together,
            Two::Follow => Turn::Uncrossed,
        }
    }

    /// Where a step is made that may begin anew.
    pub(crate) fn origin(self, fresh: bool, node: Two) -> Turn
        ensures { result ≡ turn_origin fresh node self }
    {
        if fresh { Turn::initial(node) } else { self }
    }

    /// Both values as one; of two plans in turn also whether the first is done.
    pub(crate) fn view(self, alloc: Global, first: Val, second: Val) -> Result<Val, NoMemory>
        ensures { IfOk result (λ v. v ≡ two_view self first second) }
    {
        let both = Val::pair(alloc, first, second)?;
        match self {
            Turn::Together => Ok(both),
            Turn::Uncrossed => Val::pair(alloc, Val::from(Millis::from(0)), both),
            Turn::Crossed => Val::pair(alloc, Val::from(Millis::from(1)), both),
        }
    }

    /// Whether a node of this kind has such turns.
    pub(crate) fn fits(self, node: Two) -> bool
        ensures { result ≡ two_keeps node self }
    {
        match (node, self) {
            (Two::Meet | Two::Join | Two::Feed, Turn::Together) => true,
            (Two::Follow, Turn::Uncrossed | Turn::Crossed) => true,
            _ => false,
        }
    }
}

impl Turns {
    /// With no step under way.
    pub(crate) fn at(turn: Turn) -> Turns
        ensures { result.present ≡ turn }
    {
        Turns {
            present: turn,
            next: turn,
            moves: Moves::Both,
        }
    }
}
