ghost use Rattle.std.specs.Prelude.{◌≡◌, ◌&&◌, Some};
ghost use Rattle.sched_plan.specs.Datum.{num};
ghost use Rattle.sched_step_flat.specs.Parts.{wanted, number_datum, if_whole, picking, under};
ghost use Rattle.sched_step_flat.specs.Parts.{reads_output, of_first, of_second};
ghost use Rattle.sched_step_flat.specs.Parts.{is_undivided, leaf_is_flat, one_is_flat, is_flat};

use sched_plan::{Fold, Leaf, One, Plan, PlanShape, Side, Two};

/// Which part of an output is read.
#[derive(Clone, Copy, Debug, PartialEq, Eq)]
pub(crate) enum Part {
    Unread,
    Whole,
    /// The first part of a pair.
    FirstOf,
    /// The second part of a pair.
    SecondOf,
}

/// What is read of an output that is this number.
#[inline(always)]
pub(crate) fn read_number(part: Part, number: u64) -> Option<u64>
    ensures { result ≡ wanted part (num number) }
{
    match part {
        Part::Whole => Some(number),
        Part::Unread | Part::FirstOf | Part::SecondOf => None,
    }
}

/// What is read of an output that is this number or nothing.
#[inline(always)]
pub(crate) fn read_input(part: Part, number: Option<u64>) -> Option<u64>
    ensures { result ≡ wanted part (number_datum number) }
{
    match part {
        Part::Whole => number,
        Part::Unread | Part::FirstOf | Part::SecondOf => None,
    }
}

/// The number, where the whole is read.
#[inline(always)]
pub(crate) fn if_whole(part: Part, number: Option<u64>) -> Option<u64>
    ensures { result ≡ if_whole part number }
{
    match part {
        Part::Whole => number,
        Part::Unread | Part::FirstOf | Part::SecondOf => None,
    }
}

// The part, where the whole of a pick is read.
fn picking(part: Part, wants: Part) -> Part
    ensures { result ≡ picking part wants }
{
    match wants {
        Part::Whole => part,
        Part::Unread | Part::FirstOf | Part::SecondOf => Part::Unread,
    }
}

/// What is read of the output of the plan under a node, where this part is read of the node's.
#[inline(always)]
pub(crate) fn under(node: One, part: Part) -> Part
    ensures { result ≡ under node part }
{
    match node {
        One::Gate {
            side: Side::Output,
            ..
        }
        | One::Gather(Fold::Sum | Fold::Max)
        | One::AddOut => Part::Whole,
        One::Gather(Fold::Count | Fold::List) | One::Nothing => Part::Unread,
        One::First => picking(Part::FirstOf, part),
        One::Second => picking(Part::SecondOf, part),
        _ => part,
    }
}

/// Whether a node reads the output of the plan under it, where nothing is read of the node's.
#[inline(always)]
pub(crate) fn reads_output(node: One) -> bool
    ensures { result ≡ reads_output node }
{
    matches!(
        node,
        One::Gate {
            side: Side::Output,
            ..
        } | One::Gather(Fold::Sum | Fold::Max)
            | One::AddOut
    )
}

/// What is read of a pair's first output, where this part is read of the pair.
#[inline(always)]
pub(crate) fn of_first(part: Part) -> Part
    ensures { result ≡ of_first part }
{
    match part {
        Part::FirstOf => Part::Whole,
        Part::Unread | Part::Whole | Part::SecondOf => Part::Unread,
    }
}

/// What is read of a pair's second output.
#[inline(always)]
pub(crate) fn of_second(part: Part) -> Part
    ensures { result ≡ of_second part }
{
    match part {
        Part::SecondOf => Part::Whole,
        Part::Unread | Part::Whole | Part::FirstOf => Part::Unread,
    }
}

// Whether no part of a pair is read.
fn is_undivided(part: Part) -> bool
    ensures { result ≡ is_undivided part }
{
    match part {
        Part::Unread | Part::Whole => true,
        Part::FirstOf | Part::SecondOf => false,
    }
}

// Whether one number of the leaf's output is all that is read of it.
fn leaf_is_flat(leaf: Leaf, part: Part) -> bool
    ensures { result ≡ leaf_is_flat leaf part }
{
    match leaf {
        Leaf::Identity => is_undivided(part),
        _ => true,
    }
}

// Whether one number of the output under the node is all that is read of it.
fn one_is_flat(node: One, part: Part) -> bool
    ensures { result ≡ one_is_flat node part }
{
    match node {
        One::Gate {
            side: Side::Output,
            ..
        }
        | One::AddOut
        | One::First
        | One::Second => is_undivided(part),
        _ => true,
    }
}

/// Whether one number, or none, is all that is read of each output of the plan, where this part of its own is read.
pub(crate) fn is_flat(plan: &Plan, part: Part) -> bool
    ensures { result ≡ is_flat plan.now part }
{
    match plan.shape() {
        PlanShape::Leaf(leaf) => leaf_is_flat(*leaf, part),
        PlanShape::One(node, plan) => {
            one_is_flat(*node, part) && is_flat(plan, under(*node, part))
        }
        PlanShape::Two(node, plans) => match *node {
            Two::Meet | Two::Join => {
                is_flat(&plans.0, of_first(part)) && is_flat(&plans.1, of_second(part))
            }
            Two::Follow => is_flat(&plans.0, part) && is_flat(&plans.1, part),
            Two::Feed => is_flat(&plans.0, Part::Whole) && is_flat(&plans.1, part),
        },
    }
}
