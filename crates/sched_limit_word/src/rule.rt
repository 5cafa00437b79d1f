//! The rule of a limit's table, and its kinds of atomic step.
//!
//! | Step | On the word | The stepping pass |
//! |---|---|---|
//! | `Look` | the word is read | has seen it, and has lost no race since |
//! | `Try` | the word becomes another, where it is the one expected | gains the move, or a loss |
//! | `Part` | none changes | gives some of its parts to a new pass |
//! | `Merge` | none changes | takes in another pass, which is spent |
//! | `Learn` | none changes | learns how many parts it has, and where it has all that its moves are the run |
ghost use Rattle.sched_limit_word.specs.Tokens.{IsOwned};
ghost use Rattle.sched_limit_word.specs.View.{first_view, blank_view, without_part, part_of, joined_view};
ghost use Rattle.sched_limit_word.specs.Steps.{looks, tries, learns};

use crate::call::Call;
use crate::machine::Machine;
use crate::view::View;
use atomic_table::{Join, Play, Split, TableRule};
use std::marker::PhantomData;

/// Which word is the limit's. There are 16 words, so that it lies on a cache line of its own.
pub(crate) const WORD: usize = 8;

/// The rule of the table behind every limit of a machine.
pub(crate) struct Rule<M: Machine> {
    of: PhantomData<M>,
}

impl<M: Machine> TableRule<Call, View, M> for Rule<M> {
    ghost holds = { λ m. IsOwned (M.tokens m) (M.next m) (M.first m) };

    ghost first = { λ m. first_view (M.first m) };
}

pub(crate) struct Look;

impl Play<Call, View> for Look {
    ghost then = { looks };
}

pub(crate) struct Try;

impl Play<Call, View> for Try {
    ghost then = { tries };
}

pub(crate) struct Part;

impl Split<View> for Part {
    ghost left = { without_part };

    ghost right = { part_of };
}

pub(crate) struct Merge;

impl Join<View> for Merge {
    ghost both = { joined_view };

    ghost spent = { blank_view };
}

pub(crate) struct Learn;

impl Play<Call, View> for Learn {
    ghost then = { learns };
}
