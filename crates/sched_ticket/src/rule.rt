//! The rule of a budget's table, and its kinds of atomic step.
//!
//! | Step | On the word | The stepping pass |
//! |---|---|---|
//! | `Draw` | 1 more drawn | gains the number found: a ticket below its floor, else a refusal |
//! | `Find` | drawn is read | has found it, and gains a refusal where it is not below its floor |
//! | `Win` | 1 more drawn, where it is what the pass has found | gains that number as a ticket, or what `Find` says |
//! | `Count` | 1 more made | stands for one more, by a split, where fewer than 65,536 were made; else a refused split |
//! | `Part` | none changes | gives that one, or parts, to a new pass |
//! | `Merge` | none changes | takes in another pass, which is spent |
//! | `Learn` | none changes | learns that its tickets are distinct |
//! | `Look` | made is read | is marked sole, and learns that it is the whole, or shared, and learns that it is not |
//! | `ReadLimit` | limit is read | its floor becomes the limit |
//! | `Raise` | limit becomes at least the number given | its floor becomes the limit; it keeps the greatest it gave |
ghost use Rattle.sched_ticket.specs.Rule.{IsKept};
ghost use Rattle.sched_ticket.specs.View.{first_view, blank_view, without_part, part_of, joined_view};
ghost use Rattle.sched_ticket.specs.Steps.{draws, finds, wins, counts, learns, looks, reads_limit, raises};

use crate::view::{Terms, View};
use atomic_table::{Join, Play, Split, TableRule};

/// The word that counts the numbers drawn. Each word has cache lines of its own: steps on one slow down none on
/// another.
pub(crate) const DRAWN: usize = 0;

/// The word that counts the passes made, or has all parts.
pub(crate) const MADE: usize = 16;

/// The word that is the limit.
pub(crate) const LIMIT: usize = 32;

/// The rule of the table behind every budget.
pub(crate) struct Rule;

impl TableRule<u8, View, Terms> for Rule {
    ghost holds = { IsKept };

    ghost first = { first_view };
}

pub(crate) struct Draw;

impl Play<u8, View> for Draw {
    ghost then = { draws };
}

pub(crate) struct Find;

impl Play<u8, View> for Find {
    ghost then = { finds };
}

pub(crate) struct Win;

impl Play<u8, View> for Win {
    ghost then = { wins };
}

pub(crate) struct Count;

impl Play<u8, View> for Count {
    ghost then = { counts };
}

pub(crate) struct Part;

impl Split<View> for Part {
    ghost left = { without_part };

    ghost right = { part_of };
}

pub(crate) struct Merge;

impl Join<View> for Merge {
    ghost both = { joined_view };

    ghost spent = { blank_view };
}

pub(crate) struct Learn;

impl Play<u8, View> for Learn {
    ghost then = { learns };
}

pub(crate) struct Look;

impl Play<u8, View> for Look {
    ghost then = { looks };
}

pub(crate) struct ReadLimit;

impl Play<u8, View> for ReadLimit {
    ghost then = { reads_limit };
}

pub(crate) struct Raise;

impl Play<u8, View> for Raise {
    ghost then = { raises };
}
