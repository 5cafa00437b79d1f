//! The rule of a quota's table, and its kinds of atomic step.
//!
//! | Step | On the word | The stepping pass |
//! |---|---|---|
//! | `Read` | requests are read | has seen them |
//! | `Glance` | the terms are read | has read them |
//! | `Change` | the terms become others | has set them |
//! | `Note` | the requests of the window before become as many as were seen, where they are less | learns nothing |
//! | `Open` | requests become a window's first number, where they are less | has opened that window, and seen them |
//! | `Count` | some more requests | gains their numbers |
//! | `Find` | draws are read | has found them, and has lost no race since |
//! | `Review` | the requests of the window before are read | has read them |
//! | `Win` | draws become the one after its next ticket, where they are as found | gains the ticket; else, a loss |
//! | `Recall` | those handed back are read | has read them |
//! | `Ask` | those handed back are read | has read them, and has lost no race since |
//! | `Return` | those handed back become one more, if they are as read | hands back its latest ticket; else, a loss |
//! | `Lapse` | none changes | hands back its latest ticket, of a window that is over |
//! | `Part` | none changes | gives some of its parts to a new pass |
//! | `Merge` | none changes | takes in another pass, which is spent |
//! | `Learn` | none changes | learns that its tickets are distinct, and where it has all parts that it is the whole |
ghost use Rattle.sched_ticket_quota.specs.Rule.{IsKept};
ghost use Rattle.sched_ticket_quota.specs.View.{first_of_kind, blank_view, without_part, part_of, joined_view};
ghost use Rattle.sched_ticket_quota.specs.Steps.{reads, glances, changes, opens, counts, finds, wins, learns};
ghost use Rattle.sched_ticket_quota.specs.Steps.{notes, reviews, recalls, asks, returns, lapses};

use crate::view::{Kind, View};
use atomic_table::{Join, Play, Split, TableRule};

/// The rule of the table behind every quota.
pub(crate) struct Rule;

impl TableRule<u8, View, Kind> for Rule {
    ghost holds = { λ key. IsKept key.terms };

    ghost first = { λ key. first_of_kind key.carries key.terms };
}

pub(crate) struct Read;

impl Play<u8, View> for Read {
    ghost then = { reads };
}

pub(crate) struct Glance;

impl Play<u8, View> for Glance {
    ghost then = { glances };
}

pub(crate) struct Change;

impl Play<u8, View> for Change {
    ghost then = { changes };
}

pub(crate) struct Note;

impl Play<u8, View> for Note {
    ghost then = { notes };
}

pub(crate) struct Open;

impl Play<u8, View> for Open {
    ghost then = { opens };
}

pub(crate) struct Count;

impl Play<u8, View> for Count {
    ghost then = { counts };
}

pub(crate) struct Find;

impl Play<u8, View> for Find {
    ghost then = { finds };
}

pub(crate) struct Review;

impl Play<u8, View> for Review {
    ghost then = { reviews };
}

pub(crate) struct Win;

impl Play<u8, View> for Win {
    ghost then = { wins };
}

pub(crate) struct Recall;

impl Play<u8, View> for Recall {
    ghost then = { recalls };
}

pub(crate) struct Ask;

impl Play<u8, View> for Ask {
    ghost then = { asks };
}

pub(crate) struct Return;

impl Play<u8, View> for Return {
    ghost then = { returns };
}

pub(crate) struct Lapse;

impl Play<u8, View> for Lapse {
    ghost then = { lapses };
}

pub(crate) struct Part;

impl Split<View> for Part {
    ghost left = { without_part };

    ghost right = { part_of };
}

pub(crate) struct Merge;

impl Join<View> for Merge {
    ghost both = { joined_view };

    ghost spent = { blank_view };
}

pub(crate) struct Learn;

impl Play<u8, View> for Learn {
    ghost then = { learns };
}
