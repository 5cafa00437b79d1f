//! What a pass knows of its budget. The rule of the table speaks of these views, and of no other thread's memory.

use std::collections::LinkedList;

/// What a budget was made with: its first limit, whether the limit may rise, and how its passes are told.
#[derive(Clone, Copy, Drop)]
pub struct Terms {
    /// The first limit.
    pub limit: u64,
    /// Whether it may be raised.
    pub rises: bool,
    /// Whether its passes stand for parts. Else they are counted.
    pub by_parts: bool,
}

/// What the last look at the number of passes showed.
pub enum Mark {
    /// There was no look since the pass was made or took in another.
    Unseen,
    /// This pass stands for all.
    Sole,
    /// Another pass is alive, or was dropped.
    Shared,
}

/// A number that a draw found too high, with the limit that the draw knew. By parts the draw leaves it to others.
pub struct Refusal {
    /// The number found.
    pub number: u64,
    /// The limit that the draw knew.
    pub floor: u64,
}

/// What a pass has of its budget. No value of it is made: it stands in proofs alone.
pub struct View {
    /// What the budget was made with.
    pub terms: Terms,
    /// Its tickets, the latest first, and then those of passes joined into it.
    pub tickets: LinkedList<u64>,
    /// The numbers that its draws found too high.
    pub refusals: LinkedList<Refusal>,
    /// The greatest limit that this pass has found. The limit is never below it.
    pub floor: u64,
    /// The passes that it stands for, or the parts. A view of weight 0 is spent.
    pub weight: u64,
    /// How many counted passes were split from it, and from those joined into it.
    pub splits: u64,
    /// How often a split was refused after it was counted.
    pub refused_splits: u64,
    /// What its last look showed.
    pub mark: Mark,
    /// How often the limit was read or raised.
    pub readings: u64,
    /// How many draws it has found made. There are never fewer.
    pub found: u64,
    /// The greatest number that it raised the limit to, 0 where it raised none.
    pub raised_to: u64,
}
