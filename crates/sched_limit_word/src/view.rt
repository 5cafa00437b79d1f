//! What a pass knows of its limit. The rule of the table speaks of these views, and of no other thread's memory.

use crate::call::Call;
use std::collections::LinkedList;

/// A call that changed the word. No value of it is made: it stands in proofs alone.
pub struct Move {
    pub call: Call,
    /// The word that the call found.
    pub found: u64,
    /// The word that it left.
    pub left: u64,
}

/// What a pass has done. No value of it is made.
pub struct View {
    /// Its moves, the latest first, and then those of passes joined into it.
    pub moves: LinkedList<Move>,
    /// The word as it last found or left it.
    pub seen: u64,
    /// The parts that it stands for. A view of weight 0 is spent.
    pub weight: u64,
    /// How often it read the word.
    pub looks: u64,
    /// How many races it lost since its last look.
    pub losses: u64,
}
