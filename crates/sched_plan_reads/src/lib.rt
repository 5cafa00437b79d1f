//! What a plan reads of an event beside its moment: which of its random words, and whether its input. A lane is named
//! exactly where a node picks by its word, and the input exactly where a node takes one. It stands on the plan alone.
#![tactic(auto)]

mod nodes;

pub use nodes::reads;
