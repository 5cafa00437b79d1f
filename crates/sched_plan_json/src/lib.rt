//! Plans from JSON: reads the plan that a JSON value or a text spells. It returns that plan, or the first fault of the
//! value; `specs/` defines that plan node by node. It stands on `sched_plan` and on the kit's `serde_json`.
#![tactic(auto)]

mod faults;
mod forms;
mod leaves;
mod nodes;
mod plans;
mod spelling;
mod texts;
mod words;

pub use faults::ReadFault;
pub use leaves::LeafNode;
pub use nodes::{Node, OneNode};
pub use plans::read_plan;
pub use spelling::read_node;
pub use texts::{TextFault, read_text};
