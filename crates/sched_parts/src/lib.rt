//! A box taken apart: its pointer and its allocator, beside the value that it owns. What hands a pointer to a host that
//! is not written in Rattle is made of these parts, and becomes a box again. They stand on the kit's boxes alone.
#![tactic(auto)]

mod parts;

pub use parts::Parts;
