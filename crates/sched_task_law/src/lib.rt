//! The law of a task by its plan and its deadline, which is true of it between any two polls, and one poll of it, as a
//! step of a machine. Whatever may happen in a poll leaves the law. These are definitions and their proofs, which
//! contracts of other crates cite; they stand on drivers (`sched_driver`) and effects (`sched_effect`).
#![tactic(auto)]
