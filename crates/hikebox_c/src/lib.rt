//! Hikebox for C, as include/hikebox.h declares it: the exports for programs in C, or in any language that calls C. The
//! clauses of each say what it does to the handles and the memory that it is given; the header lists its refusals, and
//! what the caller owes. It stands on `sched_handle`, and on the crates that read, write and step policies.
#![tactic(auto)]

mod courses;
mod joins;
mod kept;
mod leased;
mod leases;
mod limits;
mod looks;
mod paces;
mod paces_kept;
mod passes;
mod policies;
mod retries;
mod runs;
mod states;
mod storms;
mod texts;
