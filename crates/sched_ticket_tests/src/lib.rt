//! Tests of `sched_ticket`, `sched_ticket_quota` and `sched_ticket_lease` by their public calls alone: what the tests
//! in C (`tests/library.c`, `tests/leases.c`) do not do. They stand apart so that they are proved without a second
//! proof of those libraries.
#![tactic(auto)]

#[cfg(test)]
mod tests;
