//! A limit whose word a store keeps, as a file does for several processes. `laws` says what then holds, however the
//! calls of all requests follow one another, and wherever a request stops. It stands on `sched_limit::tell`: each call
//! is one step of the limit on the stored word.
#![tactic(auto)]

pub mod laws;
