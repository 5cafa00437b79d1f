//! The calls of the library that play a storm, for programs in other languages. include/hikebox.h names them with
//! `hikebox_` before their names: there are their refusals, and what the caller owes. What they write is what
//! `sched_storm` reports, on which they stand; it adds up where it is on all requests.
#![tactic(auto)]

mod plays;
mod records;

pub use plays::{storm_play, storm_play_populations};
pub use records::{
    Policies, PopulationGiven, SizedStorm, SizedTotals, StormGiven, TotalsTold, WindowTold,
};
