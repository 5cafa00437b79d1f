//! Limits that services use: a bucket that failures empty and successes fill, a bound on what is in flight, an adaptive
//! one, a breaker and a throttle. Each call is a step of the limit's machine, by any number of threads, and `laws` says
//! what then holds. It stands on `sched_limit_word`, which has the word that the threads call.
#![tactic(auto)]

mod adaptive;
mod adaptive_machine;
mod breaker;
mod breaker_machine;
mod bucket;
mod by_hand;
mod in_flight;
pub mod laws;
mod quiet;
mod refusal;
mod refuses;
mod request;
mod results;
mod seen;
mod states;
mod step;
mod throttle;
mod throttle_machine;
mod turns;
mod window;
mod word;

pub use adaptive::{Adaptive, MAX_INSIDE};
pub use adaptive_machine::{inside_of, level_of};
pub use breaker::{Breaker, MAX_PROBES, MAX_TRIPS};
pub use breaker_machine::LAST_MOMENT;
pub use bucket::{Bucket, MAX_CAPACITY};
pub use in_flight::{InFlight, NO_MOST};
pub use quiet::Quiet;
pub use refusal::Refusal;
pub use refuses::Refuses;
pub use request::{Request, Told};
pub use results::MAX_RESULTS;
pub use seen::Seen;
pub use states::States;
pub use step::{call_of, lost_answer, lost_held, tell, tries_of};
pub use throttle::Throttle;
pub use turns::{Turn, count_of, counts_at, uncounted};
pub use window::MAX_COUNT;
