//! The command-line interface of the program `zsched`, under one name: it reads the command line, does the command with
//! its input, and writes the answer. What it writes, and the message and the exit status where it stops, are defined in
//! `specs/`. It stands on the other crates of the command line.
#![tactic(auto)]

mod answers;
mod stops;
mod storms;
mod texts;

pub use answers::answer;
pub use sched_cli_check::{jobs_fault, print_check};
pub use sched_cli_plan::{
    Counted, MAX_INPUT, MAX_STEPS, PlanCourse, PlanOptions, PrintFault, Sink, Source, print_course,
    print_plan,
};
pub use sched_cli_pool::{PoolFault, print_pool, print_quota_pool};
pub use sched_cli_storm::print_storm;
pub use sched_cli_storm_words::{Form, StormOptions};
pub use sched_cli_words::{
    Asked, MAX_TICKETS, MAX_TURNS, MAX_WORKERS, Origin, PoolOptions, QuotaOptions, WordsFault,
    read_words,
};
pub use stops::{Stop, Told};
pub use storms::with_texts;
