//! Checks what is left where memory is refused: `checks [growths|polls]`, of calls that ask for memory, or of polls;
//! with no word both.
//!
//! A script runs it with each growth refused in turn; status 5 says that something else than such a call or poll was
//! refused memory.
#![tactic(auto)]

use std::env;
use std::process::ExitCode;

mod growths;
mod polls;

fn main(rt: HostRuntime) -> ExitCode {
    let Ok(mut words) = env::args(&rt) else {
        return ExitCode::from(5);
    };
    let word = words.nth(1);
    let word = match &word {
        Some(word) => word.as_str(),
        None => "both",
    };
    if word != "polls" && growths::run(&rt).is_none() {
        return ExitCode::from(5);
    }
    if word == "growths" {
        return ExitCode::SUCCESS;
    }
    let Some(queue) = polls::queue_of_one(&rt) else {
        return ExitCode::from(5);
    };
    let Some(mut cx) = queue.next(&rt) else {
        return ExitCode::from(5);
    };
    let polled = polls::run(&rt, &mut cx);
    cx.cancel();
    match polled {
        Some(()) => ExitCode::SUCCESS,
        None => ExitCode::from(5),
    }
}
