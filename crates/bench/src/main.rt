//! Does again and again what a script measures from outside: `bench [WHAT [WORD..]]`, where WHAT is the name of a
//! module here, and the words are its own. With no word each of them is done once. They print counts and no time.
#![tactic(auto)]

use std::alloc::AllocGlobal;
use std::random::RandomSource;
use std::rt::Runtime;
use std::sync::Wait;
use std::thread::Threads;
use std::{env, io};

mod board;
mod call;
mod draw;
mod limit;
mod quota;
mod retry;
mod steps;
mod tasks;

fn main(rt: HostRuntime) -> io::Result<()> {
    match env::args(&rt)?.nth(1) {
        Some(what) => bench(&rt, what.as_str()),
        None => bench_all(&rt),
    }
}

fn bench<R>(rt: &R, what: &str) -> io::Result<()>
where
    R: Runtime + Threads + Wait + RandomSource + AllocGlobal + Sync,
{
    match what {
        "draw" => draw::bench(rt),
        "quota" => quota::bench(rt),
        "limit" => limit::bench(rt),
        "steps" => steps::bench(rt),
        "call" => call::bench(rt),
        "retry" => retry::bench(rt),
        "tasks" => tasks::bench(rt),
        "board" => board::bench(rt),
        _ => println!(rt; "{what}: no benchmark"),
    }
}

fn bench_all<R>(rt: &R) -> io::Result<()>
where
    R: Runtime + Threads + Wait + RandomSource + AllocGlobal + Sync,
{
    draw::bench(rt)?;
    quota::bench(rt)?;
    limit::bench(rt)?;
    steps::bench(rt)?;
    call::bench(rt)?;
    retry::bench(rt)?;
    tasks::bench(rt)?;
    board::bench(rt)
}
