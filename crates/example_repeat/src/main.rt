//! `example_repeat FILE` polls a file's size at fixed boundaries, each 100 milliseconds after the one before, for a
//! second. It prints the size polled last, and on standard error how far past a boundary each poll came.
#![tactic(auto)]

use anyhow::{Context, Result, bail};
use sched_run::{
    Action, Call, Ending, MidWords, Moment, Plan, PlanFault, Repeat, Stepper, SystemClock, Tagged,
    Timed, block_on,
};
use std::alloc::{AllocGlobal, Global};
use std::random::RandomSource;
use std::rt::{Files, Runtime};
use std::sync::Wait;
use std::{env, fs, io};

// What is repeated: to look how many bytes this file has.
#[derive(Drop)]
struct FileSize<'a, R> {
    rt: &'a R,
    path: &'a str,
}

impl<'a, R: Files> Action for FileSize<'a, R> {
    type Item = u64;

    type Fault = Tagged<io::Error>;

    fn run(&mut self) -> Result<u64, Tagged<io::Error>> {
        match fs::metadata(self.rt, self.path) {
            Ok(found) => Ok(found.len()),
            Err(error) => Err(Tagged::by(error, |_| 0)),
        }
    }
}

const LENGTH: u64 = 100;

// A poll at each boundary until a second has passed since the first poll. One that comes after the boundary that
// follows its own has the next poll at once.
fn each_boundary(alloc: Global) -> Result<Plan, PlanFault> {
    Plan::within(alloc, 1000, Plan::fixed(LENGTH)?)
}

// When each poll came, in milliseconds since the first one, and how far past a boundary that is.
fn print_polls<R: Eprint>(rt: &R, begun: &[Moment]) -> io::Result<()> {
    let Some(first) = begun.first() else {
        return Ok(());
    };
    for moment in begun {
        let passed = moment.get().saturating_sub(first.get());
        let missed = passed % LENGTH;
        eprintln!(rt; "polled at {passed} ms, {missed} ms past a boundary")?;
    }
    Ok(())
}

// The last size that was polled.
fn poll<R: Runtime + RandomSource + AllocGlobal + Wait>(rt: &R, path: &str) -> Result<u64> {
    let alloc = rt.alloc();
    let clock = SystemClock::new(rt)?;
    let stepper = Stepper::new(alloc, each_boundary(alloc)?)?;
    let call = Call::new(alloc, FileSize { rt, path });
    let repeat = Repeat::new(alloc, call, stepper);
    let mut repeat = block_on(rt, Timed::new(alloc, repeat, clock, MidWords))?;
    told(rt, &mut repeat)
}

// What came of it, after a line for each poll.
fn told<R: Files + Eprint>(
    rt: &R,
    repeat: &mut Repeat<Call<FileSize<'_, R>>, Stepper>,
) -> Result<u64> {
    print_polls(rt, repeat.begun())?;
    match repeat.take_ending() {
        Some(Ending::ScheduleDone(Ok(size))) => Ok(size),
        Some(Ending::Failed(fault)) => Err(fault.value.into()),
        _ => bail!("the repeat broke off"),
    }
}

fn main(rt: HostRuntime) -> Result<()> {
    let mut words = env::args(&rt)?;
    let path = words.nth(1).context("usage: example_repeat FILE")?;
    let size = poll(&rt, path.as_str())?;
    println!(rt; "{size} bytes")?;
    Ok(())
}
