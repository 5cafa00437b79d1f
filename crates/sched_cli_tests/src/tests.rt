//! Tests of what no clause says, and the readers and writers that they stand on. `tests/program.sh` has what command
//! lines ask for, and what is printed.
use sched_cli::{Asked, WordsFault, read_words};
use std::alloc::{AllocError, Global};
use std::process::Abort;

mod fakes;
mod fault_lines;
mod stops;
mod streams;

// What is read of a command line, whose words stand with a space between each two.
fn read(alloc: Global, line: &str) -> Result<Asked, WordsFault> {
    let words: Vec<&str> = line.split(' ').collect(alloc)?;
    read_words(alloc, words.as_slice())
}

// Asserts what is told of a fault, and its status.
fn is_told(rt: &impl Abort, told: Result<String, AllocError>, status: u8, want: (&str, u8)) {
    let text = told.expect(rt, "there is memory");
    assert_eq!(rt; (text.as_str(), status), want);
}
