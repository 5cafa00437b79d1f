//! What the program tells where it stops, by hand.
use super::fakes::{Stuck, Torn};
use super::{is_told, read};
use sched_cli::{Counted, Stop, answer};
use std::alloc::{AllocGlobal, Global};
use std::io;
use std::io::{ErrorKind, Read, Write};
use std::process::Abort;
use std::random::RandomSource;
use std::sync::Wait;
use std::thread::Threads;

// Asserts what is told of a stop, and its status.
fn stops(rt: &impl Abort, alloc: Global, stop: &Stop, wanted: (&str, u8)) {
    is_told(rt, stop.to_string(alloc), stop.status(), wanted);
}

// Asserts what is told of what these words do, and with which status it ends: nothing and 0 where it stops at no fault.
// Gives the writer back.
pub(super) fn tells<R, S: Read + Drop, W: Write + Drop>(
    rt: &R,
    line: &str,
    streams: (S, W),
    wanted: (&str, u8),
) -> W
where
    R: Threads + Wait + RandomSource + AllocGlobal + Sync + Abort,
{
    let alloc = rt.alloc();
    let asked = read(alloc, line).expect(rt, line);
    let mut reader = Counted::new(streams.0);
    let mut writer = Counted::new(streams.1);
    match answer(rt, alloc, &mut reader, &mut writer, &asked) {
        Ok(()) => assert_eq!(rt; ("", 0), wanted, "{line}"),
        Err(stop) => stops(rt, alloc, &stop, wanted),
    }
    writer.into_inner()
}

// Command lines with an input, what is told of it, and the status.
const TEXTS: [(&str, &str, &str, u8); 9] = [
    ("zsched plan", r#"{"recurs":3}"#, "", 0),
    (
        "zsched plan",
        r#"{"first":{"fixed":0}}"#,
        "zsched: number out of range\nfirst: expected {\"fixed\":D}, D from 1 to 4611686018427387903, \
         got {\"fixed\":0}",
        3,
    ),
    (
        "zsched plan --inputs 1,2",
        "[",
        "zsched: not JSON\nnot JSON: line 1, column 1: the text ends too soon",
        3,
    ),
    (
        "zsched plan",
        "[]",
        "zsched: not a plan\ntop: expected a plan, a string or an object with one member, got []",
        3,
    ),
    (
        "zsched pool",
        "{}",
        "zsched: not a plan\ntop: expected an array of jobs, got {}",
        3,
    ),
    (
        "zsched pool --quota 1/2/300",
        r#"[{"plan":"forever","runs":[]}]"#,
        "zsched: number out of range\n[0].runs: expected 1 to 64 runs, got 0",
        3,
    ),
    ("zsched check", "7", "zsched: not a plan", 3),
    ("zsched check", r#""forever""#, "", 0),
    (
        "zsched pool --turns 0",
        r#"[{"plan":"forever","runs":[{"won":1}]}]"#,
        "zsched: not finished",
        6,
    ),
];

#[test]
fn of_a_bad_text_its_first_fault_is_told(rt: HostRuntime) {
    for (line, text, told, status) in &TEXTS {
        let streams = (text.as_bytes(), Vec::new(rt.alloc()));
        tells(&rt, line, streams, (told, *status));
    }
}

// Command lines, and what is told where the input fails.
const FAILED_READS: [(&str, &str); 3] = [
    (
        "zsched plan",
        "zsched: read failed\nstandard input: operation would block",
    ),
    (
        "zsched pool jobs.json",
        "zsched: read failed\njobs.json: operation would block",
    ),
    (
        "zsched check -",
        "zsched: read failed\nstandard input: operation would block",
    ),
];

#[test]
fn of_a_failed_read_the_origin_and_the_reason_are_told(rt: HostRuntime) {
    for (line, told) in &FAILED_READS {
        let streams = (Torn("[]".as_bytes()), Vec::new(rt.alloc()));
        tells(&rt, line, streams, (told, 4));
    }
}

// How all writes fail, and what is told of that.
const FAILED_WRITES: [(Option<ErrorKind>, &str); 3] = [
    (
        Some(ErrorKind::StorageFull),
        "zsched: write failed\nstandard output: no storage space",
    ),
    (None, "zsched: write failed\nstandard output: write zero"),
    (Some(ErrorKind::BrokenPipe), ""),
];

#[test]
fn of_a_failed_write_the_reason_is_told_unless_nobody_reads(rt: HostRuntime) {
    for (kind, told) in &FAILED_WRITES {
        for line in ["zsched pool", "zsched check"] {
            let streams = ("[]".as_bytes(), Stuck(*kind));
            tells(&rt, line, streams, (told, 4));
        }
    }
}

#[test]
fn a_file_that_is_not_opened_is_named(rt: HostRuntime) {
    let alloc = rt.alloc();
    let missing = Stop::unopened(alloc, "a b.json", io::Error::from_raw_os_error(2));
    let told = "zsched: read failed\na b.json: No such file or directory (os error 2)";
    stops(&rt, alloc, &missing, (told, 4));
    let refused = Stop::unopened(alloc, "a.json", io::Error::from(ErrorKind::OutOfMemory));
    stops(&rt, alloc, &refused, ("zsched: no memory", 5));
}

#[test]
fn a_text_that_is_not_written_has_its_reason(rt: HostRuntime) {
    let alloc = rt.alloc();
    let full = Stop::unwritten(alloc, io::Error::from_raw_os_error(28));
    let told = "zsched: write failed\nstandard output: No space left on device (os error 28)";
    stops(&rt, alloc, &full, (told, 4));
    let unread = Stop::unwritten(alloc, io::Error::from(ErrorKind::BrokenPipe));
    assert!(rt; unread.is_quiet());
    stops(&rt, alloc, &unread, ("", 4));
}
