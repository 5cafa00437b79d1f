//! Readers and writers that are slow, or fail after some bytes.
use super::fakes::{Short, Slow, Torn, Whole};
use super::stops::tells;
use std::alloc::AllocGlobal;
use std::process::Abort;
use std::random::RandomSource;
use std::sync::Wait;
use std::thread::Threads;

// Command lines with an input, and what is written of it.
const WRITTEN: [(&str, &str, &str); 4] = [
    (
        "zsched plan",
        r#"{"meet":[{"recurs":1},{"spaced":100}]}"#,
        "0: (0, 0) next 100\n100: (1, 1) done\n",
    ),
    (
        "zsched pool",
        r#"[{"plan":{"recurs":5},"runs":[{"lost":7},{"lost":7},{"won":1}]}]"#,
        "job 0: won 1, granted 2\ngranted 2 of 100\n",
    ),
    (
        "zsched pool --quota 1/0/100",
        r#"[{"plan":{"spaced":100},"runs":[{"lost":7},{"lost":7},{"won":1}]}]"#,
        "job 0: won 1, granted 2\ngranted 2 in 2 windows\n",
    ),
    ("zsched check", r#""forever""#, "plan: 1 node, depth 1\n"),
];

fn is_written(rt: &impl Abort, written: &[u8], want: &[u8], case: &str) {
    assert_eq!(rt; written, want, "{case}");
}

const DONE: (&str, u8) = ("", 0);

const CUT: (&str, u8) = (
    "zsched: write failed\nstandard output: operation would block",
    4,
);

// A writer that has room for this front of the text alone has it.
fn is_cut<R>(rt: &R, line: &str, input: &str, front: &[u8], wanted: (&str, u8))
where
    R: Threads + Wait + RandomSource + AllocGlobal + Sync + Abort,
{
    let short = Short::new(rt.alloc(), front.len());
    let writer = tells(rt, line, (input.as_bytes(), short), wanted);
    is_written(rt, &writer.taken, front, line);
}

// The front of a text, of so many bytes.
fn front<'a>(rt: &impl Abort, text: &'a str, len: usize) -> &'a [u8] {
    text.as_bytes().get(..len).expect(rt, "the text is as long")
}

// A writer is given this text, and fails after each number of its bytes.
fn is_cut_everywhere<R>(rt: &R, line: &str, input: &str, text: &str)
where
    R: Threads + Wait + RandomSource + AllocGlobal + Sync + Abort,
{
    for room in 0..text.len() {
        is_cut(rt, line, input, front(rt, text, room), CUT);
    }
    is_cut(rt, line, input, text.as_bytes(), DONE);
}

#[test]
fn a_writer_that_fails_after_k_bytes_has_the_first_k(rt: HostRuntime) {
    for (line, input, text) in &WRITTEN {
        is_cut_everywhere(&rt, line, input, text);
    }
}

const TORN: (&str, u8) = (
    "zsched: read failed\nstandard input: operation would block",
    4,
);

// Nothing is written where the input fails after these bytes.
fn is_torn<R>(rt: &R, line: &str, input: &[u8])
where
    R: Threads + Wait + RandomSource + AllocGlobal + Sync + Abort,
{
    let written = tells(rt, line, (Torn(input), Vec::new(rt.alloc())), TORN);
    is_written(rt, &written, b"", line);
}

// The input fails after each number of its bytes.
fn is_torn_everywhere<R>(rt: &R, line: &str, input: &str)
where
    R: Threads + Wait + RandomSource + AllocGlobal + Sync + Abort,
{
    for left in 0..=input.len() {
        is_torn(rt, line, front(rt, input, left));
    }
}

#[test]
fn a_reader_that_fails_leaves_nothing_written(rt: HostRuntime) {
    for (line, input, _) in &WRITTEN {
        is_torn_everywhere(&rt, line, input);
    }
}

#[test]
fn a_reader_of_one_byte_a_call_is_read_whole(rt: HostRuntime) {
    for (line, input, text) in &WRITTEN {
        let streams = (Slow(input.as_bytes()), Vec::new(rt.alloc()));
        let written = tells(&rt, line, streams, DONE);
        is_written(&rt, &written, text.as_bytes(), line);
    }
}

// 60,330 bytes.
#[test]
fn many_lines_are_few_writes(rt: HostRuntime) {
    let streams = (r#""forever""#.as_bytes(), Whole { calls: 0 });
    let writer = tells(&rt, "zsched plan --steps 4096", streams, DONE);
    assert_eq!(rt; writer.calls, 8);
}
