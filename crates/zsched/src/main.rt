//! `zsched` prints what a recurrence schedule would do. The program passes words, streams and the exit status to
//! `sched_cli`, and does nothing else.
#![tactic(auto)]

ghost use Rattle.std.specs.Prelude.{◌≡◌, MatchResult};
ghost use Rattle.std.specs.Process.{exit_status};
ghost use Rattle.sched_cli.specs.Stops.{stop_status};

use sched_cli::{Asked, Counted, Origin, Stop, WordsFault, answer, read_words, with_texts};
use std::alloc::{AllocGlobal, Global};
use std::env;
use std::fs::File;
use std::io::{ErrorKind, IsTerminal, Read, Write};
use std::process::ExitCode;
use std::random::RandomSource;
use std::sync::Wait;
use std::thread::Threads;

// What it says before it reads a text from a terminal.
const TERMINAL: &str = "zsched: reading JSON from the terminal; Ctrl-D ends it";

fn main(rt: HostRuntime) -> ExitCode {
    match asked(&rt) {
        Ok(asked) => match with_texts(&rt, rt.alloc(), asked) {
            Ok(asked) => match asked.origin() {
                Origin::StandardInput => {
                    let input = rt.stdin();
                    if input.is_terminal() {
                        let _ = eprintln!(rt; "{TERMINAL}");
                    }
                    ended(&rt, run(&rt, rt.alloc(), input, rt.stdout(), &asked))
                }
                Origin::File(name) => match File::open(&rt, name.as_str()) {
                    Ok(file) => ended(&rt, run(&rt, rt.alloc(), file, rt.stdout(), &asked)),
                    Err(error) => {
                        let stop = Stop::unopened(rt.alloc(), name.as_str(), error);
                        ended(&rt, Err(stop))
                    }
                },
            },
            Err(stop) => ended(&rt, Err(stop)),
        },
        Err(WordsFault::Help(text)) => match print!(rt; "{text}") {
            Ok(()) => ExitCode::SUCCESS,
            Err(error) => ended(&rt, Err(Stop::unwritten(rt.alloc(), error))),
        },
        Err(fault) => {
            let _ = eprintln!(rt; "{fault}");
            ExitCode::from(fault.status())
        }
    }
}

// What the command line asks for. A word that is no text is a bad command line.
fn asked(rt: &HostRuntime) -> Result<Asked, WordsFault> {
    let words = match env::args(rt) {
        Ok(words) => words,
        Err(error) if error.kind() == ErrorKind::OutOfMemory => return Err(WordsFault::NoMemory),
        Err(_) => return Err(WordsFault::bad(rt.alloc(), "a word is not UTF-8")),
    };
    let mut owned = Vec::new(rt.alloc());
    for word in words {
        if owned.push(word).is_err() {
            return Err(WordsFault::NoMemory);
        }
    }
    let mut texts = Vec::new(rt.alloc());
    for word in &owned {
        if texts.push(word.as_str()).is_err() {
            return Err(WordsFault::NoMemory);
        }
    }
    read_words(rt.alloc(), &texts)
}

// Does what is asked for with the text of this reader.
fn run<R, S: Read + Drop, W: Write + Drop>(
    rt: &R,
    alloc: Global,
    reader: S,
    writer: W,
    asked: &Asked,
) -> Result<(), Stop>
where
    R: Threads + Wait + RandomSource + AllocGlobal + Sync,
{
    let mut reader = Counted::new(reader);
    let mut writer = Counted::new(writer);
    answer(rt, alloc, &mut reader, &mut writer, asked)
}

// The status of what was printed, with what is told on standard error where it stopped at a fault.
fn ended(rt: &HostRuntime, printed: Result<(), Stop>) -> ExitCode
    ensures { MatchResult printed (λ _. exit_status result ≡ 0) (λ stop. exit_status result ≡ stop_status stop) }
{
    match printed {
        Ok(()) => ExitCode::SUCCESS,
        Err(stop) => {
            if !stop.is_quiet() {
                let _ = eprintln!(rt; "{stop}");
            }
            ExitCode::from(stop.status())
        }
    }
}
