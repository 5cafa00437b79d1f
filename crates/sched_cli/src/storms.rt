//! Storms: printing them, and the texts of the further plans that they are played under.
ghost use Rattle.std.specs.Prelude.{◌≡◌, IfOk, []};
ghost use Rattle.sched_plan_hint.specs.Faults.{FindsFault};
ghost use Rattle.sched_cli_pool.specs.JobsPrinting.{count_of_pool_reads, count_of_pool_writes};
ghost use Rattle.sched_cli.specs.Answering.{ForInput, AnswersStorm, TellsSome};

use crate::answers::tell_found;
use crate::stops::{Stop, Told, tell_error};
use sched_cli_plan::{Counted, PrintFault, Sink, Source, read_all};
use sched_cli_pool::PoolFault;
use sched_cli_storm::{open_times, print_storm};
use sched_cli_storm_words::{ArrivalLines, StormFault, StormOptions};
use sched_cli_words::Asked;
use sched_plan_hint::plan_fault;
use sched_time::NoMemory;
use std::alloc::Global;
use std::rt::Files;
use std::{fs, io};

// The most reads of a file of moments: no file of so many lines has more bytes.
const MAX_READS: u64 = 67108864;

/// What is asked for, with the texts of the further plans of a storm, which are read from their files.
///
/// Stops as reading does, with the name of the file that it stopped at.
pub fn with_texts<R: Files>(rt: &R, alloc: Global, asked: Asked) -> Result<Asked, Stop> {
    match asked {
        Asked::Storm(options, origin) => {
            let texts = texts_of(rt, alloc, &options.names)?;
            let options = with_open_times(rt, alloc, options)?;
            let options = with_arrivals(rt, alloc, options)?;
            Ok(Asked::Storm(StormOptions { texts, ..options }, origin))
        }
        other => Ok(other),
    }
}

// The options with the open times of a breaker, where a file has their plan.
fn with_open_times<R: Files>(
    rt: &R,
    alloc: Global,
    options: StormOptions,
) -> Result<StormOptions, Stop> {
    let Some(name) = &options.open else {
        return Ok(options);
    };
    let text = text_of(rt, alloc, name.as_str())?;
    match open_times(alloc, &text) {
        Ok(Some(found)) => {
            let times = found.0;
            let last = found.1;
            Ok(options.with_open_times(times, last))
        }
        Ok(None) => Err(Stop {
            fault: PoolFault::Print(PrintFault::NotAPlan),
            told: tell_line(
                alloc,
                name.as_str(),
                "expected a plan that goes on at its first event",
            ),
        }),
        Err(fault) => Err(Stop {
            fault: PoolFault::Print(fault),
            told: tell_fault(alloc, name.as_str(), &text),
        }),
    }
}

// The options with the moments at which requests come, where a file has them.
fn with_arrivals<R: Files>(
    rt: &R,
    alloc: Global,
    options: StormOptions,
) -> Result<StormOptions, Stop> {
    let Some(name) = &options.arrivals else {
        return Ok(options);
    };
    let moments = moments_of(rt, alloc, name.as_str())?;
    match options.with_arrivals(moments) {
        Some(options) => Ok(options),
        None => Err(Stop {
            fault: PoolFault::Print(PrintFault::OutOfRange),
            told: tell_line(
                alloc,
                "--until",
                "60 s after the last moment are more than 65536 times '--window <M>'",
            ),
        }),
    }
}

// The moments that the lines of the file of this name spell. It is read in parts, of which none is kept.
fn moments_of<R: Files>(rt: &R, alloc: Global, name: &str) -> Result<Vec<u64>, Stop> {
    let file = match fs::open(rt, name) {
        Ok(file) => file,
        Err(error) => return Err(Stop::unopened(alloc, name, error)),
    };
    let mut reader = Counted::new(file);
    let mut lines = ArrivalLines::new(alloc);
    let mut part = [0; 8192];
    for _ in 0..MAX_READS {
        let taken = match reader.read(&mut part) {
            Ok(0) => break,
            Ok(taken) => taken,
            Err(_) => return Err(unread(alloc, name, reader.last_error())),
        };
        if let Err(fault) = lines.read(alloc, &part[..taken]) {
            return Err(unfit(alloc, name, &fault));
        }
    }
    match lines.into_moments(alloc) {
        Ok(moments) => Ok(moments),
        Err(fault) => Err(unfit(alloc, name, &fault)),
    }
}

// The file of this name spells no moments for this reason.
fn unfit(alloc: Global, name: &str, fault: &StormFault) -> Stop {
    match fault {
        StormFault::Bad(why) => Stop {
            fault: PoolFault::Print(PrintFault::OutOfRange),
            told: tell_line(alloc, name, why.as_str()),
        },
        StormFault::NoMemory => Stop {
            fault: PoolFault::Print(PrintFault::NoMemory),
            told: Ok(Told::Alone),
        },
    }
}

// A read of the file of this name failed.
fn unread(alloc: Global, name: &str, error: Option<io::Error>) -> Stop {
    Stop {
        fault: PoolFault::Print(PrintFault::ReadFailed),
        told: match error {
            Some(error) => tell_error(alloc, name, error),
            None => Ok(Told::Alone),
        },
    }
}

// The texts of the files of these names but the first.
fn texts_of<R: Files>(rt: &R, alloc: Global, names: &[String]) -> Result<Vec<Vec<u8>>, Stop> {
    let mut texts = Vec::new(alloc);
    for name in names.iter().skip(1) {
        let text = text_of(rt, alloc, name.as_str())?;
        if texts.push(text).is_err() {
            return Err(Stop {
                fault: PoolFault::Print(PrintFault::NoMemory),
                told: Ok(Told::Alone),
            });
        }
    }
    Ok(texts)
}

// The text of the file of this name.
fn text_of<R: Files>(rt: &R, alloc: Global, name: &str) -> Result<Vec<u8>, Stop> {
    let file = match fs::open(rt, name) {
        Ok(file) => file,
        Err(error) => return Err(Stop::unopened(alloc, name, error)),
    };
    let mut reader = Counted::new(file);
    match read_all(alloc, &mut reader) {
        Ok(text) => Ok(text),
        Err(unread) => {
            let told = match (unread, reader.last_error()) {
                (PrintFault::ReadFailed, Some(error)) => tell_error(alloc, name, error),
                (PrintFault::TooLong, _) => tell_line(alloc, name, "more than 1048576 bytes"),
                _ => Ok(Told::Alone),
            };
            Err(Stop {
                fault: PoolFault::Print(unread),
                told,
            })
        }
    }
}

/// Prints the storm under the plan that the text spells.
#[tactic(auto, using(crate::proofs::Again::storm_again))]
pub(crate) fn storm_text<W: Sink>(
    alloc: Global,
    bytes: &[u8],
    writer: &mut W,
    options: &StormOptions,
) -> Result<(), PoolFault>
    ensures text { ForInput bytes.now (λ l m. AnswersStorm l m (W.taken writer.old) (W.taken writer.new) result) }
    ensures reads { 0 ≡ count_of_pool_reads result 0 }
    ensures writes { W.failures writer.new ≡ count_of_pool_writes result (W.failures writer.old) }
{
    match print_storm(alloc, bytes, writer, options) {
        Ok(false) => Ok(()),
        Ok(true) => Err(PoolFault::Unfinished),
        Err(fault) => Err(PoolFault::Print(fault)),
    }
}

/// What is told of a text that is refused, or else of the first further text that is, with its file's name.
pub(crate) fn tell_storm(
    alloc: Global,
    options: &StormOptions,
    bytes: &[u8],
) -> Result<Told, NoMemory>
    ensures { IfOk result (λ told. options.now.texts.items ≡ [] → TellsSome (FindsFault bytes.now) told) }
{
    let found = plan_fault(alloc, bytes)?;
    if options.texts.is_empty() || found.is_some() {
        return tell_found(alloc, &found);
    }
    for (name, text) in options.names.iter().skip(1).zip(&options.texts) {
        let told = tell_fault(alloc, name.as_str(), text)?;
        if matches!(&told, Told::More(_)) {
            return Ok(told);
        }
    }
    Ok(Told::Alone)
}

// What is told of the text of the file of this name, where it is no plan.
fn tell_fault(alloc: Global, name: &str, text: &[u8]) -> Result<Told, NoMemory> {
    match plan_fault(alloc, text)? {
        Some(fault) => {
            let line = fault.text(alloc)?;
            tell_line(alloc, name, line.as_str())
        }
        None => Ok(Told::Alone),
    }
}

// A line that is told of the file of this name.
fn tell_line(alloc: Global, name: &str, said: &str) -> Result<Told, NoMemory> {
    let mut line = String::from_str(alloc, name)?;
    line.push_str(": ")?;
    line.push_str(said)?;
    Ok(Told::More(line))
}
