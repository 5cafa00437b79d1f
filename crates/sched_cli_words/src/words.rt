ghost use Rattle.std.specs.Prelude.{IfOk, IfSome};
ghost use Rattle.sched_cli_words.specs.Options.{AreInRange, AreInputs, AreWordsFor, PoolIsInRange, IsAskedInRange};

use crate::columns::within_columns;
use crate::commands::zsched_command;
use crate::faults::WordsFault;
use crate::options::{Asked, MAX_TICKETS, MAX_TURNS, MAX_WORKERS, Origin, PoolOptions};
use crate::quota_words::{bad_quota, quota_options, terms_in};
use crate::reasons::reason;
use crate::seeded::seeded_words;
use crate::storms::storm;
use clap::error::ErrorKind;
use clap::{ArgMatches, Error};
use sched_plan_course::{MAX_STEPS, PlanCourse, PlanOptions};
use sched_time::{Millis, Moment};
use std::alloc::{AllocError, Global};

// What is told where clap has let pass what it should not.
const OUT_OF_RANGE: &str = "a value is missing or out of its range";

const QUOTA_ON_THREADS: &str =
    "the argument '--quota <RESERVE/SHARE%/PERIOD>' cannot be used with '--workers <N>' \
     of more than 1: jobs on a quota run on one thread";

/// Reads a command line, with the program's own name as its first word.
///
/// Refused with `Bad`, and a line that says why, where the subcommand is missing or unknown, an option is unknown,
/// comes twice, lacks its value or stands beside one that takes its place, or a value is no decimal number in its
/// range; with `Help` and the text to show where help or the version was asked for; and with `NoMemory`.
pub fn read_words(alloc: Global, words: &[&str]) -> Result<Asked, WordsFault>
    ensures { IfOk result IsAskedInRange }
{
    match zsched_command(alloc)?.try_get_matches_from(words) {
        Ok(matches) => asked(alloc, &matches),
        Err(error) => Err(refused(alloc, &error)),
    }
}

// What the words ask for. `Bad` where a value is missing or outside its range.
fn asked(alloc: Global, matches: &ArgMatches<'_>) -> Result<Asked, WordsFault>
    ensures { IfOk result IsAskedInRange }
{
    let Some((name, options)) = matches.subcommand() else {
        return Err(WordsFault::bad(alloc, "expected a command"));
    };
    let origin = origin(alloc, options)?;
    match name {
        "plan" => plan(alloc, options, origin),
        "pool" => pool(alloc, options, origin),
        "storm" => storm(alloc, options, origin),
        "check" => Ok(Asked::Check(origin)),
        _ => Err(WordsFault::bad(alloc, "there is no such command")),
    }
}

// Where the text is read from: standard input where no word or `-` is given.
fn origin(alloc: Global, options: &ArgMatches<'_>) -> Result<Origin, AllocError> {
    match options.get_str("file") {
        None | Some("-") => Ok(Origin::StandardInput),
        Some(name) => Ok(Origin::File(String::from_str(alloc, name)?)),
    }
}

// A plan with a course of its own where inputs or words of events are given.
fn plan(alloc: Global, options: &ArgMatches<'_>, origin: Origin) -> Result<Asked, WordsFault>
    ensures { IfOk result IsAskedInRange }
{
    let Some(plain) = plan_options(options) else {
        return Err(WordsFault::bad(alloc, OUT_OF_RANGE));
    };
    if !options.contains_id("inputs") && !options.contains_id("words") {
        return Ok(Asked::Plan(plain, origin));
    }
    let inputs = inputs(alloc, options, plain.input)?;
    let words = words_of(alloc, options, plain.steps, plain.word)?;
    match PlanCourse::new(plain.steps, plain.from, plain.took, inputs, words) {
        Some(course) => Ok(Asked::Course(course, origin)),
        None => Err(WordsFault::bad(alloc, OUT_OF_RANGE)),
    }
}

fn plan_options(options: &ArgMatches<'_>) -> Option<PlanOptions>
    ensures { IfSome result AreInRange }
{
    let steps = options.get_one::<u64>("steps")?;
    if steps > MAX_STEPS {
        return None;
    }
    let from = Moment::new(options.get_one("from")?)?;
    let took = Millis::new(options.get_one("took")?)?;
    let input = Millis::new(options.get_one("input")?)?;
    let word = options.get_one("word")?;
    Some(PlanOptions {
        steps,
        from,
        took,
        input,
        word,
    })
}

// The inputs of events: those that are given, or this one.
fn inputs(alloc: Global, options: &ArgMatches<'_>, input: Millis) -> Result<Vec<Millis>, WordsFault>
    ensures { IfOk result (λ inputs. AreInputs inputs.items) }
{
    let Some(given) = options.get_many::<u64>("inputs") else {
        return Ok(Vec::from_slice(alloc, &[input])?);
    };
    let mut inputs = Vec::new(alloc);
    for number in given {
        let input = match number {
            Ok(number) => Millis::new(number),
            Err(_) => None,
        };
        let Some(input) = input else {
            return Err(WordsFault::bad(alloc, OUT_OF_RANGE));
        };
        if inputs.push(input).is_err() {
            return Err(WordsFault::NoMemory);
        }
    }
    Ok(inputs)
}

// The words of events: those of the seed that is given, or the same word at each.
fn words_of(
    alloc: Global,
    options: &ArgMatches<'_>,
    steps: u64,
    word: u32,
) -> Result<Vec<[u32; 4]>, AllocError>
    ensures { IfOk result (λ words. AreWordsFor steps words.items) }
{
    match options.get_one::<u64>("words") {
        Some(seed) => seeded_words(alloc, seed, steps.max(1)),
        None => Vec::from_slice(alloc, &[[word; 4]]),
    }
}

// A pool on a quota where one is given, or else on a budget.
fn pool(alloc: Global, options: &ArgMatches<'_>, origin: Origin) -> Result<Asked, WordsFault>
    ensures { IfOk result IsAskedInRange }
{
    match options.get_str("quota") {
        Some(text) => quota_pool(alloc, options, text, origin),
        None => match pool_options(options) {
            Some(budget) => Ok(Asked::Pool(budget, origin)),
            None => Err(WordsFault::bad(alloc, OUT_OF_RANGE)),
        },
    }
}

// A pool on the quota that a text spells.
fn quota_pool(
    alloc: Global,
    options: &ArgMatches<'_>,
    text: &str,
    origin: Origin,
) -> Result<Asked, WordsFault>
    ensures { IfOk result IsAskedInRange }
{
    let Some(terms) = terms_in(text) else {
        return Err(bad_quota(alloc, text));
    };
    match quota_options(options, terms) {
        Some(quota) => Ok(Asked::Quota(quota, origin)),
        None => Err(WordsFault::bad(alloc, QUOTA_ON_THREADS)),
    }
}

fn pool_options(options: &ArgMatches<'_>) -> Option<PoolOptions>
    ensures { IfSome result PoolIsInRange }
{
    let workers = options.get_one::<u64>("workers")?;
    let budget = options.get_one::<u64>("budget")?;
    let turns = options.get_one::<u64>("turns")?;
    if workers < 1 || workers > MAX_WORKERS || budget > MAX_TICKETS || turns > MAX_TURNS {
        return None;
    }
    Some(PoolOptions {
        workers,
        budget,
        turns,
    })
}

fn refused(alloc: Global, error: &Error) -> WordsFault {
    match error.kind() {
        ErrorKind::OutOfMemory => WordsFault::NoMemory,
        ErrorKind::DisplayHelp | ErrorKind::DisplayVersion => match help(alloc, error) {
            Ok(text) => WordsFault::Help(text),
            Err(_) => WordsFault::NoMemory,
        },
        _ => match reason(alloc, error) {
            Ok(why) => WordsFault::Bad(why),
            Err(_) => WordsFault::NoMemory,
        },
    }
}

// What clap tells where help or the version is asked for.
fn help(alloc: Global, error: &Error) -> Result<String, AllocError> {
    let text = error.to_string(alloc)?;
    within_columns(alloc, text.as_str())
}
