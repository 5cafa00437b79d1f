//! The commands of the program, as `clap` takes them.
use crate::options::{MAX_TICKETS, MAX_TURNS, MAX_WORKERS};
use clap::builder::ValueParser;
use clap::{Arg, Command};
use sched_cli_storm_words::{Row, Takes, file_command, storm_command, with_option, with_options};
use sched_plan_course::MAX_STEPS;
use sched_time::FAR;
use std::alloc::{AllocError, Global};

// What `--version` tells.
const VERSION: &str = "1.0.0";

const PLAN_EXAMPLES: &str = "Examples:
  zsched plan --took 250 plans/poll-fixed.json
  zsched plan --words 7 --steps 20 plans/jittered-back-off.json";

const POOL_EXAMPLES: &str = "Examples:
  zsched pool jobs/three-calls.json
  zsched pool --workers 4 --budget 2 - < jobs/three-calls.json
  zsched pool --quota 1/50%/100ms jobs/three-calls.json";

const CHECK_EXAMPLES: &str = "Examples:
  zsched check plans/poll-fixed.json
  zsched check - < jobs/three-calls.json";

// When calls are over.
const CALLS: [Row; 3] = [
    Row {
        name: "steps",
        takes: Takes::NumberOr("N", 0, MAX_STEPS, &["10"]),
        excludes: &[],
        help: "The most calls to print, from 0 to 4096",
    },
    Row {
        name: "from",
        takes: Takes::NumberOr("M", 0, FAR, &["0"]),
        excludes: &[],
        help: "The moment at which the first call ends, in milliseconds from 0 to 4611686018427387903",
    },
    Row {
        name: "took",
        takes: Takes::NumberOr("M", 0, FAR, &["0"]),
        excludes: &[],
        help: "How long each later call takes, in milliseconds from 0 to 4611686018427387903",
    },
];

// What calls give.
const GIFTS: [Row; 1] = [Row {
    name: "input",
    takes: Takes::NumberOr("N", 0, FAR, &["0"]),
    excludes: &[],
    help: "The number that each call returns, from 0 to 4611686018427387903",
}];

// Random words.
const CHANCE: [Row; 2] = [
    Row {
        name: "word",
        takes: Takes::WordOr("W", &["2147483648"]),
        excludes: &[],
        help: "The random word after each call, from 0 (shortest delay) to 4294967295 (longest)",
    },
    Row {
        name: "words",
        takes: Takes::Number("SEED", 0, u64::MAX),
        excludes: &["word"],
        help: "New random words after each call, made from this seed, from 0 to 18446744073709551615",
    },
];

const WORKERS: [Row; 2] = [
    Row {
        name: "workers",
        takes: Takes::NumberOr("N", 1, MAX_WORKERS, &["1"]),
        excludes: &[],
        help: "Workers that run the jobs, each on its own thread, from 1 to 16",
    },
    Row {
        name: "turns",
        takes: Takes::NumberOr("N", 0, MAX_TURNS, &["1000000"]),
        excludes: &[],
        help: "The most turns of each worker, from 0 to 4294967296",
    },
];

// A budget, or a quota in its place.
const RETRIES: [Row; 2] = [
    Row {
        name: "budget",
        takes: Takes::NumberOr("N", 0, MAX_TICKETS, &["100"]),
        excludes: &[],
        help: "The most retries of all jobs together, from 0 to 4294967296",
    },
    Row {
        name: "quota",
        takes: Takes::Text("RESERVE/SHARE%/PERIOD"),
        excludes: &["budget"],
        help: "Instead of a budget: in each window of PERIOD at most RESERVE retries plus SHARE of the requests \
               in it, where each job's first run is a request, such as 10/20%/60s (units: ms, s, m, h, d); \
               without units, as in 10/200/60000, SHARE is in thousandths and PERIOD in milliseconds; \
               jobs on a quota run on one thread",
    },
];

/// The whole command.
pub(crate) fn zsched_command<'a>(alloc: Global) -> Result<Command<'a>, AllocError> {
    let command = Command::new(alloc, "zsched")
        .about("Runs recurrence schedules on a virtual clock")
        .version(VERSION)
        .subcommand_required(true);
    let command = with(command, plan_command(alloc))?;
    let command = with(command, pool_command(alloc))?;
    let command = with(command, storm_command(alloc))?;
    with(command, check_command(alloc))
}

// The command with this one below it.
fn with<'a>(
    command: Command<'a>,
    below: Result<Command<'a>, AllocError>,
) -> Result<Command<'a>, AllocError> {
    command.subcommand(below?)
}

fn plan_command<'a>(alloc: Global) -> Result<Command<'a>, AllocError> {
    let command = file_command(
        alloc,
        "plan",
        "Reads a plan as JSON and prints what it decides after each call, one line each",
        PLAN_EXAMPLES,
        "The plan's file, or - for standard input",
    )?;
    let command = with_options(alloc, command.next_help_heading("Calls"), &CALLS)?;
    let command = with_options(
        alloc,
        command.next_help_heading("What calls return"),
        &GIFTS,
    )?;
    let command = with_option(command, inputs(alloc))?;
    with_options(alloc, command.next_help_heading("Randomness"), &CHANCE)
}

fn inputs<'a>(alloc: Global) -> Result<Arg<'a>, AllocError> {
    Arg::new(alloc, "inputs")
        .long("inputs")
        .value_name("A,B,..")
        .value_delimiter(',')
        .value_parser(ValueParser::unsigned(0, FAR))
        .help("The numbers that the calls return, in turn; the last one repeats")
        .conflicts_with("input")
}

fn pool_command<'a>(alloc: Global) -> Result<Command<'a>, AllocError> {
    let command = file_command(
        alloc,
        "pool",
        "Reads jobs as JSON, runs them and prints how each ended",
        POOL_EXAMPLES,
        "The jobs' file, or - for standard input",
    )?;
    let command = with_options(alloc, command.next_help_heading("Workers"), &WORKERS)?;
    with_options(alloc, command.next_help_heading("Retries"), &RETRIES)
}

// The command that checks a text.
fn check_command<'a>(alloc: Global) -> Result<Command<'a>, AllocError> {
    file_command(
        alloc,
        "check",
        "Reads a plan or jobs as JSON and prints what it is, or its first error, \
         with its place and what was expected there",
        CHECK_EXAMPLES,
        "The file of a plan or of jobs, or - for standard input",
    )
}
