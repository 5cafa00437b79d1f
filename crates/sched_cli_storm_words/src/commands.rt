//! The command, as `clap` takes it. No option has a default here, so that what is given stands over a scenario.
use crate::rows::{Row, Takes, file_command, with_options};
use clap::Command;
use sched_storm::{
    MAX_CALLS, MAX_EACH, MAX_MILLIS, MAX_REPLICAS, MAX_REQUESTS, MAX_SECONDS, MAX_UNTIL,
};
use std::alloc::{AllocError, Global};

// The widths of a line with its bar.
const MIN_WIDTH: u64 = 72;

const MAX_WIDTH: u64 = 1000;

const STORM_EXAMPLES: &str = "Examples:
  zsched storm plans/back-off.json
  zsched storm --quota 10/10%/1s plans/back-off.json
  zsched storm --scenario herd plans/back-off.json
  zsched storm --beside 30@2000=plans/three-times.json plans/back-off.json
  zsched storm --limit aws --limit grpc:100/100 --compare plans/three-times.json \\
    plans/back-off.json
  zsched storm --sweep rate=200..1600/8 plans/back-off.json
  zsched storm --arrivals moments.txt plans/back-off.json";

const STORIES: [Row; 4] = [
    Row {
        name: "scenario",
        takes: Takes::Text("NAME"),
        excludes: &[],
        help: "Start from this scenario and change it by the other options: outage (the defaults), \
               herd (10,000 requests at once) or brown-out (half the capacity from 10 to 20 s)",
    },
    Row {
        name: "compare",
        takes: Takes::Texts("FILE"),
        excludes: &[],
        help: "Play the same storm under this plan too, and print the totals side by side; you can give it again. \
               With several limits each plan is played under each",
    },
    Row {
        name: "beside",
        takes: Takes::Texts("PERCENT[@PATIENCE][+limited]=FILE"),
        excludes: &["compare"],
        help: "Give PERCENT of the requests this plan, and the others the first one, and print the totals of each \
               side by side too; you can give it up to three times, with at most 99 together. PATIENCE is that of \
               their clients, in milliseconds [default: --patience]; their retries draw on the budget, quota or \
               limit only with +limited",
    },
    Row {
        name: "sweep",
        takes: Takes::Text("NAME=VALUES"),
        excludes: &["compare"],
        help: "Play the storm for each value of a parameter, as NAME=FROM..TO/COUNT or NAME=A,B,C, with a line for \
               each; NAME is rate, clients (at once), together, capacity, queue, patience, outage (its length), share \
               or reserve (of --quota), budget, or beside (the PERCENT of the first --beside)",
    },
];

// What comes.
const REQUESTS: [Row; 5] = [
    Row {
        name: "rate",
        takes: Takes::Number("N", 1, MAX_EACH),
        excludes: &[],
        help: "Requests a second, from 1 to 1000000 [default: 800]",
    },
    Row {
        name: "rates",
        takes: Takes::Text("FROM..TO@N,.."),
        excludes: &[],
        help: "Up to 8 spans with a rate of their own, in order: milliseconds up to 3600000, and requests a second \
               from 0 to 1000000, such as 10000..15000@2400,20000..21000@0",
    },
    Row {
        name: "together",
        takes: Takes::Number("N", 1, MAX_EACH),
        excludes: &[],
        help: "Requests that arrive at the same moment, from 1 to 1000000 [default: 1]",
    },
    Row {
        name: "seconds",
        takes: Takes::Number("S", 1, MAX_SECONDS),
        excludes: &[],
        help: "How many seconds requests arrive for, from 1 to 3600, with at most 1048576 requests [default: 60]",
    },
    Row {
        name: "arrivals",
        takes: Takes::Text("FILE"),
        excludes: &["rate", "rates", "together", "seconds"],
        help: "Read when each request arrives from this file: a moment on each line, in milliseconds from 0 to \
               7200000, none before that of the line before it; up to 1048576 lines",
    },
];

const PEER: [Row; 7] = [
    Row {
        name: "capacity",
        takes: Takes::Number("N", 1, MAX_EACH),
        excludes: &[],
        help: "Calls that each replica of the peer serves in a second, from 1 to 1000000 [default: 1000]",
    },
    Row {
        name: "patience",
        takes: Takes::Number("M", 1, MAX_MILLIS),
        excludes: &[],
        help: "Milliseconds until a client gives up on a call, from 1 to 3600000 [default: 500]",
    },
    Row {
        name: "queue",
        takes: Takes::Number("N", 0, MAX_REQUESTS),
        excludes: &[],
        help: "Calls that can wait at each replica of the peer, from 0 to 1048576 [default: 5000]",
    },
    Row {
        name: "replicas",
        takes: Takes::Number("N", 1, MAX_REPLICAS),
        excludes: &[],
        help: "How many replicas the peer is, from 1 to 4; calls go to them in turn [default: 1]",
    },
    Row {
        name: "outage",
        takes: Takes::Text("FROM..TO"),
        excludes: &[],
        help: "When the peer refuses all calls, in milliseconds up to 3600000; 0..0 for never [default: 10000..20000]",
    },
    Row {
        name: "down",
        takes: Takes::Number("N", 1, MAX_REPLICAS),
        excludes: &[],
        help: "How many replicas refuse calls in the outage, from 1 to --replicas [default: all]",
    },
    Row {
        name: "slow",
        takes: Takes::Text("FROM..TO@PERCENT"),
        excludes: &[],
        help: "A brown-out: when the peer serves only PERCENT of its capacity, from 1 to 100, such as 10000..20000@50",
    },
];

const RETRIES: [Row; 5] = [
    Row {
        name: "budget",
        takes: Takes::Number("N", 0, MAX_CALLS),
        excludes: &[],
        help: "The most retries of all requests together, from 0 to 4294967296",
    },
    Row {
        name: "quota",
        takes: Takes::Text("RESERVE/SHARE%/PERIOD"),
        excludes: &["budget"],
        help: "Instead of a budget: in each window of PERIOD at most RESERVE retries plus SHARE of the requests \
               that arrive in it, such as 10/20%/60s (units: ms, s, m, h, d)",
    },
    Row {
        name: "limit",
        takes: Takes::Texts("LIMIT"),
        excludes: &["budget", "quota"],
        help: "Instead of a budget: a limit that requests ask before their first call too, as \
               bucket:CAPACITY/FLOOR/COST/LATE/DEBIT/CREDIT[+refund] (thousandths of a token; LATE is the cost after \
               a late call), grpc:TOKENS/RATIO, aws, inflight:LEAST/SHARE[/MOST] (SHARE in thousandths; MOST requests \
               at once), adaptive:LEAST/MOST/FIRST/BACKOFF (requests at once; BACKOFF in thousandths), \
               breaker:FAILURES[/RESULTS]/PROBES/DEADLINE (FAILURES of the last RESULTS) or throttle:RATIO/PERIOD \
               (thousandths, milliseconds); with --compare you can give it again",
    },
    Row {
        name: "open",
        takes: Takes::Text("FILE"),
        excludes: &[],
        help: "The plan of the open times of breakers: its first wait is that of the first trip, and so on \
               [default: 30 s each]",
    },
    Row {
        name: "words",
        takes: Takes::Number("SEED", 0, u64::MAX),
        excludes: &[],
        help: "The seed of the random words, from 0 to 18446744073709551615 [default: 0]",
    },
];

// What is played and told.
const REPORT: [Row; 7] = [
    Row {
        name: "window",
        takes: Takes::Number("M", 1, MAX_MILLIS),
        excludes: &[],
        help: "Milliseconds in each line of the report, from 1 to 3600000 [default: 1000]",
    },
    Row {
        name: "until",
        takes: Takes::Number("M", 0, MAX_UNTIL),
        excludes: &[],
        help: "The moment at which the simulation stops, in milliseconds from 0 to 7200000 \
               [default: 60 s after the end of --seconds, or after the last moment of --arrivals]",
    },
    Row {
        name: "calls",
        takes: Takes::Number("N", 1, MAX_CALLS),
        excludes: &[],
        help: "The most calls, from 1 to 4294967296: the simulation stops after them [default: 16777216]",
    },
    Row {
        name: "plain",
        takes: Takes::Nothing,
        excludes: &["sweep"],
        help: "Print all numbers of each window, and no bar",
    },
    Row {
        name: "width",
        takes: Takes::Number("N", MIN_WIDTH, MAX_WIDTH),
        excludes: &["plain", "compare"],
        help: "Columns of a line with its bar, from 72 to 1000 [default: 80]",
    },
    Row {
        name: "csv",
        takes: Takes::Nothing,
        excludes: &["plain", "width", "compare"],
        help: "Print the windows alone, as CSV",
    },
    Row {
        name: "json",
        takes: Takes::Nothing,
        excludes: &["csv", "plain", "width", "compare"],
        help: "Print the windows and the totals as one line of JSON",
    },
];

/// The command `zsched storm`.
pub fn storm_command<'a>(alloc: Global) -> Result<Command<'a>, AllocError> {
    let command = file_command(
        alloc,
        "storm",
        "Reads a plan as JSON and simulates many requests under it, to a peer that fails for a while",
        STORM_EXAMPLES,
        "The plan's file, or - for standard input",
    )?;
    let command = with_options(alloc, command, &STORIES)?;
    let command = with_options(alloc, command.next_help_heading("Requests"), &REQUESTS)?;
    let command = with_options(alloc, command.next_help_heading("The peer"), &PEER)?;
    let command = with_options(alloc, command.next_help_heading("Retries"), &RETRIES)?;
    with_options(alloc, command.next_help_heading("Report"), &REPORT)
}
