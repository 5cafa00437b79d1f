//! What the options of the command ask for.
use crate::axes::Axis;
use crate::beside::{PopulationWords, beside_in, file_of, populations_in};
use crate::faults::StormFault;
use crate::following::Following;
use crate::limits::{BreakerWords, breaker_words_in};
use crate::numbers::{brown_out_in, span_in};
use crate::rates::{RateSpans, rate_spans_in};
use crate::several::{Limited, draws_on, limited_in, opened, with_draws};
use crate::sweeps::{Sweep, sweep_in};
use clap::ArgMatches;
use sched_limit::MAX_TRIPS;
use sched_storm::{
    BrownOut, Draws, MAX_UNTIL, MAX_WINDOWS, Others, Parameters, Rates, Span, Storm,
};
use sched_ticket_quota::Terms;
use std::alloc::{AllocError, Global};

// How long a storm is played after its requests came, in milliseconds, where nothing is said of it.
const AFTER: u64 = 60000;

const SWEEP_EXCLUDED: &str =
    "the argument '--sweep <NAME=VALUES>' of rate, clients or together cannot be used with '--arrivals <FILE>'";

const OPEN_WANTED: &str = "'--open <FILE>' is of '--limit breaker:..' alone";

const SCENARIO_WANTED: &str = "expected outage, herd or brown-out";

const OUTAGE_WANTED: &str =
    "expected milliseconds, such as 10000..20000; FROM is at most TO, and TO at most 3600000";

const SLOW_WANTED: &str =
    "expected milliseconds and a percentage, such as 10000..20000@50; FROM is at most TO, TO at most 3600000, \
     and PERCENT from 1 to 100";

const RATES_WANTED: &str =
    "expected milliseconds and requests a second, such as 10000..15000@2400,20000..21000@0: up to 8 spans in order, \
     FROM less than TO, TO at most 3600000, and N at most 1000000";

// How wide a line with its bar is where nothing is said.
const WIDTH: u64 = 80;

/// How a storm is told.
#[derive(Clone, Copy, Debug, PartialEq, Eq)]
pub enum Form {
    /// A line for each window, with a bar of its calls, and the totals in words.
    Bars,
    /// A line for each window with all of its numbers, and the totals in words.
    Plain,
    /// The lines alone, as comma-separated values.
    Csv,
    /// Lines and totals as JSON.
    Json,
}

/// What `zsched storm` is asked for.
#[derive(Debug, Drop)]
pub struct StormOptions {
    /// The storm.
    pub storm: Storm,
    /// The storms that are played in its place, along a parameter.
    pub sweep: Option<Sweep>,
    /// How it is told.
    pub form: Form,
    /// How wide a line with its bar is.
    pub width: u64,
    /// The breaker of its limit, and the file of the plan of the open times of breakers, where there is one.
    pub breaker: Option<BreakerWords>,
    pub open: Option<String>,
    /// The storm under each limit, where there are several: the first is `storm`.
    pub limited: Vec<Limited>,
    /// The file of the moments at which its requests come, where there is one, and these moments; none before they are
    /// read.
    pub arrivals: Option<String>,
    pub moments: Vec<u64>,
    /// Whether the options say when the storm ends.
    pub has_until: bool,
    /// The populations of its clients, where there are several.
    pub populations: Vec<PopulationWords>,
    /// The files of the plans that it is played under, or of those of its populations; the first is the program's
    /// input.
    pub names: Vec<String>,
    /// The texts of the further files, in their order; none before they are read.
    pub texts: Vec<Vec<u8>>,
}

/// What the options ask for, where retries draw on this quota, if any. `Bad`, with a line that says why, where a value
/// is outside its range, is no span, or names no scenario.
pub fn storm_options(
    alloc: Global,
    options: &ArgMatches<'_>,
    quota: Option<Terms>,
) -> Result<StormOptions, StormFault> {
    let draws = draws(alloc, options, quota)?;
    let following = Following {
        spans: rate_spans(alloc, options)?,
        beside: beside_in(alloc, options)?,
    };
    let parameters = following.with(&parameters(alloc, options, draws)?);
    let Some(storm) = Storm::new(parameters) else {
        return Err(StormFault::bad(alloc, too_many(&parameters)));
    };
    let sweep = match options.get_str("sweep") {
        Some(word) => Some(sweep_in(alloc, word, &parameters, &following)?),
        None => None,
    };
    let arrivals = arrivals(alloc, options, &sweep)?;
    Ok(StormOptions {
        storm,
        sweep,
        form: form_in(options),
        width: number(options, "width", WIDTH),
        breaker: options.get_str("limit").and_then(breaker_words_in),
        limited: limited_in(alloc, options, &storm)?,
        open: open(alloc, options)?,
        arrivals,
        moments: Vec::new(alloc),
        has_until: options.get_one::<u64>("until").is_some(),
        populations: populations_in(alloc, options, &following.beside)?,
        names: names(alloc, options)?,
        texts: Vec::new(alloc),
    })
}

// The files of the plans.
fn names(alloc: Global, options: &ArgMatches<'_>) -> Result<Vec<String>, AllocError> {
    let mut names = Vec::new(alloc);
    names.push(String::from_str(alloc, options.get_str("file").unwrap_or("-"))?)?;
    if let Some(others) = options.get_strs("compare") {
        for name in others {
            names.push(String::from_str(alloc, name)?)?;
        }
    }
    if let Some(words) = options.get_strs("beside") {
        for word in words {
            names.push(String::from_str(alloc, file_of(word))?)?;
        }
    }
    Ok(names)
}

// Why parameters that are each in their range are none of a storm together.
fn too_many(parameters: &Parameters) -> &'static str {
    let windows = parameters.until.checked_div(parameters.window);
    if windows.unwrap_or(0) > MAX_WINDOWS {
        "'--until <M>' has more than 65536 times '--window <M>'"
    } else if parameters.down > parameters.replicas {
        "'--down <N>' is more than '--replicas <N>'"
    } else if parameters.rates.count == 0 {
        "'--rate <N>' times '--seconds <S>' is more than 1048576 requests"
    } else {
        "'--rates <FROM..TO@N,..>' and '--rate <N>' bring more than 1048576 requests in '--seconds <S>'"
    }
}

fn form_in(options: &ArgMatches<'_>) -> Form {
    if options.get_flag("json") {
        Form::Json
    } else if options.get_flag("csv") {
        Form::Csv
    } else if options.get_flag("plain") {
        Form::Plain
    } else {
        Form::Bars
    }
}

// The parameters that are given, and for the others those of the scenario, without what follows from them.
fn parameters(
    alloc: Global,
    options: &ArgMatches<'_>,
    draws: Draws,
) -> Result<Parameters, StormFault> {
    let base = scenario(alloc, options)?;
    let seconds = number(options, "seconds", base.seconds);
    let replicas = number(options, "replicas", base.replicas);
    Ok(Parameters {
        rate: number(options, "rate", base.rate),
        rates: Rates::NONE,
        together: number(options, "together", base.together),
        seconds,
        capacity: number(options, "capacity", base.capacity),
        patience: number(options, "patience", base.patience),
        queue: number(options, "queue", base.queue),
        replicas,
        outage: outage(alloc, options, base.outage)?,
        down: number(options, "down", replicas),
        slow: slow(alloc, options, base.slow)?,
        window: number(options, "window", base.window),
        until: number(options, "until", until_after(options, seconds)),
        calls: number(options, "calls", base.calls),
        words: number(options, "words", base.words),
        draws,
        others: Others::NONE,
    })
}

// When a storm ends whose requests come for so many seconds, where nothing is said of it. Where they come by moments it
// ends at 0 until these are read.
fn until_after(options: &ArgMatches<'_>, seconds: u64) -> u64 {
    if options.get_str("arrivals").is_some() {
        return 0;
    }
    seconds.saturating_mul(1000).saturating_add(AFTER)
}

// The file of the moments of the requests, where one is named. No sweep is then along what says when requests come.
fn arrivals(
    alloc: Global,
    options: &ArgMatches<'_>,
    sweep: &Option<Sweep>,
) -> Result<Option<String>, StormFault> {
    let Some(name) = options.get_str("arrivals") else {
        return Ok(None);
    };
    if let Some(sweep) = sweep {
        if matches!(sweep.axis, Axis::Rate | Axis::Clients | Axis::Together) {
            return Err(StormFault::bad(alloc, SWEEP_EXCLUDED));
        }
    }
    Ok(Some(String::from_str(alloc, name)?))
}

// The number that is given, or this one.
fn number(options: &ArgMatches<'_>, name: &str, other: u64) -> u64 {
    options.get_one::<u64>(name).unwrap_or(other)
}

// The numbers of the scenario that is named: the defaults are those of the outage.
fn scenario(alloc: Global, options: &ArgMatches<'_>) -> Result<Parameters, StormFault> {
    let outage = Parameters::default();
    let no_outage = Span { from: 0, to: 0 };
    match options.get_str("scenario") {
        None | Some("outage") => Ok(outage),
        Some("herd") => Ok(Parameters {
            rate: 10000,
            together: 10000,
            seconds: 1,
            patience: 1000,
            queue: 500,
            outage: no_outage,
            ..outage
        }),
        Some("brown-out") => Ok(Parameters {
            outage: no_outage,
            slow: Some(BrownOut {
                span: outage.outage,
                percent: 50,
            }),
            ..outage
        }),
        Some(name) => Err(StormFault::value(alloc, "--scenario <NAME>", name, SCENARIO_WANTED)),
    }
}

// The spans with rates of their own that are given, if there are any.
fn rate_spans(alloc: Global, options: &ArgMatches<'_>) -> Result<RateSpans, StormFault> {
    let Some(word) = options.get_str("rates") else {
        return Ok(RateSpans::NONE);
    };
    match rate_spans_in(word) {
        Some(spans) => Ok(spans),
        None => Err(StormFault::value(alloc, "--rates <FROM..TO@N,..>", word, RATES_WANTED)),
    }
}

// The outage that is given, or this one.
fn outage(alloc: Global, options: &ArgMatches<'_>, other: Span) -> Result<Span, StormFault> {
    let Some(word) = options.get_str("outage") else {
        return Ok(other);
    };
    match span_in(word) {
        Some(span) => Ok(span),
        None => Err(StormFault::value(alloc, "--outage <FROM..TO>", word, OUTAGE_WANTED)),
    }
}

// The brown-out that is given, or this one.
fn slow(
    alloc: Global,
    options: &ArgMatches<'_>,
    other: Option<BrownOut>,
) -> Result<Option<BrownOut>, StormFault> {
    let Some(word) = options.get_str("slow") else {
        return Ok(other);
    };
    match brown_out_in(word) {
        Some(slow) => Ok(Some(slow)),
        None => Err(StormFault::value(alloc, "--slow <FROM..TO@PERCENT>", word, SLOW_WANTED)),
    }
}

// A limit, a quota or a budget, or nothing.
fn draws(
    alloc: Global,
    options: &ArgMatches<'_>,
    quota: Option<Terms>,
) -> Result<Draws, StormFault> {
    if let Some(word) = options.get_str("limit") {
        return draws_on(alloc, word);
    }
    match (quota, options.get_one::<u64>("budget")) {
        (Some(terms), _) => Ok(Draws::Quota(terms)),
        (None, Some(limit)) => Ok(Draws::Budget(limit)),
        (None, None) => Ok(Draws::Nothing),
    }
}

// The file of the plan of the open times of breakers, where one is named.
fn open(alloc: Global, options: &ArgMatches<'_>) -> Result<Option<String>, StormFault> {
    let Some(name) = options.get_str("open") else {
        return Ok(None);
    };
    if !has_breaker(options) {
        return Err(StormFault::bad(alloc, OPEN_WANTED));
    }
    Ok(Some(String::from_str(alloc, name)?))
}

// Whether one of the limits is a breaker.
fn has_breaker(options: &ArgMatches<'_>) -> bool {
    if let Some(words) = options.get_strs("limit") {
        for word in words {
            if breaker_words_in(word).is_some() {
                return true;
            }
        }
    }
    false
}

// The same storm, which ends at this moment. `None` where it has too many windows.
pub(crate) fn with_until(storm: &Storm, until: u64) -> Option<Storm> {
    let parameters = Parameters {
        until,
        ..*storm.parameters()
    };
    Storm::new(parameters)
}

impl StormOptions {
    /// The same, with requests at these moments. Where the options do not say when the storm ends, it ends 60 s after
    /// the last of them. `None` where it has too many windows then.
    pub fn with_arrivals(self, moments: Vec<u64>) -> Option<StormOptions> {
        let mut options = self;
        if !options.has_until {
            let last = moments.last().copied().unwrap_or(0);
            let until = last.saturating_add(AFTER).min(MAX_UNTIL);
            let storm = with_until(&options.storm, until)?;
            options.storm = storm;
            for limited in &mut options.limited {
                let storm = with_until(&limited.storm, until)?;
                limited.storm = storm;
            }
            if let Some(sweep) = &mut options.sweep {
                sweep.end_at(until)?;
            }
        }
        options.moments = moments;
        Some(options)
    }

    /// The same, with breakers that are open for these times, of which the first `last + 1` count.
    pub fn with_open_times(self, times: [u64; MAX_TRIPS], last: u64) -> StormOptions {
        let mut options = self;
        for limited in &mut options.limited {
            if let Some(draws) = opened(&limited.breaker, times, last) {
                let storm = with_draws(&limited.storm, &draws);
                limited.storm = storm;
            }
        }
        if let Some(draws) = opened(&options.breaker, times, last) {
            let storm = with_draws(&options.storm, &draws);
            options.storm = storm;
            if let Some(sweep) = &mut options.sweep {
                sweep.draw_on(&draws);
            }
        }
        options
    }
}
