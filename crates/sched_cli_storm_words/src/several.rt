//! Limits as an option names them, and several, under each of which the storm is played.
use crate::faults::StormFault;
use crate::limits::{BreakerWords, breaker_words_in, limit_in};
use clap::ArgMatches;
use sched_limit::MAX_TRIPS;
use sched_storm::{Draws, Limit, Parameters, Storm};
use std::alloc::{AllocError, Global};

const LIMIT_WANTED: &str =
    "expected bucket:CAPACITY/FLOOR/COST/LATE/DEBIT/CREDIT (in thousandths of a token, with +refund or without), \
     grpc:TOKENS/RATIO, aws, inflight:LEAST/SHARE[/MOST], adaptive:LEAST/MOST/FIRST/BACKOFF, \
     breaker:FAILURES[/RESULTS]/PROBES/DEADLINE or throttle:RATIO/PERIOD, such as grpc:100/100";

const ONCE: &str =
    "the argument '--limit <LIMIT>' cannot be used multiple times without '--compare <FILE>'";

/// The storm under one of several limits.
#[derive(Debug, Drop)]
pub struct Limited {
    /// What spells the limit.
    pub word: String,
    /// The storm.
    pub storm: Storm,
    /// The breaker, where the limit is one.
    pub breaker: Option<BreakerWords>,
}

/// The limit that a word spells, as what retries draw on.
pub(crate) fn draws_on(alloc: Global, word: &str) -> Result<Draws, StormFault> {
    match limit_in(word) {
        Some(limit) => Ok(Draws::Limited(limit)),
        None => Err(StormFault::value(alloc, "--limit <LIMIT>", word, LIMIT_WANTED)),
    }
}

/// The storm under each limit that is named, where there are several: plans are compared then.
pub(crate) fn limited_in(
    alloc: Global,
    options: &ArgMatches<'_>,
    storm: &Storm,
) -> Result<Vec<Limited>, StormFault> {
    let mut all = Vec::new(alloc);
    if let Some(words) = options.get_strs("limit") {
        for word in words {
            let draws = draws_on(alloc, word)?;
            push(alloc, &mut all, word, with_draws(storm, &draws))?;
        }
    }
    if all.len() < 2 {
        return Ok(Vec::new(alloc));
    }
    if options.get_strs("compare").is_none() {
        return Err(StormFault::bad(alloc, ONCE));
    }
    Ok(all)
}

// Adds the storm under the limit that this word spells.
fn push(alloc: Global, all: &mut Vec<Limited>, word: &str, storm: Storm) -> Result<(), AllocError> {
    all.push(Limited {
        word: String::from_str(alloc, word)?,
        storm,
        breaker: breaker_words_in(word),
    })?;
    Ok(())
}

/// What retries draw on where these words are of a breaker: that is open for these times, of which the first `last + 1`
/// count.
pub(crate) fn opened(
    words: &Option<BreakerWords>,
    times: [u64; MAX_TRIPS],
    last: u64,
) -> Option<Draws> {
    let Some(words) = words else {
        return None;
    };
    Some(Draws::Limited(Limit::Breaker(words.breaker(times, last)?)))
}

/// The storm whose retries draw on this.
pub(crate) fn with_draws(storm: &Storm, draws: &Draws) -> Storm {
    let parameters = Parameters {
        draws: *draws,
        ..*storm.parameters()
    };
    match Storm::new(parameters) {
        Some(storm) => storm,
        None => *storm,
    }
}
