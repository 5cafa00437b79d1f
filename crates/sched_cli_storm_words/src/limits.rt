//! Limits, as words spell them.
use crate::numbers::number_in;
use sched_limit::{Adaptive, Breaker, Bucket, InFlight, MAX_TRIPS, NO_MOST, Throttle};
use sched_storm::Limit;
use sched_time::{Millis, Moment};

// For how long a breaker is open where no plan says it.
const OPEN: u64 = 30000;

// What a retry of the AWS SDKs takes of their bucket, and after a timeout.
const AWS_COST: u64 = 5000;

const AWS_LATE: u64 = 10000;

/// What a breaker is made with beside its open times.
#[derive(Clone, Copy, Debug, PartialEq, Eq)]
pub struct BreakerWords {
    failures: u32,
    /// Among how many of the last results these are; none where they are in a row.
    results: Option<u32>,
    probes: u64,
    deadline: u64,
}

impl BreakerWords {
    /// The breaker that is open for these times, of which the first `last + 1` count.
    pub fn breaker(&self, times: [u64; MAX_TRIPS], last: u64) -> Option<Breaker> {
        let now = Moment::new(0)?;
        let deadline = Millis::new(self.deadline)?;
        let breaker = Breaker::new(now, self.failures, self.probes, deadline, times, last)?;
        match self.results {
            Some(results) => breaker.by_results(results),
            None => Some(breaker),
        }
    }
}

/// The limit that a word spells, such as grpc:100/100, in its range.
pub(crate) fn limit_in(word: &str) -> Option<Limit> {
    if word == "aws" {
        return Some(Limit::Bucket {
            bucket: Bucket::aws(),
            cost: AWS_COST,
            late: AWS_LATE,
        });
    }
    let (kind, numbers) = word.split_once(':')?;
    match kind {
        "bucket" => bucket_in(numbers),
        "grpc" => grpc_in(numbers),
        "inflight" => in_flight_in(numbers),
        "adaptive" => adaptive_in(numbers),
        "breaker" => Some(Limit::Breaker(breaker_in(numbers)?.breaker([OPEN; MAX_TRIPS], 0)?)),
        "throttle" => throttle_in(numbers),
        _ => None,
    }
}

/// What a word spells of a breaker, where it spells one.
pub(crate) fn breaker_words_in(word: &str) -> Option<BreakerWords> {
    match word.split_once(':') {
        Some(("breaker", numbers)) => breaker_in(numbers),
        _ => None,
    }
}

// CAPACITY/FLOOR/COST/LATE/DEBIT/CREDIT, and +refund where a success gives back what its request's last retry took.
fn bucket_in(word: &str) -> Option<Limit> {
    let (numbers, refund) = match word.split_once('+') {
        Some((numbers, "refund")) => (numbers, true),
        Some(_) => return None,
        None => (word, false),
    };
    let (capacity, rest) = first_in(numbers)?;
    let (floor, rest) = first_in(rest)?;
    let (cost, rest) = first_in(rest)?;
    let (late, rest) = first_in(rest)?;
    let (debit, credit) = two_in(rest)?;
    let bucket = Bucket {
        capacity,
        floor,
        debit,
        credit,
        refund,
    };
    let is_whole = bucket.is_sound() && cost <= capacity && late <= capacity;
    if !is_whole {
        return None;
    }
    Some(Limit::Bucket { bucket, cost, late })
}

// TOKENS/RATIO.
fn grpc_in(word: &str) -> Option<Limit> {
    let (tokens, ratio) = two_in(word)?;
    Some(Limit::Bucket {
        bucket: Bucket::grpc(tokens, ratio)?,
        cost: 0,
        late: 0,
    })
}

// LEAST/SHARE, or LEAST/SHARE/MOST.
fn in_flight_in(word: &str) -> Option<Limit> {
    let (least, rest) = word.split_once('/')?;
    let (share, most) = match rest.split_once('/') {
        Some((share, most)) => (share, word_of(number_in(most)?)?),
        None => (rest, NO_MOST),
    };
    Some(Limit::InFlight(InFlight {
        least: word_of(number_in(least)?)?,
        share: word_of(number_in(share)?)?,
        most,
    }))
}

// LEAST/MOST/FIRST/BACKOFF.
fn adaptive_in(word: &str) -> Option<Limit> {
    let (least, rest) = first_in(word)?;
    let (most, rest) = first_in(rest)?;
    let (first, backoff) = two_in(rest)?;
    Some(Limit::Adaptive(Adaptive::new(
        word_of(least)?,
        word_of(most)?,
        word_of(first)?,
        word_of(backoff)?,
    )?))
}

// FAILURES/PROBES/DEADLINE, or FAILURES/RESULTS/PROBES/DEADLINE.
fn breaker_in(word: &str) -> Option<BreakerWords> {
    let (failures, rest) = first_in(word)?;
    let (second, rest) = first_in(rest)?;
    let (results, probes, deadline) = match rest.split_once('/') {
        Some((probes, deadline)) => {
            (
                Some(word_of(second)?),
                number_in(probes)?,
                number_in(deadline)?,
            )
        }
        None => (None, second, number_in(rest)?),
    };
    Some(BreakerWords {
        failures: word_of(failures)?,
        results,
        probes,
        deadline,
    })
}

// RATIO/PERIOD.
fn throttle_in(word: &str) -> Option<Limit> {
    let (ratio, period) = two_in(word)?;
    let now = Moment::new(0)?;
    let period = Millis::new(period)?;
    Some(Limit::Throttle(Throttle::new(now, word_of(ratio)?, period)?))
}

// The number before the first slash, and what follows that.
fn first_in(word: &str) -> Option<(u64, &str)> {
    let (number, rest) = word.split_once('/')?;
    Some((number_in(number)?, rest))
}

fn two_in(word: &str) -> Option<(u64, u64)> {
    let (first, second) = first_in(word)?;
    Some((first, number_in(second)?))
}

// The number as one of 32 bits.
fn word_of(number: u64) -> Option<u32> {
    if number <= 4294967295 {
        Some(number as u32)
    } else {
        None
    }
}
