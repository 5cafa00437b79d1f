//! A breaker's word: its generation, whether it is tripped, and what it counts.
//!
//! | Bits from 0 on | Closed | Tripped |
//! |---|---|---|
//! | 1 | 0 | 1 |
//! | 4 | the count of failures, 51 bits | the probes that won |
//! | 4 | | the probes admitted; 0 where it is open, else it is half open |
//! | 37 | | where it is open the moment until when, else that of the last probe, from the breaker's start on |
//! | 6 | | which trip it is, from 0 on |
//! | 12 | the generation | the generation |
ghost use Rattle.std.specs.Prelude.{◌≡◌, ◌<◌, ◌%◌, ◌==◌};
ghost use Rattle.sched_limit.specs.Word.{generation_of, count_of, won_of, admitted_of, at_of, trip_of, closed, tripped};

/// What one of each is in the word.
const WON: u64 = 2;

const ADMITTED: u64 = 32;

const AT: u64 = 512;

const TRIP: u64 = 70368744177664;

pub(crate) const GENERATION: u64 = 4503599627370496;

/// How many there are of each.
const PROBES: u64 = 16;

const MOMENTS: u64 = 137438953472;

const TRIPS: u64 = 64;

pub(crate) const GENERATIONS: u64 = 4096;

pub(crate) fn is_tripped(word: u64) -> bool
    ensures { result ≡ (word % 2 == 1) }
{
    word % 2 == 1
}

pub(crate) fn generation_of(word: u64) -> u64
    ensures { result ≡ generation_of word }
{
    word / GENERATION
}

pub(crate) fn count_of(word: u64) -> u64
    ensures { result ≡ count_of word }
{
    word % GENERATION / 2
}

pub(crate) fn won_of(word: u64) -> u64
    ensures { result ≡ won_of word }
{
    word / WON % PROBES
}

pub(crate) fn admitted_of(word: u64) -> u64
    ensures { result ≡ admitted_of word }
{
    word / ADMITTED % PROBES
}

pub(crate) fn at_of(word: u64) -> u64
    ensures { result ≡ at_of word }
{
    word / AT % MOMENTS
}

pub(crate) fn trip_of(word: u64) -> u64
    ensures { result ≡ trip_of word }
{
    word / TRIP % TRIPS
}

/// A closed breaker's word.
pub(crate) fn closed(generation: u64, count: u64) -> u64
    requires generation { generation < 4096 }
    requires count { count < 2251799813685248 }
    ensures { result ≡ closed generation count }
{
    generation * GENERATION + count * 2
}

/// A tripped breaker's word.
pub(crate) fn tripped(generation: u64, trip: u64, at: u64, admitted: u64, won: u64) -> u64
    requires generation { generation < 4096 }
    requires trip { trip < 64 }
    requires at { at < 137438953472 }
    requires admitted { admitted < 16 }
    requires won { won < 16 }
    ensures { result ≡ tripped generation trip at admitted won }
{
    generation * GENERATION + trip * TRIP + at * AT + admitted * ADMITTED + won * WON + 1
}
