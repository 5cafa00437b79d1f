//! The words of a command line that ask for a pool on a quota.
ghost use Rattle.std.specs.Prelude.{◌≡◌, ◌<◌, IfSome, MatchOption};
ghost use Rattle.sched_ticket_quota.specs.Held.{AreTerms};
ghost use Rattle.sched_cli_words.specs.QuotaSpelling.{Spells, NoTerms, AreShareAndPeriod, NoShareAndPeriod};
ghost use Rattle.sched_cli_words.specs.QuotaSpelling.{IsTenths, IsPeriod, IsNumber, NoneBelow, EndsInUnit, NoUnit};
ghost use Rattle.sched_cli_words.specs.QuotaSpelling.{units};
ghost use Rattle.sched_cli_words.specs.QuotaSpelling.{Has, Lacks, front, rest, until, EndsIn};
ghost use Rattle.sched_cli_words.specs.Quotas.{QuotaIsInRange};

use crate::faults::WordsFault;
use crate::options::MAX_TURNS;
use crate::quotas::QuotaOptions;
use clap::ArgMatches;
use sched_ticket_quota::{MAX_RESERVE, MAX_SHARE, MIN_PERIOD, Terms};
use sched_time::Millis;
use std::alloc::{AllocError, Global};

const QUOTA_WANTED: &str =
    "expected a quota such as 10/20%/60s (units: ms, s, m, h, d), or 10/200/60000 without units; \
     RESERVE is at most 4294967296, SHARE at most 100000%, and PERIOD from 100ms to 4611686018427387903ms";

/// The options of a pool on this quota. `None` where another number of workers than 1 is asked for, or a number is
/// missing or outside its range.
pub(crate) fn quota_options(options: &ArgMatches<'_>, terms: Terms) -> Option<QuotaOptions>
    requires { AreTerms terms }
    ensures { IfSome result QuotaIsInRange }
{
    let workers = options.get_one::<u64>("workers")?;
    let turns = options.get_one::<u64>("turns")?;
    if workers != 1 || turns > MAX_TURNS {
        return None;
    }
    Some(QuotaOptions { terms, turns })
}

/// The fault of a command line whose quota is this text.
pub(crate) fn bad_quota(alloc: Global, text: &str) -> WordsFault {
    match quota_reason(alloc, text) {
        Ok(why) => WordsFault::Bad(why),
        Err(_) => WordsFault::NoMemory,
    }
}

// Why this text spells no quota.
fn quota_reason(alloc: Global, text: &str) -> Result<String, AllocError> {
    let line = match text.split_once('\n') {
        Some((front, _)) => front,
        None => text,
    };
    format!(in alloc;
        "invalid value '{line}' for '--quota <RESERVE/SHARE%/PERIOD>': {QUOTA_WANTED}"
    )
}

/// The terms that a text spells as RESERVE/SHARE%/PERIOD with units, or as RESERVE/SHARE/PERIOD in thousandths and
/// milliseconds; `None` where it spells none that lie in their ranges.
#[tactic(auto, using(crate::proofs::Spelt::of_terms))]
pub(crate) fn terms_in(text: &str) -> Option<Terms>
    ensures spelt { MatchOption result (NoTerms text.now) (Spells text.now) }
    ensures in_range { IfSome result AreTerms }
{
    let (reserve, others) = cut_at(text, '/')?;
    let (share, period) = cut_at(others, '/')?;
    let reserve = number_in(reserve)?;
    let (share, period) = share_and_period_in(share, period)?;
    let period = Millis::new(period)?;
    if reserve > MAX_RESERVE || share > MAX_SHARE || period.get() < MIN_PERIOD {
        return None;
    }
    Some(Terms {
        reserve,
        share,
        period,
    })
}

// What stands before the first of these marks and after it, where the text has one.
#[tactic(auto, using(std::proofs::lemmas::Str::Pattern::split_once_first))]
fn cut_at(text: &str, mark: char) -> Option<(&str, &str)>
    requires { mark < 128 }
    ensures { MatchOption result (Lacks mark text.now)
        (λ parts. Has mark text.now × (parts.0.now ≡ front mark text.now) × (parts.1.now ≡ rest mark text.now)) }
{
    text.split_once(mark)
}

// What stands before the end of a text, where it ends so.
#[tactic(auto, using(crate::proofs::Spelt::not_ends))]
fn before_end<'a>(text: &'a str, end: &str) -> Option<&'a str>
    ensures { MatchOption result (¬ (EndsIn end.now text.now))
        (λ before. EndsIn end.now text.now × (before.now ≡ until end.now text.now)) }
{
    text.strip_suffix(end)
}

// The thousandths and the milliseconds that a share and a period spell.
#[tactic(auto, using(crate::proofs::Spelt::of_shares))]
fn share_and_period_in(share: &str, period: &str) -> Option<(u64, u64)>
    ensures { MatchOption result (NoShareAndPeriod share.now period.now)
        (λ read. AreShareAndPeriod share.now period.now read.0 read.1) }
{
    match before_end(share, "%") {
        Some(percent) => {
            let tenths = tenths_in(percent)?;
            let millis = millis_in(period)?;
            Some((tenths, millis))
        }
        None => {
            let thousandths = number_in(share)?;
            let millis = number_in(period)?;
            Some((thousandths, millis))
        }
    }
}

// The tenths that a word spells as a number with at most one decimal: thousandths, where it counts hundredths.
fn tenths_in(word: &str) -> Option<u64>
    ensures { MatchOption result (NoneBelow (IsTenths word.now)) (IsTenths word.now) }
{
    match cut_at(word, '.') {
        None => whole_tenths_in(word),
        Some((whole, tenth)) => decimal_tenths_in(word, whole, tenth),
    }
}

// The tenths of a whole number.
#[tactic(auto, using(crate::proofs::Spelt::of_tenths))]
fn whole_tenths_in(word: &str) -> Option<u64>
    requires { Lacks 46 word.now }
    ensures { MatchOption result (NoneBelow (IsTenths word.now)) (IsTenths word.now) }
{
    let whole = number_in(word)?;
    whole.checked_mul(10)
}

// The tenths of a number with one decimal.
#[tactic(auto, using(crate::proofs::Spelt::of_tenths))]
fn decimal_tenths_in(word: &str, whole: &str, tenth: &str) -> Option<u64>
    requires has { Has 46 word.now }
    requires whole { whole.now ≡ front 46 word.now }
    requires tenth { tenth.now ≡ rest 46 word.now }
    ensures { MatchOption result (NoneBelow (IsTenths word.now)) (IsTenths word.now) }
{
    if tenth.len() != 1 {
        return None;
    }
    let whole = number_in(whole)?;
    let tenth = number_in(tenth)?;
    whole.checked_mul(10)?.checked_add(tenth)
}

// The milliseconds that a word spells as a whole number with its unit.
#[tactic(auto, using(crate::proofs::Spelt::of_periods))]
fn millis_in(word: &str) -> Option<u64>
    ensures { MatchOption result (NoneBelow (IsPeriod word.now)) (IsPeriod word.now) }
{
    let (count, each) = unit_in(word)?;
    let count = number_in(count)?;
    count.checked_mul(each)
}

// What stands before the unit in which a word ends, and the milliseconds of that unit.
#[tactic(auto, using(crate::proofs::Spelt::of_units))]
fn unit_in(word: &str) -> Option<(&str, u64)>
    ensures { MatchOption result (NoUnit word.now) (λ read. EndsInUnit word.now units read.0.now read.1) }
{
    if let Some(count) = before_end(word, "ms") {
        return Some((count, 1));
    }
    if let Some(count) = before_end(word, "s") {
        return Some((count, 1000));
    }
    if let Some(count) = before_end(word, "m") {
        return Some((count, 60000));
    }
    if let Some(count) = before_end(word, "h") {
        return Some((count, 3600000));
    }
    let count = before_end(word, "d")?;
    Some((count, 86400000))
}

// The number that a word spells.
#[tactic(auto, using(crate::proofs::Spelt::number_read))]
fn number_in(word: &str) -> Option<u64>
    ensures { MatchOption result (NoneBelow (IsNumber word.now)) (IsNumber word.now) }
{
    word.parse::<u64>().ok()
}
