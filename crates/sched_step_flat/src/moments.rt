ghost use Rattle.std.specs.Prelude.{◌≡◌, ◌+◌, ◌-◌, ◌<◌, Some};
ghost use Rattle.sched_plan.specs.Answer.{next_boundary};
ghost use Rattle.sched_step.specs.Step.{kept_or_now, first_planned, next_fixed, is_over, round_next};
ghost use Rattle.sched_step_flat.specs.Words.{moment_word, moment_from, planned_from};

use crate::numbers::sum;
use sched_time::{Millis, Moment};

/// The moment that a word stands for, or this one where it stands for none.
#[inline(always)]
pub(crate) fn moment_or(word: u64, now: Moment) -> u64
    ensures { result ≡ kept_or_now (moment_from word) now }
{
    if word == 0 { now.get() } else { word - 1 }
}

/// The word of the moment that a word stands for, or of this one where it stands for none.
#[inline(always)]
pub(crate) fn word_or(word: u64, now: Moment) -> u64
    ensures { result ≡ moment_word (Some (kept_or_now (moment_from word) now)) }
{
    if word == 0 { now_word(now) } else { word }
}

/// The word of this moment.
#[inline(always)]
pub(crate) fn now_word(now: Moment) -> u64
    ensures { result ≡ moment_word (Some now) }
{
    now.get() + 1
}

/// How long after `since` it is at `now`.
#[inline(always)]
pub(crate) fn time_between(since: u64, now: Moment) -> u64
    ensures { result ≡ now - since }
{
    now.get().saturating_sub(since)
}

/// The next boundary of intervals of this length, the first of which begins at `first`.
pub(crate) fn next_boundary(length: Millis, first: u64, now: Moment) -> Moment
    requires { 0 < length }
    ensures { result ≡ next_boundary length first now }
{
    let past = time_between(first, now) % length.get();
    let rest = Millis::new(length.get() - past).unwrap();
    now.plus(rest)
}

/// The next start of intervals of `length`, from the words of the first moment and of the start planned last: a
/// schedule that is behind goes on at once, else at the next boundary.
pub(crate) fn next_fixed(length: Millis, first: u64, start: u64, now: Moment) -> Moment
    requires { 0 < length }
    ensures { result ≡ next_fixed length (planned_from first start) now }
{
    if first == 0 {
        return now.plus(length);
    }
    if sum(start, length.get()) < now.get() {
        return now;
    }
    next_boundary(length, first - 1, now)
}

/// The word of the first moment of `fixed`: the one that is kept, else that of this event.
#[inline(always)]
pub(crate) fn first_word_or(first: u64, start: u64, now: Moment) -> u64
    ensures { result ≡ first_planned (planned_from first start) now + 1 }
{
    if first == 0 { now_word(now) } else { first }
}

/// Whether so much time has passed since the moment that a word stands for, if there is one.
#[inline(always)]
pub(crate) fn is_over(length: Millis, word: u64, now: Moment) -> bool
    ensures { result ≡ is_over length (moment_from word) now }
{
    word != 0 && length.get() <= time_between(word - 1, now)
}

/// The word of the moment at which the present round began.
#[inline(always)]
pub(crate) fn round_word(length: Millis, word: u64, now: Moment) -> u64
    ensures { result ≡ round_next (is_over length (moment_from word) now) (moment_from word) now + 1 }
{
    if is_over(length, word, now) {
        now_word(now)
    } else {
        word_or(word, now)
    }
}
