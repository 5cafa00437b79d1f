ghost use Rattle.std.specs.Prelude.{◌≡◌, ◌≤◌, if◌then◌else◌, length, slice_index, Some, IsTrue};
ghost use Rattle.sched_time.specs.declared.starts.Decision.{Decision};
ghost use Rattle.sched_plan.specs.Changes.{goes_past, moved_decision};
ghost use Rattle.sched_plan.specs.Delays.{added_out, jittered};
ghost use Rattle.sched_plan.specs.Outputs.{number_of};
ghost use Rattle.sched_plan.specs.Schedule.{one_in_range};
ghost use Rattle.sched_step.specs.StateOf.{first_kept};
ghost use Rattle.sched_step.specs.Step.{begins, fold_total, is_over, kept_or_now, one_next};
ghost use Rattle.sched_step_flat.specs.Words.{kept_from, kept_words, moment_from, one_width};
ghost use Rattle.sched_step_flat.specs.Parts.{number_datum};
ghost use Rattle.sched_step_flat.specs.FlatStep.{answer_of, cued, decision_gated, one_reply};

use crate::cues::{Cue, Reply};
use crate::moments::{is_over, moment_or, now_word, round_word, time_between, word_or};
use crate::numbers::{go_after, jittered, sum};
use crate::parts::{Part, if_whole};
use crate::puts::put_one;
use sched_plan::{Fold, One, Side, Test};
use sched_step::changes::{add, cap, compare, set};
use sched_time::{Decision, Millis, Moment};

/// Whether the plan under a node of this word begins anew at an event at `now`.
#[inline(always)]
pub(crate) fn begins(node: One, word: u64, now: Moment) -> bool
    ensures { result ≡ begins node (kept_from node word) now }
{
    match node {
        One::Renew(length) | One::RenewIdle(length) => is_over(length, word, now),
        _ => false,
    }
}

/// Makes the node's own words those after one more event, of whose answer by the plan under the node this was read.
#[inline(always)]
pub(crate) fn keep(node: &One, cue: &Cue, under: &Reply, own: &mut [u64])
    requires { length own.old ≡ one_width node.now }
    ensures { own.new ≡ kept_words (one_next node.now (kept_from node.now (slice_index own.old 0))
        (cued cue.now) (answer_of under.now)) }
{
    let now = cue.tick.now;
    match *node {
        One::Gather(Fold::Sum) => {
            let total = own[0];
            put_one(own, folded(Fold::Sum, total, under));
        }
        One::Gather(Fold::Count) => {
            let total = own[0];
            put_one(own, folded(Fold::Count, total, under));
        }
        One::Gather(Fold::Max) => {
            let total = own[0];
            put_one(own, folded(Fold::Max, total, under));
        }
        One::Within(_) | One::EndsBy(_) => {
            let first = own[0];
            put_one(own, word_or(first, now));
        }
        One::Renew(length) => {
            let began = own[0];
            put_one(own, round_word(length, began, now));
        }
        One::RenewIdle(_) => put_one(own, now_word(now)),
        _ => {}
    }
}

// What a fold makes of its number so far and of this reply.
fn folded(fold: Fold, total: u64, under: &Reply) -> u64
    ensures { result ≡ fold_total fold total (answer_of under.now) }
{
    if let Decision::Done = under.decision {
        return total;
    }
    match fold {
        Fold::Sum => sum(total, number(under.number)),
        Fold::Count => sum(total, 1),
        Fold::Max => total.max(number(under.number)),
        Fold::List => total,
    }
}

// The number, or 0 where there is none.
fn number(number: Option<u64>) -> u64
    ensures { result ≡ number_of (number_datum number) }
{
    match number {
        Some(number) => number,
        None => 0,
    }
}

/// What is read of the answer of a node of this word, where this was read of the answer of the plan under it.
#[inline(always)]
pub(crate) fn reply(node: &One, part: Part, word: u64, cue: &Cue, under: &Reply) -> Reply
    requires { IsTrue (one_in_range node.now) }
    ensures { result ≡ one_reply node.now part (kept_from node.now word) (cued cue.now) under.now }
{
    let now = cue.tick.now;
    let number = under.number;
    let decision = under.decision;
    match *node {
        One::Gate {
            side: Side::Input,
            want,
            test,
            bound,
        } => Reply {
            number,
            decision: gate(want, test, bound, cue.input, decision),
        },
        One::Gate {
            side: Side::Output,
            want,
            test,
            bound,
        } => Reply {
            number: if_whole(part, number),
            decision: gate(want, test, bound, number, decision),
        },
        One::Gather(Fold::Sum | Fold::Count | Fold::Max) => Reply {
            number: if_whole(part, Some(word)),
            decision,
        },
        One::Gather(Fold::List) => Reply {
            number: None,
            decision,
        },
        One::Add(more) => Reply {
            number,
            decision: add(more, now, decision),
        },
        One::Set(delay) => Reply {
            number,
            decision: set(delay, now, decision),
        },
        One::Cap(most) => Reply {
            number,
            decision: cap(most, now, decision),
        },
        One::AddOut => Reply {
            number: if_whole(part, number),
            decision: add_out(now, number, decision),
        },
        One::Jitter { lane, least, most } => Reply {
            number,
            decision: jitter(least, most, cue.tick.words[lane], now, decision),
        },
        One::Within(length) => Reply {
            number,
            decision: within(length, word, now, decision),
        },
        One::EndsBy(length) => Reply {
            number,
            decision: end_by(sum(moment_or(word, now), length.get()), decision),
        },
        One::Renew(_) | One::RenewIdle(_) | One::First | One::Second => Reply { number, decision },
        One::Nothing => Reply {
            number: None,
            decision,
        },
    }
}

// The decision, but done where the test of the number has not the wanted result.
fn gate(want: bool, test: Test, bound: Millis, number: Option<u64>, decision: Decision) -> Decision
    ensures { result ≡ decision_gated want test bound number decision }
{
    let passes = match number {
        Some(number) => compare(test, bound, number),
        None => false,
    };
    if passes == want {
        decision
    } else {
        Decision::Done
    }
}

/// Going on after the delay in the ratio that this random word picks.
#[inline(always)]
pub(crate) fn jitter(least: u64, most: u64, word: u32, now: Moment, decision: Decision) -> Decision
    requires order { least ≤ most }
    requires small { most ≤ 10000 }
    ensures { result ≡ moved_decision (jittered least most word) now decision }
{
    match decision {
        Decision::Go(interval) => {
            let delay = time_between(now.get(), interval.start());
            go_after(now, jittered(least, most, word, delay))
        }
        Decision::Done => Decision::Done,
    }
}

// Going on after a delay that is longer by the number, where there is one.
fn add_out(now: Moment, number: Option<u64>, decision: Decision) -> Decision
    ensures { result ≡ moved_decision (added_out (number_datum number)) now decision }
{
    match decision {
        Decision::Go(interval) => {
            let delay = time_between(now.get(), interval.start());
            match number {
                Some(number) => go_after(now, sum(delay, number)),
                None => go_after(now, delay),
            }
        }
        Decision::Done => Decision::Done,
    }
}

/// The decision, but done once so much time has passed since the moment that the word stands for.
#[inline(always)]
pub(crate) fn within(length: Millis, word: u64, now: Moment, decision: Decision) -> Decision
    ensures { result ≡
        (if is_over length (Some (kept_or_now (moment_from word) now)) now then Decision.Done else decision) }
{
    if length.get() <= time_between(moment_or(word, now), now) {
        Decision::Done
    } else {
        decision
    }
}

// The decision, but done where it would go on later than this moment.
fn end_by(end: u64, decision: Decision) -> Decision
    ensures { result ≡ (if goes_past end decision then Decision.Done else decision) }
{
    match decision {
        Decision::Go(interval) if end < interval.start().get() => Decision::Done,
        _ => decision,
    }
}

/// Makes the node's own words those before the first event.
pub(crate) fn reset_own(node: &One, own: &mut [u64])
    requires { length own.old ≡ one_width node.now }
    ensures { own.new ≡ kept_words (first_kept node.now) }
{
    match *node {
        One::Gather(Fold::Sum | Fold::Count | Fold::Max)
        | One::Within(_)
        | One::EndsBy(_)
        | One::Renew(_)
        | One::RenewIdle(_) => put_one(own, 0),
        _ => {}
    }
}
