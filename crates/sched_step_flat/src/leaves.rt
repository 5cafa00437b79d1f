ghost use Rattle.std.specs.Prelude.{◌≡◌, [], if◌then◌else◌, nat_lt, length, IsTrue};
ghost use Rattle.sched_time.specs.declared.starts.Decision.{Decision};
ghost use Rattle.sched_plan.specs.Datum.{num};
ghost use Rattle.sched_plan.specs.Schedule.{leaf_in_range};
ghost use Rattle.sched_step.specs.StateOf.{leaf_state};
ghost use Rattle.sched_step_flat.specs.Words.{leaf_width, leaf_words};
ghost use Rattle.sched_step_flat.specs.Parts.{wanted};
ghost use Rattle.sched_step_flat.specs.FlatStep.{cued, divides, unread, LeafSteps};
ghost use Rattle.sched_step_flat.specs.declared.parts.Part.TheVariants.{Unread};

use crate::cues::{Cue, Reply};
use crate::moments::{first_word_or, moment_or, next_boundary, next_fixed, time_between, word_or};
use crate::numbers::{decorrelated, go_after, product, scaled, sum};
use crate::parts::{Part, read_input, read_number};
use crate::puts::{put_one, put_three, put_two};
use sched_plan::Leaf;
use sched_step::times::go_at;
use sched_time::{Decision, Millis, Moment};

/// A leaf's step. It is inlined where it is called.
#[inline(always)]
pub(crate) fn step_leaf(cue: &Cue, leaf: &Leaf, part: Part, words: &mut [u64]) -> Reply
    requires valid { IsTrue (leaf_in_range leaf.now) }
    requires fits { length words.old ≡ leaf_width leaf.now }
    ensures { LeafSteps leaf.now part words.old (cued cue.now) words.new result }
{
    let now = cue.tick.now;
    match *leaf {
        Leaf::Forever => {
            let count = words[0];
            put_one(words, sum(count, 1));
            reply(part, count, go_at(now))
        }
        Leaf::Recurs(most) => {
            let count = words[0];
            put_one(words, sum(count, 1));
            reply(part, count, go_below(count, most, now))
        }
        Leaf::Spaced(delay) => {
            let count = words[0];
            put_one(words, sum(count, 1));
            reply(part, count, go_after(now, delay.get()))
        }
        Leaf::Linear(delay) => {
            let count = sum(words[0], 1);
            put_one(words, count);
            let delay = product(delay.get(), count);
            reply(part, delay, go_after(now, delay))
        }
        Leaf::Exponential { factor, .. } => {
            let delay = words[0];
            put_one(words, product(delay, factor));
            reply(part, delay, go_after(now, delay))
        }
        Leaf::Fibonacci(_) => {
            let delay = words[0];
            let after = words[1];
            put_two(words, after, sum(delay, after));
            reply(part, delay, go_after(now, delay))
        }
        Leaf::Elapsed => {
            let first = words[0];
            put_one(words, word_or(first, now));
            reply(part, time_between(moment_or(first, now), now), go_at(now))
        }
        Leaf::Identity => Reply {
            number: read_input(part, cue.input),
            decision: go_at(now),
        },
        Leaf::Unfold { factor, more, .. } => {
            let number = words[0];
            put_one(words, factor.times(number).plus(more).get());
            reply(part, number, go_at(now))
        }
        Leaf::Lone(delay) => {
            let spent = words[0];
            put_one(words, 1);
            if spent == 0 {
                reply(part, delay.get(), go_after(now, delay.get()))
            } else {
                reply(part, 0, Decision::Done)
            }
        }
        Leaf::Fixed(_) | Leaf::Windowed(_) | Leaf::ExponentialMilli { .. } => {
            let number = words[0];
            reply(part, number, step_divided(cue, leaf, words))
        }
        Leaf::Decorrelated { .. } => {
            let decision = step_divided(cue, leaf, words);
            reply(part, words[0], decision)
        }
    }
}

// The step of a leaf that divides. It is a call, so that what steps the others has no registers to save.
#[inline(never)]
fn step_divided(cue: &Cue, leaf: &Leaf, words: &mut [u64]) -> Decision
    requires kind { IsTrue (divides leaf.now) }
    requires valid { IsTrue (leaf_in_range leaf.now) }
    requires fits { length words.old ≡ leaf_width leaf.now }
    ensures { LeafSteps leaf.now Unread words.old (cued cue.now) words.new (unread result) }
{
    let now = cue.tick.now;
    match *leaf {
        Leaf::Fixed(length) => {
            let count = words[0];
            let first = words[1];
            let start = words[2];
            let next = next_fixed(length, first, start, now);
            put_three(
                words,
                sum(count, 1),
                first_word_or(first, start, now),
                next.get(),
            );
            go_at(next)
        }
        Leaf::Windowed(length) => {
            let count = words[0];
            let first = words[1];
            put_two(words, sum(count, 1), word_or(first, now));
            go_at(next_boundary(length, moment_or(first, now), now))
        }
        Leaf::ExponentialMilli { thousandths, .. } => {
            let delay = words[0];
            put_one(words, scaled(delay, thousandths));
            go_after(now, delay)
        }
        Leaf::Decorrelated {
            lane,
            base,
            thousandths,
            most,
        } => {
            let before = words[0];
            let delay = decorrelated(base, thousandths, most, before, cue.tick.words[lane]);
            put_one(words, delay);
            go_after(now, delay)
        }
        _ => unreachable!(),
    }
}

// What is read of a number and a decision.
#[inline(always)]
fn reply(part: Part, number: u64, decision: Decision) -> Reply
    ensures { result ≡ record { number = wanted part (num number); decision = decision } }
{
    Reply {
        number: read_number(part, number),
        decision,
    }
}

// Going on at once while there were fewer events.
fn go_below(count: u64, most: Millis, now: Moment) -> Decision
    ensures { result ≡ (if nat_lt count most then Decision.Go now else Decision.Done) }
{
    if count < most.get() {
        go_at(now)
    } else {
        Decision::Done
    }
}

/// Makes the words those of a leaf before its first event.
pub(crate) fn reset_leaf(leaf: &Leaf, words: &mut [u64])
    requires { length words.old ≡ leaf_width leaf.now }
    ensures { words.new ≡ leaf_words (leaf_state leaf.now []) }
{
    match *leaf {
        Leaf::Forever
        | Leaf::Recurs(_)
        | Leaf::Spaced(_)
        | Leaf::Linear(_)
        | Leaf::Elapsed
        | Leaf::Lone(_) => put_one(words, 0),
        Leaf::Fixed(_) => put_three(words, 0, 0, 0),
        Leaf::Windowed(_) => put_two(words, 0, 0),
        Leaf::Exponential { base, .. } => put_one(words, base.times(1).get()),
        Leaf::ExponentialMilli { base, .. } | Leaf::Decorrelated { base, .. } => {
            put_one(words, base.get());
        }
        Leaf::Fibonacci(delay) => put_two(words, delay.times(1).get(), delay.times(1).get()),
        Leaf::Identity => {}
        Leaf::Unfold { seed, .. } => put_one(words, seed.get()),
    }
}
