ghost use Rattle.std.specs.Prelude.{◌≡◌, ◌+◌, if◌then◌else◌, None, length, IsTrue};
ghost use Rattle.sched_plan.specs.Schedule.{is_valid, one as one_schedule};
ghost use Rattle.sched_step.specs.Progress.{is_beside};
ghost use Rattle.sched_step.specs.Step.{begins};
ghost use Rattle.sched_step_flat.specs.Words.{blank, kept_from, width_of, one_width};
ghost use Rattle.sched_step_flat.specs.FlatStep.{cued, is_jitter, pair_number, unread, Decides, FlatSteps};
ghost use Rattle.sched_step_flat.specs.FlatStep.{PairDecides, PairSteps};

use crate::cues::{Cue, Reply};
use crate::leaves::step_leaf;
use crate::moments::word_or;
use crate::ones::{begins, jitter, keep, reply, within};
use crate::parts::{Part, of_first, of_second, reads_output, under};
use crate::puts::{first_word, put_one};
use crate::resets::reset;
use crate::widths::{one_width, width};
use sched_plan::{One, Plan, PlanShape, Two};
use sched_step::changes::{add, cap, set};
use sched_step::decisions::{join, meet};
use sched_time::{Decision, Millis, Moment};

/// Makes the words those after one more event, and gives what the plan decides, where nothing is read of its output.
///
/// It hands on what it is given and has nothing left to do: so it saves no register, and each node is a jump.
#[cycle(decide)]
#[inline(always)]
pub(crate) fn decide(cue: &Cue, plan: &Plan, words: &mut [u64]) -> Decision
    requires { length words.old ≡ width_of plan.now }
    ensures { Decides plan.now words.old (cued cue.now) words.new result }
{
    match plan.shape() {
        PlanShape::Leaf(leaf) => step_leaf(cue, leaf, Part::Unread, words).decision,
        PlanShape::One(node, plan) => match *node {
            One::Add(more) => decide_add(cue, more, words, plan),
            One::Set(delay) => decide_set(cue, delay, words, plan),
            One::Cap(most) => decide_cap(cue, most, words, plan),
            One::Jitter { .. } => decide_jitter(cue, node, words, plan),
            One::Within(time) => decide_within(cue, time, words, plan),
            _ => decide_one(cue, node, words, plan),
        },
        PlanShape::Two(node, plans) => match *node {
            Two::Meet | Two::Join => decide_beside(cue, plans, words, *node),
            Two::Follow => decide_follow(cue, plans, words),
            Two::Feed => decide_feed(cue, plans, words),
        },
    }
}

// The same by a call.
#[cycle(decide)]
#[inline(never)]
fn decide_below(cue: &Cue, plan: &Plan, words: &mut [u64]) -> Decision
    requires { length words.old ≡ width_of plan.now }
    ensures { Decides plan.now words.old (cued cue.now) words.new result }
{
    decide(cue, plan, words)
}

// Each delay made longer by so much.
#[cycle(decide)]
#[inline(never)]
fn decide_add(cue: &Cue, more: Millis, words: &mut [u64], plan: &Plan) -> Decision
    requires { length words.old ≡ width_of plan.now }
    ensures { Decides (one_schedule (One.Add more) plan.now) words.old (cued cue.now) words.new result }
{
    add(more, cue.tick.now, decide_below(cue, plan, words))
}

// This delay instead of each.
#[cycle(decide)]
#[inline(never)]
fn decide_set(cue: &Cue, delay: Millis, words: &mut [u64], plan: &Plan) -> Decision
    requires { length words.old ≡ width_of plan.now }
    ensures { Decides (one_schedule (One.Set delay) plan.now) words.old (cued cue.now) words.new result }
{
    set(delay, cue.tick.now, decide_below(cue, plan, words))
}

// Each delay, but at most this one.
#[cycle(decide)]
#[inline(never)]
fn decide_cap(cue: &Cue, most: Millis, words: &mut [u64], plan: &Plan) -> Decision
    requires { length words.old ≡ width_of plan.now }
    ensures { Decides (one_schedule (One.Cap most) plan.now) words.old (cued cue.now) words.new result }
{
    cap(most, cue.tick.now, decide_below(cue, plan, words))
}

// Each delay times a ratio that a random word picks.
#[cycle(decide)]
#[inline(never)]
fn decide_jitter(cue: &Cue, node: &One, words: &mut [u64], plan: &Plan) -> Decision
    requires kind { IsTrue (is_jitter node.now) }
    requires valid { IsTrue (is_valid (one_schedule node.now plan.now)) }
    requires fits { length words.old ≡ width_of plan.now }
    ensures { Decides (one_schedule node.now plan.now) words.old (cued cue.now) words.new result }
{
    let decision = decide_below(cue, plan, words);
    match *node {
        One::Jitter { lane, least, most } => {
            jitter(least, most, cue.tick.words[lane], cue.tick.now, decision)
        }
        _ => unreachable!(),
    }
}

// The plan, but done once this much time has passed since the first event.
#[cycle(decide)]
#[inline(never)]
fn decide_within(cue: &Cue, time: Millis, words: &mut [u64], plan: &Plan) -> Decision
    requires { length words.old ≡ 1 + width_of plan.now }
    ensures { Decides (one_schedule (One.Within time) plan.now) words.old (cued cue.now) words.new result }
{
    let now = cue.tick.now;
    let (own, below) = words.split_at_mut(1);
    let word = own[0];
    put_one(own, word_or(word, now));
    within(time, word, now, decide_below(cue, plan, below))
}

// Any node over one plan, of which it reads nothing, or else what `advance_one` does.
#[cycle(decide)]
#[inline(never)]
#[tactic(auto, using(crate::proofs::Unread::unread_one, crate::proofs::Unread::unread_reader, crate::proofs::Unread::under_unread))]
fn decide_one(cue: &Cue, node: &One, words: &mut [u64], plan: &Plan) -> Decision
    requires valid { IsTrue (is_valid (one_schedule node.now plan.now)) }
    requires fits { length words.old ≡ one_width node.now + width_of plan.now }
    ensures { Decides (one_schedule node.now plan.now) words.old (cued cue.now) words.new result }
{
    if reads_output(*node) {
        return advance_one(cue, node, plan, Part::Unread, words).decision;
    }
    let (own, below) = words.split_at_mut(one_width(*node));
    let word = first_word(own);
    begin(node, word, cue.tick.now, plan, below);
    let read = unread(decide_below(cue, plan, below));
    keep(node, cue, &read, own);
    reply(node, Part::Unread, word, cue, &read).decision
}

// A reply of which nothing but the decision is read.
#[inline(always)]
fn unread(decision: Decision) -> Reply
    ensures { result ≡ record { number = None; decision = decision } }
{
    Reply {
        number: None,
        decision,
    }
}

// Two plans side by side.
#[cycle(decide)]
#[inline(never)]
fn decide_beside(cue: &Cue, plans: &(Plan, Plan), words: &mut [u64], node: Two) -> Decision
    requires beside { IsTrue (is_beside node) }
    requires fits { length words.old ≡ width_of plans.now.0 + width_of plans.now.1 }
    ensures { PairDecides node plans.now words.old (cued cue.now) words.new result }
{
    let (front, rest) = words.split_at_mut(width(&plans.0));
    let first = decide(cue, &plans.0, front);
    let second = decide_below(cue, &plans.1, rest);
    match node {
        Two::Meet => meet(first, second),
        Two::Join => join(first, second),
        Two::Follow | Two::Feed => unreachable!(),
    }
}

// Two plans one through the other: the whole output of the first is read.
#[cycle(decide)]
#[inline(never)]
fn decide_feed(cue: &Cue, plans: &(Plan, Plan), words: &mut [u64]) -> Decision
    requires { length words.old ≡ width_of plans.now.0 + width_of plans.now.1 }
    ensures { PairDecides Two.Feed plans.now words.old (cued cue.now) words.new result }
{
    let (front, rest) = words.split_at_mut(width(&plans.0));
    let first = advance(cue, &plans.0, Part::Whole, front);
    let through = Cue {
        tick: cue.tick,
        input: first.number,
    };
    let second = decide_below(&through, &plans.1, rest);
    meet(first.decision, second)
}

// Two plans in turn.
#[cycle(decide)]
#[inline(never)]
fn decide_follow(cue: &Cue, plans: &(Plan, Plan), words: &mut [u64]) -> Decision
    requires { length words.old ≡ 1 + (width_of plans.now.0 + width_of plans.now.1) }
    ensures { PairDecides Two.Follow plans.now words.old (cued cue.now) words.new result }
{
    let (own, both) = words.split_at_mut(1);
    if own[0] != 0 {
        let (_, rest) = both.split_at_mut(both.len() - width(&plans.1));
        return decide_below(cue, &plans.1, rest);
    }
    let (front, rest) = both.split_at_mut(width(&plans.0));
    let first = decide_below(cue, &plans.0, front);
    if let Decision::Go(_) = first {
        put_one(own, 0);
        return first;
    }
    put_one(own, 1);
    decide_below(cue, &plans.1, rest)
}

// Makes the words those after one more event, and gives what is read of the plan's answer to it.
///
/// It is inlined where it is called, and the functions of the nodes are not: so a leaf takes no call that goes down.
#[cycle(advance)]
#[inline(always)]
fn advance(cue: &Cue, plan: &Plan, part: Part, words: &mut [u64]) -> Reply
    requires { length words.old ≡ width_of plan.now }
    ensures { FlatSteps plan.now part words.old (cued cue.now) words.new result }
{
    match plan.shape() {
        PlanShape::Leaf(leaf) => step_leaf(cue, leaf, part, words),
        PlanShape::One(node, plan) => advance_one(cue, node, plan, part, words),
        PlanShape::Two(node, plans) => match *node {
            Two::Meet | Two::Join => advance_beside(cue, *node, plans, part, words),
            Two::Follow => advance_follow(cue, plans, part, words),
            Two::Feed => advance_feed(cue, plans, part, words),
        },
    }
}

// A node over one plan: the plan is stepped, and the node makes its answer of the plan's.
#[cycle(advance)]
#[inline(never)]
fn advance_one(cue: &Cue, node: &One, plan: &Plan, part: Part, words: &mut [u64]) -> Reply
    requires valid { IsTrue (is_valid (one_schedule node.now plan.now)) }
    requires fits { length words.old ≡ one_width node.now + width_of plan.now }
    ensures { FlatSteps (one_schedule node.now plan.now) part words.old (cued cue.now) words.new result }
{
    let (own, below) = words.split_at_mut(one_width(*node));
    let word = first_word(own);
    begin(node, word, cue.tick.now, plan, below);
    let read = advance(cue, plan, under(*node, part), below);
    keep(node, cue, &read, own);
    reply(node, part, word, cue, &read)
}

// Makes the words of the plan under a node those before the first event where it begins anew.
#[inline(always)]
fn begin(node: &One, word: u64, now: Moment, plan: &Plan, words: &mut [u64])
    requires { length words.old ≡ width_of plan.now }
    ensures value { words.new ≡
        (if begins node.now (kept_from node.now word) now then blank plan.now else words.old) }
    ensures fits { length words.new ≡ length words.old }
{
    if begins(*node, word, now) {
        reset(plan, words);
    }
}

// Two plans side by side: a meet goes on while both do, a join while one does. A plan that is done is stepped as well.
#[cycle(advance)]
#[inline(never)]
fn advance_beside(
    cue: &Cue,
    node: Two,
    plans: &(Plan, Plan),
    part: Part,
    words: &mut [u64],
) -> Reply
    requires beside { IsTrue (is_beside node) }
    requires fits { length words.old ≡ width_of plans.now.0 + width_of plans.now.1 }
    ensures { PairSteps node plans.now part words.old (cued cue.now) words.new result }
{
    let (front, rest) = words.split_at_mut(width(&plans.0));
    let first = advance(cue, &plans.0, of_first(part), front);
    let second = advance(cue, &plans.1, of_second(part), rest);
    let decision = match node {
        Two::Meet => meet(first.decision, second.decision),
        Two::Join => join(first.decision, second.decision),
        Two::Follow | Two::Feed => unreachable!(),
    };
    Reply {
        number: pair_number(part, first.number, second.number),
        decision,
    }
}

// What is read of a pair, where these are read of its parts.
#[inline(always)]
fn pair_number(part: Part, first: Option<u64>, second: Option<u64>) -> Option<u64>
    ensures { result ≡ pair_number part first second }
{
    match part {
        Part::FirstOf => first,
        Part::SecondOf => second,
        Part::Unread | Part::Whole => None,
    }
}

// Two plans one through the other: the input of the second is the output of the first.
#[cycle(advance)]
#[inline(never)]
fn advance_feed(cue: &Cue, plans: &(Plan, Plan), part: Part, words: &mut [u64]) -> Reply
    requires { length words.old ≡ width_of plans.now.0 + width_of plans.now.1 }
    ensures { PairSteps Two.Feed plans.now part words.old (cued cue.now) words.new result }
{
    let (front, rest) = words.split_at_mut(width(&plans.0));
    let first = advance(cue, &plans.0, Part::Whole, front);
    let through = Cue {
        tick: cue.tick,
        input: first.number,
    };
    let second = advance(&through, &plans.1, part, rest);
    Reply {
        number: second.number,
        decision: meet(first.decision, second.decision),
    }
}

// Two plans in turn: the first until it is done; that event and all later ones go to the second.
#[cycle(advance)]
#[inline(never)]
fn advance_follow(cue: &Cue, plans: &(Plan, Plan), part: Part, words: &mut [u64]) -> Reply
    requires { length words.old ≡ 1 + (width_of plans.now.0 + width_of plans.now.1) }
    ensures { PairSteps Two.Follow plans.now part words.old (cued cue.now) words.new result }
{
    let (own, both) = words.split_at_mut(1);
    if own[0] != 0 {
        let (_, rest) = both.split_at_mut(both.len() - width(&plans.1));
        return advance(cue, &plans.1, part, rest);
    }
    let (front, rest) = both.split_at_mut(width(&plans.0));
    let first = advance(cue, &plans.0, part, front);
    if let Decision::Go(_) = first.decision {
        put_one(own, 0);
        return first;
    }
    put_one(own, 1);
    advance(cue, &plans.1, part, rest)
}
