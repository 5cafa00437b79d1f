ghost use Rattle.std.specs.Prelude.{◌≡◌, ◌+◌, ◌*◌, ◌/◌, ◌<◌, ◌≤◌, [], if◌then◌else◌, nat_lt, IfOk, IsTrue};
ghost use Rattle.sched_time.specs.Capped.{capped};
ghost use Rattle.sched_time.specs.declared.starts.Decision.{Decision};
ghost use Rattle.sched_plan.specs.Schedule.{leaf_in_range};
ghost use Rattle.sched_plan.specs.Sequences.{decorrelated_after};
ghost use Rattle.sched_step.specs.Progress.{leaf_view, leaf_keeps, leaf_began};
ghost use Rattle.sched_step.specs.StateOf.{leaf_state, event_of};
ghost use Rattle.sched_step.specs.Step.{answered, leaf_next, leaf_answers, count_of, output_next, output_after};
ghost use Rattle.sched_step.specs.Step.{output_before};
ghost use Rattle.sched_step.specs.Step.{started_of, planned_of, lone_is_past, first_planned, next_fixed};

use crate::changes::at_most_far;
use crate::outputs::{put_copy, put_number};
use crate::times::{go_after, go_at, next_boundary, time_between, view_moment};
use crate::walks::Walk;
use sched_plan::{Leaf, Val};
use sched_time::{Decision, Millis, Moment, NoMemory};
use std::alloc::Global;

// What is kept of a leaf's events.
#[derive(Clone, Copy, Debug, PartialEq, Eq)]
pub(crate) enum LeafState {
    /// How many there were.
    Counted(Millis),
    /// How many there were and, once there was one, the first moment and the start planned last.
    Planned(Millis, Option<(Moment, Moment)>),
    /// How many there were and, once there was one, the first moment.
    Windows(Millis, Option<Moment>),
    /// The product that the next one puts out.
    Product(Millis),
    /// The scaled number that the next one puts out.
    Scaled(Millis),
    /// The numbers that the next two put out.
    Summands(Millis, Millis),
    /// The delay that the last one put out; the base before the first.
    Waited(Millis),
    /// The first moment, once there was one.
    Started(Option<Moment>),
    /// Nothing.
    Blank,
    /// The number that the next one puts out.
    Unfolded(Millis),
    /// Whether there was one.
    Spent(bool),
}

impl LeafState {
    /// Before the first event.
    pub(crate) fn initial(leaf: Leaf) -> LeafState
        ensures { result ≡ leaf_state leaf [] }
    {
        let none = Millis::from(0);
        match leaf {
            Leaf::Forever | Leaf::Recurs(_) | Leaf::Spaced(_) | Leaf::Linear(_) => {
                LeafState::Counted(none)
            }
            Leaf::Fixed(_) => LeafState::Planned(none, None),
            Leaf::Windowed(_) => LeafState::Windows(none, None),
            Leaf::Exponential { base, .. } => LeafState::Product(base.times(1)),
            Leaf::ExponentialMilli { base, .. } => LeafState::Scaled(base),
            Leaf::Fibonacci(delay) => LeafState::Summands(delay.times(1), delay.times(1)),
            Leaf::Decorrelated { base, .. } => LeafState::Waited(base),
            Leaf::Elapsed => LeafState::Started(None),
            Leaf::Identity => LeafState::Blank,
            Leaf::Unfold { seed, .. } => LeafState::Unfolded(seed),
            Leaf::Lone(_) => LeafState::Spent(false),
        }
    }

    /// The value that shows what is kept.
    pub(crate) fn view(&self, alloc: Global) -> Result<Val, NoMemory>
        ensures { IfOk result (λ v. v ≡ leaf_view self.now) }
    {
        match *self {
            LeafState::Counted(number)
            | LeafState::Product(number)
            | LeafState::Scaled(number)
            | LeafState::Waited(number)
            | LeafState::Unfolded(number) => Ok(Val::from(number)),
            LeafState::Planned(count, None) => Val::pair(alloc, Val::from(count), Val::unit()),
            LeafState::Planned(count, Some((first, start))) => {
                let planned = Val::pair(
                    alloc,
                    Val::from(Millis::from(first)),
                    Val::from(Millis::from(start)),
                )?;
                Val::pair(alloc, Val::from(count), planned)
            }
            LeafState::Windows(count, first) => {
                Val::pair(alloc, Val::from(count), view_moment(first))
            }
            LeafState::Summands(one, other) => {
                Val::pair(alloc, Val::from(one), Val::from(other))
            }
            LeafState::Started(first) => Ok(view_moment(first)),
            LeafState::Blank => Ok(Val::unit()),
            LeafState::Spent(spent) => Ok(Val::from(Millis::from(u32::from(spent)))),
        }
    }

    /// Whether the state is of this leaf's kind.
    pub(crate) fn is_of(self, leaf: Leaf) -> bool
        ensures { result ≡ leaf_keeps leaf self }
    {
        match (leaf, self) {
            (
                Leaf::Forever | Leaf::Recurs(_) | Leaf::Spaced(_) | Leaf::Linear(_),
                LeafState::Counted(_),
            ) => true,
            (Leaf::Fixed(_), LeafState::Planned(_, _)) => true,
            (Leaf::Windowed(_), LeafState::Windows(_, _)) => true,
            (Leaf::Exponential { .. }, LeafState::Product(_)) => true,
            (Leaf::ExponentialMilli { .. }, LeafState::Scaled(_)) => true,
            (Leaf::Fibonacci(_), LeafState::Summands(_, _)) => true,
            (Leaf::Decorrelated { .. }, LeafState::Waited(_)) => true,
            (Leaf::Elapsed, LeafState::Started(_)) => true,
            (Leaf::Identity, LeafState::Blank) => true,
            (Leaf::Unfold { .. }, LeafState::Unfolded(_)) => true,
            (Leaf::Lone(_), LeafState::Spent(_)) => true,
            _ => false,
        }
    }

    /// Whether it has no first moment after `now`.
    pub(crate) fn began_by(self, now: Moment) -> bool
        ensures { result ≡ leaf_began self now }
    {
        match self {
            LeafState::Planned(_, Some((first, _)))
            | LeafState::Windows(_, Some(first))
            | LeafState::Started(Some(first)) => first <= now,
            _ => true,
        }
    }

    /// Notes in `next` the state after one more event, and makes `output` and `decision` what the leaf answers to it.
    /// It takes memory for the output alone.
    pub(crate) fn step(
        &self,
        walk: &Walk<'_>,
        leaf: &Leaf,
        next: &mut LeafState,
        output: &mut Val,
        decision: &mut Decision,
    ) -> Result<(), NoMemory>
        requires { IsTrue (leaf_in_range leaf.now) }
        ensures next { IfOk result (λ _.
            next.new ≡ leaf_next leaf.now self.now (event_of walk.now.tick walk.now.input.now)) }
        ensures answer { IfOk result (λ _. answered output.new decision.new ≡
            leaf_answers leaf.now self.now (event_of walk.now.tick walk.now.input.now)) }
    {
        let now = walk.tick.now;
        match *leaf {
            Leaf::Forever => {
                let count = self.count();
                *next = LeafState::Counted(one_more(count));
                put_number(output, count);
                *decision = go_at(now);
            }
            Leaf::Recurs(most) => {
                let count = self.count();
                *next = LeafState::Counted(one_more(count));
                put_number(output, count);
                *decision = go_below(count, most, now);
            }
            Leaf::Spaced(delay) => {
                let count = self.count();
                *next = LeafState::Counted(one_more(count));
                put_number(output, count);
                *decision = go_after(now, delay);
            }
            Leaf::Fixed(length) => {
                let count = self.count();
                let start = next_fixed(length, self.planned(), now);
                let first = first_planned(self.planned(), now);
                *next = LeafState::Planned(one_more(count), Some((first, start)));
                put_number(output, count);
                *decision = go_at(start);
            }
            Leaf::Windowed(length) => {
                let count = self.count();
                let first = self.started().unwrap_or(now);
                *next = LeafState::Windows(one_more(count), Some(first));
                put_number(output, count);
                *decision = go_at(next_boundary(length, first, now));
            }
            Leaf::Linear(delay) => {
                let count = one_more(self.count());
                *next = LeafState::Counted(count);
                let delay = delay.times(count.get());
                put_number(output, delay);
                *decision = go_after(now, delay);
            }
            Leaf::Exponential { factor, .. } => {
                let delay = self.output();
                *next = LeafState::Product(delay.times(factor));
                put_number(output, delay);
                *decision = go_after(now, delay);
            }
            Leaf::ExponentialMilli { thousandths, .. } => {
                let delay = self.output();
                *next = LeafState::Scaled(scaled(delay, thousandths));
                put_number(output, delay);
                *decision = go_after(now, delay);
            }
            Leaf::Fibonacci(_) => {
                let delay = self.output();
                let after = self.output_after();
                *next = LeafState::Summands(after, delay.plus(after));
                put_number(output, delay);
                *decision = go_after(now, delay);
            }
            Leaf::Decorrelated {
                lane,
                base,
                thousandths,
                most,
            } => {
                let before = self.output_before();
                let delay = decorrelated(base, thousandths, most, before, walk.tick.words[lane]);
                *next = LeafState::Waited(delay);
                put_number(output, delay);
                *decision = go_after(now, delay);
            }
            Leaf::Elapsed => {
                let first = self.started().unwrap_or(now);
                *next = LeafState::Started(Some(first));
                put_number(output, time_between(first, now));
                *decision = go_at(now);
            }
            Leaf::Identity => {
                *next = LeafState::Blank;
                put_copy(walk.alloc, output, walk.input)?;
                *decision = go_at(now);
            }
            Leaf::Unfold { factor, more, .. } => {
                let number = self.output();
                *next = LeafState::Unfolded(factor.times(number.get()).plus(more));
                put_number(output, number);
                *decision = go_at(now);
            }
            Leaf::Lone(delay) => {
                let is_past = self.is_past();
                *next = LeafState::Spent(true);
                if is_past {
                    put_number(output, Millis::from(0));
                    *decision = Decision::Done;
                } else {
                    put_number(output, delay);
                    *decision = go_after(now, delay);
                }
            }
        }
        Ok(())
    }

    // How many events it counted, or 0.
    fn count(&self) -> Millis
        ensures { result ≡ count_of self.now }
    {
        match *self {
            LeafState::Counted(count)
            | LeafState::Planned(count, _)
            | LeafState::Windows(count, _) => count,
            _ => Millis::from(0),
        }
    }

    // What the next event puts out, or 0.
    fn output(&self) -> Millis
        ensures { result ≡ output_next self.now }
    {
        match *self {
            LeafState::Product(number)
            | LeafState::Scaled(number)
            | LeafState::Summands(number, _)
            | LeafState::Unfolded(number) => number,
            _ => Millis::from(0),
        }
    }

    // What the event after that puts out, or 0.
    fn output_after(&self) -> Millis
        ensures { result ≡ output_after self.now }
    {
        match *self {
            LeafState::Summands(_, number) => number,
            _ => Millis::from(0),
        }
    }

    // What the last event put out, or 0.
    fn output_before(&self) -> Millis
        ensures { result ≡ output_before self.now }
    {
        match *self {
            LeafState::Waited(number) => number,
            _ => Millis::from(0),
        }
    }

    // The first moment, if there was one.
    fn started(&self) -> Option<Moment>
        ensures { result ≡ started_of self.now }
    {
        match *self {
            LeafState::Windows(_, first) | LeafState::Started(first) => first,
            _ => None,
        }
    }

    // The first moment and the start planned last, if there was one.
    fn planned(&self) -> Option<(Moment, Moment)>
        ensures { result ≡ planned_of self.now }
    {
        match *self {
            LeafState::Planned(_, planned) => planned,
            _ => None,
        }
    }

    // Whether the one event is past.
    fn is_past(&self) -> bool
        ensures { result ≡ lone_is_past self.now }
    {
        match *self {
            LeafState::Spent(spent) => spent,
            _ => false,
        }
    }
}

/// A leaf's first step, from before the first event.
#[inline(never)]
pub(crate) fn begin(
    walk: &Walk<'_>,
    leaf: &Leaf,
    next: &mut LeafState,
    output: &mut Val,
    decision: &mut Decision,
) -> Result<(), NoMemory>
    requires { IsTrue (leaf_in_range leaf.now) }
    ensures next { IfOk result (λ _.
        next.new ≡ leaf_next leaf.now (leaf_state leaf.now []) (event_of walk.now.tick walk.now.input.now)) }
    ensures answer { IfOk result (λ _. answered output.new decision.new ≡
        leaf_answers leaf.now (leaf_state leaf.now []) (event_of walk.now.tick walk.now.input.now)) }
{
    LeafState::initial(*leaf).step(walk, leaf, next, output, decision)
}

// The count after one more event.
fn one_more(count: Millis) -> Millis
    ensures { result ≡ capped (count + 1) }
{
    count.plus(Millis::from(1))
}

// Going on at once while there were fewer events.
fn go_below(count: Millis, most: Millis, now: Moment) -> Decision
    ensures { result ≡ (if nat_lt count most then Decision.Go now else Decision.Done) }
{
    if count.get() < most.get() {
        go_at(now)
    } else {
        Decision::Done
    }
}

// The next start of intervals of `length`, from the first moment and the start planned last: a schedule that is behind
// goes on at once, else at the next boundary.
fn next_fixed(length: Millis, planned: Option<(Moment, Moment)>, now: Moment) -> Moment
    requires { 0 < length }
    ensures { result ≡ next_fixed length planned now }
{
    let Some((first, start)) = planned else {
        return now.plus(length);
    };
    if start.plus(length).get() < now.get() {
        return now;
    }
    next_boundary(length, first, now)
}

// The first moment: the one that is kept, else that of this event.
fn first_planned(planned: Option<(Moment, Moment)>, now: Moment) -> Moment
    ensures { result ≡ first_planned planned now }
{
    match planned {
        Some((first, _)) => first,
        None => now,
    }
}

// The number in thousandths, rounded down.
fn scaled(number: Millis, thousandths: u64) -> Millis
    requires { thousandths ≤ 1000000 }
    ensures { result ≡ capped (number * thousandths / 1000) }
{
    at_most_far(u128::from(number.get()) * u128::from(thousandths) / 1000)
}

// The delay that follows the one before in decorrelated jitter, rounded down.
fn decorrelated(base: Millis, thousandths: u64, most: Millis, before: Millis, word: u32) -> Millis
    requires { thousandths ≤ 1000000 }
    ensures { result ≡ decorrelated_after base thousandths most before word }
{
    let high = scaled(before, thousandths).get().max(base.get());
    let range = u128::from(high - base.get());
    let picked = u128::from(base.get()) + range * u128::from(word) / 4294967296;
    at_most_far(picked.min(u128::from(most.get())))
}
