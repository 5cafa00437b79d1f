ghost use Rattle.std.specs.Prelude.{◌≡◌, ℕ, List, ◌∷◌, ◌++◌, [], length, nat_eq, IfOk, IsTrue};
ghost use Rattle.sched_plan.specs.Datum.{as_number};
ghost use Rattle.sched_plan.specs.declared.history.Event.{Event};
ghost use Rattle.sched_step.specs.StateOf.{event_of};
ghost use Rattle.sched_step_flat.specs.Record.{has_record, record_after, IsDecided};
ghost use Rattle.sched_step_flat.specs.Words.{width_of};
ghost use Rattle.sched_step_flat.specs.Parts.{number_datum};
ghost use Rattle.sched_step_flat.specs.FlatStep.{cued};

use crate::advance::decide;
use crate::cues::Cue;
use crate::parts::{Part, is_flat};
use crate::resets::reset;
use crate::widths::width;
use sched_plan::{Plan, Val};
use sched_time::{Decision, NoMemory, Tick};
use smallvec::SmallVec;
use std::alloc::Global;
use std::marker::Model;

/// How many words lie in the record itself; a longer one takes an allocation.
const INLINE_WORDS: usize = 8;

/// How far a plan has come, as a row of words that a step changes in place.
#[derive(Drop)]
pub struct Record {
    words: SmallVec<u64, INLINE_WORDS>,
}

impl Model for Record {
    ghost use Rattle.std.specs.Prelude.{ℕ, List};

    ghost Value = { List ℕ };

    ghost view = { λ r. r.words.items };
}

/// Whether a record may stand for the plan's state: what its decisions read of an output is a number.
pub fn has_record(plan: &Plan) -> bool
    ensures { result ≡ has_record plan.now }
{
    is_flat(plan, Part::Unread)
}

impl Record {
    /// The record before the first event. Fails only with `NoMemory`.
    pub fn new(alloc: Global, plan: &Plan) -> Result<Record, NoMemory>
        ensures value { IfOk result (λ made. made ≡ record_after plan.now []) }
        ensures fits { IfOk result (λ made. length made ≡ width_of plan.now) }
    {
        let mut words = SmallVec::new(alloc);
        words.resize(width(plan), 0)?;
        reset(plan, words.as_mut_slice());
        Ok(Record { words })
    }

    /// The same words again. It takes memory only for more than 8 words, and fails only with `NoMemory`.
    #[inline(always)]
    pub fn copied(&self) -> Result<Record, NoMemory>
        ensures { IfOk result (λ copy. copy ≡ self.now) }
    {
        let mut words = SmallVec::new(*self.words.allocator());
        words.extend_from_slice(self.words.as_slice())?;
        Ok(Record { words })
    }

    /// Steps the plan with one more event, in place, and gives what it decides. It takes no memory.
    #[inline(always)]
    pub fn advance(&mut self, plan: &Plan, tick: &Tick, input: &Val) -> Decision
        requires reads { IsTrue (has_record plan.now) }
        requires fits { length self.old ≡ width_of plan.now }

        // From the record after any history come the record and the decision after that history with this event.
        ensures law { (h : List Event) → self.old ≡ record_after plan.now h →
            IsDecided plan.now (h ++ event_of tick.entry.now input.now ∷ []) self.new result }
        ensures fits { length self.new ≡ width_of plan.now }
    {
        // Tells what the proof rests on: that the plan is valid.
        let _shape = plan.shape();
        let cue = cue_of(tick, input);
        decide(&cue, plan, self.words.as_mut_slice())
    }

    /// Whether it has as many words as the plan's state takes.
    pub fn fits(&self, plan: &Plan) -> bool
        ensures { result ≡ nat_eq (length self.now) (width_of plan.now) }
    {
        self.words.len() == width(plan)
    }

    /// From now on the words of another record, of as many words. It takes no memory.
    #[inline(always)]
    pub fn set_to(&mut self, other: &Record)
        requires { length self.old ≡ length other.now }
        ensures value { self.new ≡ other.now }
        ensures fits { length self.new ≡ length self.old }
    {
        self.words
            .as_mut_slice()
            .copy_from_slice(other.words.as_slice());
    }

    /// Back to before the first event. It takes no memory.
    pub fn renew(&mut self, plan: &Plan)
        requires { length self.old ≡ width_of plan.now }
        ensures value { self.new ≡ record_after plan.now [] }
        ensures fits { length self.new ≡ width_of plan.now }
    {
        reset(plan, self.words.as_mut_slice());
    }
}

// What a step is made with: the tick, and the number that the input is.
#[inline(always)]
fn cue_of(tick: &Tick, input: &Val) -> Cue
    ensures { cued result ≡ event_of tick.entry.now (number_datum (as_number input.now)) }
{
    let input = match input.as_num() {
        Some(number) => Some(number.get()),
        None => None,
    };
    Cue { tick: *tick, input }
}
