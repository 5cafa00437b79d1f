//! Paces whose word a store keeps: one take, or one that is given back, is one step of the store.
ghost use Rattle.std.specs.Prelude.{◌≡◌, ◌<◌, ◌≤◌};
ghost use Rattle.sched_time.specs.declared.numbers.TheConstants.{FAR};
ghost use Rattle.sched_handle.specs.declared.status.Status.TheVariants as status;
ghost use Rattle.hikebox_c.specs.Kept.{word_in};
ghost use Rattle.hikebox_c.specs.Paces.{IsInRange, IsPaceOf};
ghost use Rattle.hikebox_c.specs.PacesKept.{last_in, Took, Gave, StepsTake, StepsBack, IsUntaken, IsUngiven};

use crate::kept::KeptGiven;
use crate::paces::{pace_of, tell_take};
use sched_handle::Status;
use sched_pace::{Last, Pace, give_back, take};
use sched_time::Moment;

/// The terms of a pace, as C gives them.
#[repr(C)]
#[derive(Clone, Copy)]
pub struct RateGiven {
    pub each: u64,
    pub burst: u64,
    pub longest: u64,
}

/// What gives a take back, as C keeps it.
#[repr(C)]
#[derive(Clone, Copy)]
pub struct MarkGiven {
    pub granted: bool,
    pub cost: u64,
    pub due: u64,
}

impl MarkGiven {
    // What gives the last take back, if there is one.
    fn last(&self) -> Option<Last>
        ensures { result ≡ last_in self.now }
    {
        if self.granted {
            return Some(Last {
                cost: self.cost,
                mark: self.due,
            });
        }
        None
    }

    // What C is to keep.
    fn of(last: Option<Last>) -> MarkGiven
        ensures { last_in result ≡ last }
    {
        match last {
            Some(last) => MarkGiven {
                granted: true,
                cost: last.cost,
                due: last.mark,
            },
            None => MarkGiven {
                granted: false,
                cost: 0,
                due: 0,
            },
        }
    }
}

#[unsafe(no_mangle)]
pub extern "C" fn hikebox_pace_step(
    rate: &RateGiven,
    now: u64,
    cost: u64,
    kept: &mut KeptGiven,
    mark: &mut MarkGiven,
    at: &mut u64,
) -> u32
    ensures unsound { (IsInRange rate.now.each rate.now.burst rate.now.longest → ⊥) →
        IsUntaken status.OutOfRange result (kept.old, mark.old, at.old) (kept.new, mark.new, at.new) }
    ensures too_large { IsInRange rate.now.each rate.now.burst rate.now.longest → FAR < now →
        IsUntaken status.TooLarge result (kept.old, mark.old, at.old) (kept.new, mark.new, at.new) }
    ensures takes { IsInRange rate.now.each rate.now.burst rate.now.longest → now ≤ FAR →
        StepsTake rate.now now cost result (kept.old, mark.old, at.old) (kept.new, mark.new, at.new) }
{
    let Some(pace) = pace_of(rate.each, rate.burst, rate.longest) else {
        return Status::OutOfRange.code();
    };
    let Some(now) = Moment::new(now) else {
        return Status::TooLarge.code();
    };
    step(&pace, now, cost, kept, mark, at)
}

#[unsafe(no_mangle)]
pub extern "C" fn hikebox_pace_step_back(
    rate: &RateGiven,
    kept: &mut KeptGiven,
    mark: &mut MarkGiven,
    given: &mut bool,
) -> u32
    ensures unsound { (IsInRange rate.now.each rate.now.burst rate.now.longest → ⊥) →
        IsUngiven status.OutOfRange result (kept.old, mark.old, given.old) (kept.new, mark.new, given.new) }
    ensures gives { IsInRange rate.now.each rate.now.burst rate.now.longest →
        StepsBack rate.now result (kept.old, mark.old) (kept.new, mark.new, given.new) }
{
    let Some(pace) = pace_of(rate.each, rate.burst, rate.longest) else {
        return Status::OutOfRange.code();
    };
    *given = step_back(&pace, kept, mark);
    0
}

// Takes on the word that is kept, or on the first one, and tells what comes of it.
fn step(
    pace: &Pace,
    now: Moment,
    cost: u64,
    kept: &mut KeptGiven,
    mark: &mut MarkGiven,
    at: &mut u64,
) -> u32
    ensures { Took pace.now now cost result (kept.old, mark.old, at.old) (kept.new, mark.new, at.new) }
{
    let mut word = word_of(kept);
    let mut last = mark.last();
    let answer = take(pace, now, cost, &mut last, &mut word);
    *kept = KeptGiven { known: true, word };
    *mark = MarkGiven::of(last);
    tell_take(answer, at)
}

// The same of a take that is given back, and whether it has come back.
fn step_back(pace: &Pace, kept: &mut KeptGiven, mark: &mut MarkGiven) -> bool
    ensures { Gave pace.now (kept.old, mark.old) (kept.new, mark.new, result) }
{
    let mut word = word_of(kept);
    let mut last = mark.last();
    let given = give_back(pace, &mut last, &mut word);
    *kept = KeptGiven { known: true, word };
    *mark = MarkGiven::of(last);
    given
}

// The word that the store knows, or the first one of a pace.
fn word_of(kept: &KeptGiven) -> u64
    ensures { result ≡ word_in 0 kept.now }
{
    if kept.known {
        return kept.word;
    }
    0
}
