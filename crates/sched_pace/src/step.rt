//! One step: what a take or a give-back makes of the word of its pace. A pace that threads share and one that a store
//! keeps both take it.
ghost use Rattle.std.specs.Prelude.{◌≡◌, None};
ghost use Rattle.sched_limit_word.specs.declared.call.Call.TheVariants.{Draw};
ghost use Rattle.sched_pace.specs.Pace.{took, pace_next};
ghost use Rattle.sched_pace.specs.Step.{answer_of, last_of, call_back, made, comes_back};

use crate::fault::TakeFault;
use crate::pace::Pace;
use crate::taken::Taken;
use sched_limit_word::{Call, Machine};
use sched_time::Moment;

/// What gives a take back: its cost, and the mark that it left.
#[derive(Clone, Copy, Debug, PartialEq, Eq, Drop)]
pub struct Last {
    pub cost: u64,
    pub mark: u64,
}

/// Takes a call of this cost at this moment, and answers when it may begin. What is granted can be given back.
#[inline(always)]
pub fn take(
    pace: &Pace,
    now: Moment,
    cost: u64,
    last: &mut Option<Last>,
    word: &mut u64,
) -> Result<Moment, TakeFault>
    ensures answer { result ≡ answer_of (took pace.now now cost word.old) }
    ensures last { last.new ≡ last_of cost (took pace.now now cost word.old) }
    ensures word { word.new ≡ pace_next pace.now (Draw now cost 0) word.old }
{
    let taken = pace.took(now, cost, *word);
    *last = last_of(cost, &taken);
    *word = pace.next(Call::Draw(now, cost, 0), *word);
    answer_of(&taken)
}

/// Gives the last take back, if there is one, and answers whether it has come back: no other take was granted since.
#[inline(always)]
pub fn give_back(pace: &Pace, last: &mut Option<Last>, word: &mut u64) -> bool
    ensures given { result ≡ comes_back pace.now last.old word.old }
    ensures last { last.new ≡ None }
    ensures word { word.new ≡ made pace.now (call_back last.old) word.old }
{
    match *last {
        Some(back) => {
            let given = pace.is_last(back.cost, back.mark, *word);
            *word = pace.next(Call::Returned(back.cost, back.mark), *word);
            *last = None;
            given
        }
        None => false,
    }
}

/// What a take answers.
#[inline(always)]
fn answer_of(taken: &Taken) -> Result<Moment, TakeFault>
    ensures { result ≡ answer_of taken.now }
{
    match taken {
        Taken::Granted(at, _) => Ok(*at),
        Taken::TooSoon(again) => Err(TakeFault::TooSoon(*again)),
        Taken::NoCost => Err(TakeFault::NoCost),
    }
}

/// What gives it back, where it was granted.
#[inline(always)]
fn last_of(cost: u64, taken: &Taken) -> Option<Last>
    ensures { result ≡ last_of cost taken.now }
{
    match taken {
        Taken::Granted(_, mark) => Some(Last { cost, mark: *mark }),
        Taken::TooSoon(_) => None,
        Taken::NoCost => None,
    }
}
