//! The pace as a machine. Its word is the moment up to which the calls so far use the rate up, in microseconds.
ghost use Rattle.std.specs.Prelude.{◌≡◌, ◌+◌, ◌-◌, ◌*◌, ◌<◌, ◌≤◌, max, true};
ghost use Rattle.sched_pace.specs.Pace.{clock, is_cost, begins_at, took, is_last, given_back};

use crate::pace::Pace;
use crate::taken::Taken;
use sched_limit_word::{Call, Machine};
use sched_time::Moment;

/// The last moment of a pace's clock. Later ones count as this one.
pub const LAST_MOMENT: u64 = 2251799813685247;

impl Pace {
    /// What a take of this cost at this moment is told, where the word is `due`.
    #[inline(always)]
    pub fn took(&self, now: Moment, cost: u64, due: u64) -> Taken
        ensures { result ≡ took self.now now cost due }
    {
        if !self.is_cost(cost) {
            return Taken::NoCost;
        }
        let at = self.begins_at(now, cost, due);
        let wait = at - now.get().min(LAST_MOMENT);
        if wait > self.longest {
            return Taken::TooSoon(moment(at - self.longest));
        }
        let from = due.max(1000 * now.get().min(LAST_MOMENT));
        Taken::Granted(moment(at), from + cost * self.each)
    }

    /// Whether there are calls of this cost.
    #[inline(always)]
    fn is_cost(&self, cost: u64) -> bool
        ensures { result ≡ is_cost self.now cost }
    {
        0 < cost && cost <= self.burst
    }

    /// When a call of this cost, at most the burst, may begin that asks at this moment, where the word is `due`.
    #[inline(always)]
    fn begins_at(&self, now: Moment, cost: u64, due: u64) -> u64
        requires { cost ≤ self.now.burst }
        ensures at { result ≡ begins_at self.now now cost due }
        ensures late { clock now ≤ result }
        ensures near { result ≤ 18446744073709552 }
    {
        let from = 1000 * now.get().min(LAST_MOMENT);
        let start = due
            .max(from)
            .saturating_sub((self.burst - cost) * self.each);
        start.max(from).div_ceil(1000)
    }

    /// When a call of cost 1 would begin that asks at this moment, where the word is `due`.
    #[inline(always)]
    pub fn next_begins_at(&self, now: Moment, due: u64) -> Moment
        ensures { result ≡ begins_at self.now now 1 due }
    {
        moment(self.begins_at(now, 1, due))
    }

    /// The word after a take of this cost is given back that left this mark.
    #[inline(always)]
    fn given_back(&self, cost: u64, mark: u64, due: u64) -> u64
        ensures { result ≡ given_back self.now cost mark due }
    {
        if self.is_last(cost, mark, due) {
            due.saturating_sub(cost * self.each)
        } else {
            due
        }
    }

    /// Whether a take of this cost that left this mark is the last one that stands.
    #[inline(always)]
    pub fn is_last(&self, cost: u64, mark: u64, due: u64) -> bool
        ensures { result ≡ is_last self.now cost mark due }
    {
        due == mark && self.is_cost(cost)
    }
}

#[inline(always)]
fn moment(at: u64) -> Moment
    requires { at ≤ 4611686018427387903 }
    ensures { result ≡ at }
{
    match Moment::new(at) {
        Some(moment) => moment,
        None => unreachable!(),
    }
}

impl Machine for Pace {
    ghost use Rattle.sched_pace.specs.Pace.{pace_next};
    ghost use Rattle.sched_pace.specs.Tokens.{pace_tokens};

    ghost first = { λ p. 0 };

    ghost next = { pace_next };

    ghost tokens = { pace_tokens };

    fn first(&self) -> u64 {
        0
    }

    fn next(&self, call: Call, due: u64) -> u64 {
        match call {
            Call::Draw(now, cost, _) => {
                match self.took(now, cost, due) {
                    Taken::Granted(_, mark) => mark,
                    _ => due,
                }
            }
            Call::Returned(cost, mark) => self.given_back(cost, mark, due),
            Call::Admit(_, _, _) => due,
            Call::Failed(_, _) => due,
            Call::Succeeded(_, _, _) => due,
            Call::Ended(_) => due,
            Call::Closed(_) => due,
            Call::OpenedByHand(_, _) => due,
            Call::ClosedByHand(_) => due,
        }
    }
}
