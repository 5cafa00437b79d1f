//! The breaker as a machine: after failures in a row nothing is admitted for a while, and then a few probes.
ghost use Rattle.std.specs.Prelude.{◌≡◌, ◌+◌, ◌<◌, min, true};
ghost use Rattle.sched_limit.specs.Word.{stamp_of};
ghost use Rattle.sched_limit.specs.Breaker.{since_start, open_for, begins, joins, opens, is_open, is_out, waits};
ghost use Rattle.sched_limit.specs.Breaker.{has_room, probes_in, probed, asked, failed, failed_closed, failed_tripped};
ghost use Rattle.sched_limit.specs.Breaker.{won, succeeded, succeeded_tripped, refused, refused_tripped};
ghost use Rattle.sched_limit.specs.Breaker.{next_generation};

use crate::breaker::Breaker;
use crate::by_hand::{closed_by_hand, opened_by_hand};
use crate::refusal::Refusal;
use crate::refuses::Refuses;
use crate::word;
use crate::word::{admitted_of, at_of, closed, count_of, is_tripped, trip_of, tripped, won_of};
use sched_limit_word::{Call, Machine};
use sched_time::{FAR, Moment};

/// The last moment of a breaker's clock, from its start on: more than four years.
pub const LAST_MOMENT: u64 = 137438953471;

impl Breaker {
    /// The moment on the breaker's clock.
    fn since_start(&self, now: Moment) -> u64
        ensures moment { result ≡ since_start self.now now }
        ensures small { result < 137438953472 }
    {
        now.get().saturating_sub(self.start).min(LAST_MOMENT)
    }

    /// How long it is open at this trip.
    fn open_for(&self, trip: u64) -> u64
        ensures { result ≡ open_for self.now trip }
    {
        self.times[trip.min(self.last) as usize]
    }

    /// Half open with one probe, in a new generation.
    fn begins(&self, at: u64, word: u64) -> u64
        requires { at < 137438953472 }
        ensures { result ≡ begins at word }
    {
        tripped(next_generation(word), trip_of(word), at, 1, 0)
    }

    /// Open from now on, for the time of this trip.
    fn opens(&self, at: u64, trip: u64, word: u64) -> u64
        requires at { at < 137438953472 }
        requires trip { trip < 64 }
        ensures { result ≡ opens self.now at trip word }
    {
        let until = at.saturating_add(self.open_for(trip)).min(LAST_MOMENT);
        tripped(word::generation_of(word), trip, until, 0, 0)
    }

    /// Whether it is open at this moment, and still will be.
    fn is_open(&self, at: u64, word: u64) -> bool
        ensures { result ≡ is_open at word }
    {
        admitted_of(word) == 0 && at < at_of(word)
    }

    /// Whether it is half open with all its probes out, and their deadline is to come.
    fn is_out(&self, at: u64, word: u64) -> bool
        ensures { result ≡ is_out self.now at word }
    {
        !(admitted_of(word) < self.probes) && at < at_of(word) + self.deadline
    }

    /// Whether it is not yet one that admits.
    fn waits(&self, at: u64, word: u64) -> bool
        ensures { result ≡ waits self.now at word }
    {
        self.is_open(at, word) || self.is_out(at, word)
    }

    /// Whether it is half open, and has probes left.
    fn has_room(&self, word: u64) -> bool
        ensures { result ≡ has_room self.now word }
    {
        0 < admitted_of(word) && admitted_of(word) < self.probes
    }

    /// The word after one more is a probe.
    fn probes_in(&self, at: u64, word: u64) -> u64
        requires { at < 137438953472 }
        ensures { result ≡ probes_in self.now at word }
    {
        if self.has_room(word) {
            self.joins(at, word)
        } else {
            self.begins(at, word)
        }
    }

    /// Half open with one probe more.
    fn joins(&self, at: u64, word: u64) -> u64
        requires at { at < 137438953472 }
        requires room { has_room self.now word ≡ true }
        ensures { result ≡ joins at word }
    {
        tripped(
            word::generation_of(word),
            trip_of(word),
            at,
            admitted_of(word) + 1,
            won_of(word),
        )
    }

    /// The word of a tripped breaker after one asked to be admitted.
    fn probed(&self, at: u64, word: u64) -> u64
        requires { at < 137438953472 }
        ensures { result ≡ probed self.now at word }
    {
        if self.waits(at, word) {
            word
        } else {
            self.probes_in(at, word)
        }
    }

    /// The word after one asked to be admitted.
    fn asked(&self, at: u64, word: u64) -> u64
        requires { at < 137438953472 }
        ensures { result ≡ asked self.now at word }
    {
        if is_tripped(word) {
            self.probed(at, word)
        } else {
            word
        }
    }

    /// The word of a closed breaker after a run failed.
    fn failed_closed(&self, at: u64, word: u64) -> u64
        requires { at < 137438953472 }
        ensures { result ≡ failed_closed self.now at word }
    {
        let kept = self.and_failure(count_of(word));
        if self.failures_kept(kept) < self.failures as u64 {
            closed(word::generation_of(word), kept)
        } else {
            self.opens(at, 0, word)
        }
    }

    /// The word after a run of this generation failed.
    fn failed(&self, at: u64, word: u64) -> u64
        requires { at < 137438953472 }
        ensures { result ≡ failed self.now at word }
    {
        if is_tripped(word) {
            self.failed_tripped(at, word)
        } else {
            self.failed_closed(at, word)
        }
    }

    /// The word of a tripped breaker after a run of this generation failed.
    fn failed_tripped(&self, at: u64, word: u64) -> u64
        requires { at < 137438953472 }
        ensures { result ≡ failed_tripped self.now at word }
    {
        if admitted_of(word) == 0 {
            word
        } else {
            self.opens(at, (trip_of(word) + 1).min(63), word)
        }
    }

    /// The word of a half open breaker after a probe won.
    fn won(&self, word: u64) -> u64
        ensures { result ≡ won self.now word }
    {
        let won = won_of(word) + 1;
        if won < self.probes {
            tripped(
                word::generation_of(word),
                trip_of(word),
                at_of(word),
                admitted_of(word),
                won,
            )
        } else {
            closed(word::generation_of(word), 0)
        }
    }

    /// The word after a run of this generation succeeded.
    fn succeeded(&self, word: u64) -> u64
        ensures { result ≡ succeeded self.now word }
    {
        if is_tripped(word) {
            self.succeeded_tripped(word)
        } else {
            let kept = self.and_success(count_of(word));
            closed(word::generation_of(word), kept)
        }
    }

    /// The word of a tripped breaker after a run of this generation succeeded.
    fn succeeded_tripped(&self, word: u64) -> u64
        ensures { result ≡ succeeded_tripped self.now word }
    {
        if admitted_of(word) == 0 {
            word
        } else {
            self.won(word)
        }
    }

    /// Why one that asks is not admitted.
    fn refused(&self, at: u64, word: u64) -> Option<Refusal>
        ensures { result ≡ refused self.now at word }
    {
        if is_tripped(word) {
            self.refused_tripped(at, word)
        } else {
            None
        }
    }

    /// Why one that asks a tripped breaker is not admitted.
    fn refused_tripped(&self, at: u64, word: u64) -> Option<Refusal>
        ensures { result ≡ refused_tripped self.now at word }
    {
        if self.is_open(at, word) {
            Some(Refusal::Open(moment_at(self.start, at_of(word))))
        } else if self.is_out(at, word) {
            Some(Refusal::Probing)
        } else {
            None
        }
    }
}

/// The moment of a clock that began at `start`.
pub(crate) fn moment_at(start: u64, at: u64) -> Moment
    ensures { result ≡ min (start + at) 4611686018427387903 }
{
    let Some(moment) = Moment::new(start.saturating_add(at).min(FAR)) else {
        unreachable!()
    };
    moment
}

/// The generation after that of this word.
pub(crate) fn next_generation(word: u64) -> u64
    ensures next { result ≡ next_generation word }
    ensures few { result < 4096 }
{
    (word::generation_of(word) + 1) % word::GENERATIONS
}

/// Which runs may tell something at this word: those that were admitted in the same generation.
fn stamp_of(word: u64) -> u64
    ensures { result ≡ stamp_of word }
{
    word::generation_of(word) * 2 + word % 2
}

impl Machine for Breaker {
    ghost use Rattle.sched_limit.specs.Breaker.{breaker_next};
    ghost use Rattle.sched_limit_word.specs.Tokens.{no_tokens};

    ghost first = { λ b. 0 };

    ghost next = { breaker_next };

    ghost tokens = { λ b. no_tokens };

    fn first(&self) -> u64 {
        0
    }

    #[inline(always)]
    fn next(&self, call: Call, word: u64) -> u64 {
        match call {
            Call::Admit(now, _, _) => self.asked(self.since_start(now), word),
            Call::Draw(now, _, _) => self.asked(self.since_start(now), word),
            Call::Failed(now, generation) => {
                if generation == stamp_of(word) {
                    self.failed(self.since_start(now), word)
                } else {
                    word
                }
            }
            Call::Succeeded(_, generation, _) => {
                if generation == stamp_of(word) {
                    self.succeeded(word)
                } else {
                    word
                }
            }
            Call::Ended(_) => word,
            Call::Returned(_, _) => word,
            Call::Closed(_) => word,
            Call::OpenedByHand(_, until) => opened_by_hand(self.since_start(until), word),
            Call::ClosedByHand(_) => closed_by_hand(word),
        }
    }
}

impl Refuses for Breaker {
    ghost use Rattle.sched_limit.specs.Holds.{no_holds};
    ghost use Rattle.sched_limit.specs.Honest.{free_honest};
    ghost use Rattle.sched_limit.specs.Word.{stamp_of};
    ghost use Rattle.sched_limit.specs.Breaker.{breaker_refusal};

    ghost refusal = { breaker_refusal };

    ghost generation = { λ b word. stamp_of word };

    ghost worth = { λ b drawn. 0 };

    ghost holds = { λ b. no_holds };

    ghost honest = { λ b. free_honest _ };

    #[inline(always)]
    fn refusal(&self, call: Call, word: u64) -> Option<Refusal> {
        match call {
            Call::Admit(now, _, _) => self.refused(self.since_start(now), word),
            Call::Draw(now, _, _) => self.refused(self.since_start(now), word),
            Call::Failed(_, _) => None,
            Call::Succeeded(_, _, _) => None,
            Call::Ended(_) => None,
            Call::Returned(_, _) => None,
            Call::Closed(_) => None,
            Call::OpenedByHand(_, _) => None,
            Call::ClosedByHand(_) => None,
        }
    }

    fn generation(&self, word: u64) -> u64 {
        stamp_of(word)
    }

    fn worth(&self, _drawn: Option<u64>) -> u64 {
        0
    }
}
