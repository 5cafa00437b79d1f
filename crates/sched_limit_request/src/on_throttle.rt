//! A throttle, and whether a request is under way.
ghost use Rattle.std.specs.Prelude.{◌≡◌, false, IfOk};
ghost use Rattle.sched_limit_word.specs.View.{first_view};
ghost use Rattle.sched_limit_request.specs.Sides.{IsSameSide};
ghost use Rattle.sched_limit_request.specs.Windows.{Counts, IsTurn, counted_after, views};

use crate::asks::Asks;
use crate::fault::SplitFault;
use crate::side::Side;
use sched_limit::{Refusal, Throttle, Told, Turn, counts_at, lost_answer, uncounted};
use sched_limit_word::MAX_TRIES;
use sched_time::{Moment, NoMemory};
use std::alloc::Global;
use std::marker::Model;

/// A pass of a throttle, and whether a request is under way. Even windows have one word and odd ones another. What
/// counts in a window closes the one before first, so that what that one counted is final. Contracts see it as these.
#[derive(Drop)]
pub struct OnThrottle {
    pub(crate) even: Side,
    pub(crate) odd: Side,
    counted: bool,
    /// The window of its latest call, by which the next one's is guessed.
    latest: u64,
}

impl Model for OnThrottle {
    ghost use Rattle.std.specs.Prelude.{◌≡◌};
    ghost use Rattle.sched_limit_request.specs.Windows.{OfThrottle};

    ghost Value = { OfThrottle };

    ghost view = { λ d. record {
      even = d.even.pass;
      odd = d.odd.pass;
      throttle = d.even.limit.machine;
      counted = d.counted;
    } };

    ghost invariant = { λ d. d.odd.limit.machine ≡ d.even.limit.machine };
}

impl OnThrottle {
    /// What asks a new throttle.
    pub fn new(alloc: Global, throttle: Throttle) -> Result<OnThrottle, NoMemory>
        ensures throttle { IfOk result (λ d. d.throttle ≡ throttle) }
        ensures counted { IfOk result (λ d. d.counted ≡ false) }
        ensures even { IfOk result (λ d. d.even.has ≡ first_view 0) }
        ensures odd { IfOk result (λ d. d.odd.has ≡ first_view 0) }
    {
        let even = Side::new(alloc, throttle)?;
        let odd = Side::new(alloc, throttle)?;
        Ok(OnThrottle {
            even,
            odd,
            counted: false,
            latest: 0,
        })
    }

    /// Whether a request is under way.
    pub fn is_counted(&self) -> bool
        ensures { result ≡ self.now.counted }
    {
        self.counted
    }
}

impl Asks for OnThrottle {
    ghost use Rattle.sched_limit_request.specs.Windows.{window_asked};

    ghost asked = { window_asked };

    #[inline(always)]
    fn tell(&mut self, told: &Told, random: u32) -> Result<(), Refusal> {
        let Some(now) = counts_at(told, self.counted) else {
            let answer = uncounted(told);
            self.counted = counted_after(told, &answer, self.counted);
            return answer;
        };
        self.latest = self.even.throttle().window_near(now, self.latest);
        let answer = count(
            &mut self.even,
            &mut self.odd,
            told,
            random,
            now,
            self.latest,
        );
        self.counted = counted_after(told, &answer, self.counted);
        answer
    }

    fn split(&mut self) -> Result<OnThrottle, SplitFault> {
        let even = self.even.split()?;
        let odd = self.odd.split()?;
        Ok(OnThrottle {
            even,
            odd,
            counted: false,
            latest: 0,
        })
    }
}

/// Whether a request is under way after what it tells.
#[inline(always)]
fn counted_after(told: &Told, answer: &Result<(), Refusal>, counted: bool) -> bool
    ensures { result ≡ counted_after told.now answer.now counted }
{
    match told {
        Told::Admit(_) => counted || answer.is_ok(),
        Told::Ended => false,
        _ => counted,
    }
}

/// Counts what a request tells in the window of this moment, which is guessed, or in a later one that has begun.
#[inline(always)]
fn count(
    even: &mut Side,
    odd: &mut Side,
    told: &Told,
    random: u32,
    now: Moment,
    guess: u64,
) -> Result<(), Refusal>
    requires { odd.old.limit.machine ≡ even.old.limit.machine }
    ensures even { IsSameSide even.old even.new }
    ensures odd { IsSameSide odd.old odd.new }
    ensures counts { Counts even.old.limit.machine told.now random now result (views even.old.pass odd.old.pass)
        (views even.new.pass odd.new.pass) }
{
    let mut at = now;
    for _ in 0..MAX_TRIES {
        match turn(even, odd, told, random, at, guess) {
            Turn::Done(answer) => return answer,
            Turn::Later(moment) => at = moment,
        }
    }
    lost_answer(told)
}

/// One turn: closes the window before that of this moment, and counts in this one.
#[inline(always)]
fn turn(even: &mut Side, odd: &mut Side, told: &Told, random: u32, at: Moment, guess: u64) -> Turn
    requires { odd.old.limit.machine ≡ even.old.limit.machine }
    ensures even { IsSameSide even.old even.new }
    ensures odd { IsSameSide odd.old odd.new }
    ensures turns { IsTurn even.old.limit.machine told.now random at result (views even.old.pass odd.old.pass)
        (views even.new.pass odd.new.pass) }
{
    if even.throttle().window_near(at, guess) % 2 == 0 {
        even.turn(odd, told, random, at)
    } else {
        odd.turn(even, told, random, at)
    }
}
