//! A turn of a throttle, on the words of its even windows and of its odd ones, and the step that its turns make.
ghost use Rattle.std.specs.Prelude.{◌≡◌};
ghost use Rattle.sched_limit.specs.Throttle.{throttle_next};
ghost use Rattle.sched_limit.specs.Turns.{counts_at, uncounted, count_of, turn_of, turn_by, again, answer_by, steps};
ghost use Rattle.sched_limit_word.specs.declared.call.Call.{Call};

use crate::refusal::Refusal;
use crate::refuses::Refuses;
use crate::request::{Request, Told};
use crate::step::{answered, held, lost_answer};
use crate::throttle::Throttle;
use sched_limit_word::{Call, Machine};
use sched_time::Moment;

/// What came of a turn: it is done, or a later window has begun at this moment.
#[derive(Clone, Copy, Drop)]
pub enum Turn {
    Done(Result<(), Refusal>),
    Later(Moment),
}

/// When what a request tells is counted, if it is: a request is admitted once, and draws while it is admitted.
#[inline(always)]
pub fn counts_at(told: &Told, counted: bool) -> Option<Moment>
    ensures { result ≡ counts_at told.now counted }
{
    match told {
        Told::Admit(now) => { if counted { None } else { Some(*now) } }
        Told::Draw(now, _) => { if counted { Some(*now) } else { None } }
        Told::Succeeded(now) => Some(*now),
        _ => None,
    }
}

/// The answer to what is not counted.
#[inline(always)]
pub fn uncounted(told: &Told) -> Result<(), Refusal>
    ensures { result ≡ uncounted told.now }
{
    if told.asks() {
        Err(Refusal::OutOfTurn)
    } else {
        Ok(())
    }
}

/// The call that counts it at a moment, by the word that the window before was closed with.
#[inline(always)]
pub fn count_of(told: &Told, random: u32, at: Moment, before: u64) -> Call
    ensures { result ≡ count_of told.now random at before }
{
    match told {
        Told::Succeeded(_) => Call::Succeeded(at, 0, 0),
        _ => Call::Admit(at, random, before),
    }
}

impl Throttle {
    /// What comes of what a request tells, on the word that its count finds.
    #[inline(always)]
    pub fn turn_of(&self, told: &Told, random: u32, at: Moment, before: u64, word: u64) -> Turn
        ensures { result ≡ turn_of self.now told.now random at before word }
    {
        if self.is_late(at, word) {
            return Turn::Later(self.moment_of(word));
        }
        Turn::Done(answered(&self.refusal(count_of(told, random, at, before), word)))
    }

    /// Makes a request's call on the words of even windows and of odd ones, where no other is made meanwhile.
    /// `OutOfTurn` where the request is admitted twice, or draws while it is not admitted.
    pub fn tell(
        &self,
        told: &Told,
        random: u32,
        request: &mut Request,
        even: &mut u64,
        odd: &mut u64,
    ) -> Result<(), Refusal>
        ensures answer { result ≡ (steps self.now told.now random request.old even.old odd.old).answer }
        ensures request { request.new ≡ (steps self.now told.now random request.old even.old odd.old).request }
        ensures even { even.new ≡ (steps self.now told.now random request.old even.old odd.old).even }
        ensures odd { odd.new ≡ (steps self.now told.now random request.old even.old odd.old).odd }
    {
        let answer = match counts_at(told, request.counted) {
            Some(now) => self.counted(told, random, now, even, odd),
            None => uncounted(told),
        };
        *request = held(told, &answer, 0, request);
        answer
    }

    // Counts what a request tells at this moment, or in a later window that has begun.
    fn counted(
        &self,
        told: &Told,
        random: u32,
        now: Moment,
        even: &mut u64,
        odd: &mut u64,
    ) -> Result<(), Refusal>
        ensures answer { let w = turn_by self.now told.now random now even.old odd.old in
            result ≡ answer_by told.now (again self.now told.now random w.turn w.even w.odd).turn }
        ensures even { let w = turn_by self.now told.now random now even.old odd.old in
            even.new ≡ (again self.now told.now random w.turn w.even w.odd).even }
        ensures odd { let w = turn_by self.now told.now random now even.old odd.old in
            odd.new ≡ (again self.now told.now random w.turn w.even w.odd).odd }
    {
        match self.turn_by(told, random, now, even, odd) {
            Turn::Done(answer) => answer,
            Turn::Later(at) => {
                match self.turn_by(told, random, at, even, odd) {
                    Turn::Done(answer) => answer,
                    Turn::Later(_) => lost_answer(told),
                }
            }
        }
    }

    // One turn.
    fn turn_by(&self, told: &Told, random: u32, at: Moment, even: &mut u64, odd: &mut u64) -> Turn
        ensures turn { result ≡ (turn_by self.now told.now random at even.old odd.old).turn }
        ensures even { even.new ≡ (turn_by self.now told.now random at even.old odd.old).even }
        ensures odd { odd.new ≡ (turn_by self.now told.now random at even.old odd.old).odd }
    {
        if self.window_at(at) % 2 == 0 {
            self.turned(told, random, at, even, odd)
        } else {
            self.turned(told, random, at, odd, even)
        }
    }

    // One turn, on the word of its window and that of the window before.
    fn turned(&self, told: &Told, random: u32, at: Moment, here: &mut u64, other: &mut u64) -> Turn
        ensures turn { result ≡ turn_of self.now told.now random at other.new here.old }
        ensures here { here.new ≡ throttle_next self.now (count_of told.now random at other.new) here.old }
        ensures other { other.new ≡ throttle_next self.now (Call.Closed at) other.old }
    {
        *other = self.next(Call::Closed(at), *other);
        let turn = self.turn_of(told, random, at, *other, *here);
        *here = self.next(count_of(told, random, at, *other), *here);
        turn
    }
}
