//! One step: what a request's call makes of the word of its limit, and of what the request holds. A limit that threads
//! share, one that a store keeps and one in a storm all take it.
ghost use Rattle.std.specs.Prelude.{◌≡◌};
ghost use Rattle.sched_limit.specs.Step.{rules, step, call_of, made, refusal_of, answered, held};
ghost use Rattle.sched_limit.specs.Step.{tries_of, lost_answer, lost_held};

use crate::refusal::Refusal;
use crate::refuses::Refuses;
use crate::request::{Request, Told};
use sched_limit_word::{Call, MAX_TRIES, Machine};

/// Makes a request's call on the word of its limit: the word becomes what the call leaves, and the request what it then
/// holds. `OutOfTurn` where the request is admitted twice, or draws while it is not admitted.
#[inline(always)]
pub fn tell<M: Refuses>(
    machine: &M,
    told: &Told,
    random: u32,
    request: &mut Request,
    word: &mut u64,
) -> Result<(), Refusal>
    ensures answer { let m = rules M.next M.refusal M.generation M.worth machine.now in
        result ≡ (step m told.now random request.old word.old).answer }
    ensures request { let m = rules M.next M.refusal M.generation M.worth machine.now in
        request.new ≡ (step m told.now random request.old word.old).request }
    ensures word { let m = rules M.next M.refusal M.generation M.worth machine.now in
        word.new ≡ (step m told.now random request.old word.old).word }
{
    let call = call_of(machine, told, random, request);
    let answer = answered(&refusal_of(machine, told, &call, *word));
    *word = made(machine, &call, *word);
    *request = held(told, &answer, machine.generation(*word), request);
    answer
}

/// The call that a request makes with what it tells, if it makes one: it is admitted once, and draws while it is
/// admitted.
#[inline(always)]
pub fn call_of<M: Refuses>(machine: &M, told: &Told, random: u32, request: &Request) -> Option<Call>
    ensures { result ≡ call_of (M.worth machine.now) told.now random request.now }
{
    match told {
        Told::Admit(now) => {
            if request.counted {
                None
            } else {
                Some(Call::Admit(*now, random, 0))
            }
        }
        Told::Draw(now, cost) => {
            if request.counted {
                Some(Call::Draw(*now, *cost, request.slots))
            } else {
                None
            }
        }
        Told::Failed(now) => Some(Call::Failed(*now, request.generation)),
        Told::Succeeded(now) => {
            Some(Call::Succeeded(*now, request.generation, machine.worth(request.drawn)))
        }
        Told::Cancelled => {
            match request.drawn {
                Some(cost) => Some(Call::Returned(cost, request.slots)),
                None => None,
            }
        }
        Told::Ended => {
            if request.counted {
                Some(Call::Ended(request.slots))
            } else {
                None
            }
        }
    }
}

/// The word after a call, if there is one.
#[inline(always)]
fn made<M: Machine>(machine: &M, call: &Option<Call>, word: u64) -> u64
    ensures { result ≡ made (M.next machine.now) call.now word }
{
    match call {
        Some(call) => machine.next(*call, word),
        None => word,
    }
}

/// Why what a request tells is refused, by the word that its call finds: what tells is not refused.
#[inline(always)]
fn refusal_of<M: Refuses>(
    machine: &M,
    told: &Told,
    call: &Option<Call>,
    word: u64,
) -> Option<Refusal>
    ensures { result ≡ refusal_of (rules M.next M.refusal M.generation M.worth machine.now) told.now call.now word }
{
    if !told.asks() {
        return None;
    }
    match call {
        Some(call) => machine.refusal(*call, word),
        None => Some(Refusal::OutOfTurn),
    }
}

/// A refusal as an answer.
#[inline(always)]
pub(crate) fn answered(why: &Option<Refusal>) -> Result<(), Refusal>
    ensures { result ≡ answered why.now }
{
    match why {
        Some(why) => Err(*why),
        None => Ok(()),
    }
}

/// What a request holds that was answered so, at a word of this generation.
#[inline(always)]
pub(crate) fn held(
    told: &Told,
    answer: &Result<(), Refusal>,
    generation: u64,
    request: &Request,
) -> Request
    ensures { result ≡ held told.now answer.now generation request.now }
{
    match told {
        Told::Admit(_) => {
            match answer {
                Ok(()) => Request::admitted(generation),
                Err(_) => *request,
            }
        }
        Told::Draw(_, cost) => {
            match answer {
                Ok(()) => Request::drew(*cost, generation),
                Err(_) => Request {
                    slots: if request.counted { 0 } else { request.slots },
                    ..*request
                },
            }
        }
        Told::Cancelled => {
            match request.drawn {
                Some(_) => Request {
                    slots: 0,
                    drawn: None,
                    ..*request
                },
                None => *request,
            }
        }
        Told::Ended => Request::nothing(),
        _ => *request,
    }
}

/// How many races a call loses before it gives up: one that tells does not.
#[inline(always)]
pub fn tries_of(told: &Told) -> u64
    ensures { result ≡ tries_of told.now }
{
    if told.asks() { MAX_TRIES } else { u64::MAX }
}

/// The answer to what has lost its races.
#[inline(always)]
pub fn lost_answer(told: &Told) -> Result<(), Refusal>
    ensures { result ≡ lost_answer told.now }
{
    if told.asks() {
        Err(Refusal::RacesLost)
    } else {
        Ok(())
    }
}

/// What a request then holds: what it held, where it asked.
#[inline(always)]
pub fn lost_held(told: &Told, request: &Request) -> Request
    ensures { result ≡ lost_held told.now request.now }
{
    if told.asks() {
        *request
    } else {
        held(told, &Ok(()), 0, request)
    }
}
