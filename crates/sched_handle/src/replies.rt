//! What calls answer, as C sees it, and what they are given.
ghost use Rattle.std.specs.Prelude.{◌≡◌, ◌<◌, IfOk, IfErr, OnErr};
ghost use Rattle.sched_time.specs.declared.numbers.TheConstants.{FAR};
ghost use Rattle.sched_handle.specs.Replies.{nowhere, usage_of};
ghost use Rattle.sched_handle.specs.Status.{told};
ghost use Rattle.sched_handle.specs.declared.status.Status.TheVariants as Status;

use crate::status::Status;
use sched_ticket_quota::Usage as Seen;
use sched_time::{Moment, Tick};

/// Where a text stops being JSON: its line and column, counted from 1; both 0 where that is not known.
#[repr(C)]
#[derive(Clone, Copy)]
pub struct Place {
    pub line: u64,
    pub column: u64,
}

impl Place {
    /// No place.
    pub fn nowhere() -> Place
        ensures { result ≡ nowhere }
    {
        Place { line: 0, column: 0 }
    }
}

/// How many nodes a policy has, how deep it is, and at how many events it goes on at most, 2^64 - 1 where its nodes
/// give no such number.
#[derive(Clone, Copy)]
pub struct Size {
    pub nodes: u64,
    pub depth: u64,
    pub most: u64,
}

/// What a retry is at: what the host is to do (0 to poll, 1 to run, 2 to wait, 3 nothing), how it ended and the moment
/// to wait for, or 0, the tickets that it was granted, the runs that were reported, and the milliseconds that are left
/// up to its deadline, 0 where that is past, and 2^64 - 1 where there is none.
#[repr(C)]
#[derive(Clone, Copy)]
pub struct Reply {
    pub what: u32,
    pub how: u32,
    pub until: u64,
    pub granted: u64,
    pub runs: u64,
    pub left: u64,
}

/// What is known of a window of a quota: which it is, from 0 on, the requests that were counted in it, the tickets that
/// it has given out and those that it may yet give for these, and when the next begins.
#[repr(C)]
#[derive(Clone, Copy)]
pub struct Usage {
    pub window: u64,
    pub asked: u64,
    pub given: u64,
    pub left: u64,
    pub next: u64,
}

/// A range that a store granted, or that one leased pass lends another: so many tickets of a window from the number
/// `first` on, and the moment at which the window ends.
#[repr(C)]
#[derive(Clone, Copy)]
pub struct Granted {
    pub window: u64,
    pub first: u64,
    pub tickets: u64,
    pub until: u64,
}

/// What a leased pass has: how many tickets were drawn with it and not handed back, how many are at hand, and how many
/// requests were counted and not told.
#[derive(Clone, Copy)]
pub struct Standing {
    pub drawn: u64,
    pub at_hand: u64,
    pub untold: u64,
}

impl Usage {
    /// What was seen of a window.
    pub(crate) fn of(seen: Seen) -> Usage
        ensures { result ≡ usage_of seen }
    {
        Usage {
            window: seen.window,
            asked: seen.asked,
            given: seen.given,
            left: seen.left,
            next: seen.next.get(),
        }
    }
}

/// The tick at this moment, with these random words. `TooLarge` past `FAR`.
pub fn tick_at(now: u64, words: &[u32; 4]) -> Result<Tick, Status>
    ensures now { IfOk result (λ tick. tick.now ≡ now) }
    ensures words { IfOk result (λ tick. tick.words ≡ words.now) }
    ensures err { IfErr result (λ status. (status ≡ Status.TooLarge) × (FAR < now)) }
{
    match Moment::new(now) {
        Some(now) => {
            let words = *words;
            Ok(Tick { now, words })
        }
        None => Err(Status::TooLarge),
    }
}

/// The number of this answer: 0 where the call is done, and then what it answers is put into its place.
pub fn tell<T: Copy + Drop>(answer: Result<T, Status>, place: &mut T) -> u32
    ensures code { result ≡ told answer }
    ensures ok { IfOk answer (λ value. place.new ≡ value) }
    ensures err { OnErr answer (place.new ≡ place.old) }
{
    match answer {
        Ok(value) => {
            *place = value;
            0
        }
        Err(status) => status.code(),
    }
}

/// The number of the status of a call that answers nothing else, or that has written what it answers.
#[inline(always)]
pub fn tell_status(answer: Result<(), Status>) -> u32
    ensures { result ≡ told answer }
{
    match answer {
        Ok(()) => 0,
        Err(status) => status.code(),
    }
}
