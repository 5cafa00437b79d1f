//! The keys of the moments ahead: a row for each moment.
ghost use Rattle.std.specs.Prelude.{◌≡◌, ℕ, ◌+◌, ◌<◌, ◌≤◌, ◌^◌, [], IfOk, OnOk, vec_len};
ghost use Rattle.std.proofs.Props.{props};
ghost use Rattle.sched_calendar.specs.Keys.{moment_of, times_in, one_if, IsAhead, ArePlaced, AreOf};

use sched_time::NoMemory;
use std::alloc::Global;
use std::cmp::Reverse;
use std::mem::swap;

/// For how many moments ahead there is a row.
pub(crate) const ROWS: u64 = 16384;

/// How many keys a moment has.
const PLACES: u64 = 8388608;

/// No moment of a key is greater.
const MOMENTS: u64 = 2199023255552;

/// The moment of a key.
pub(crate) fn moment_of(key: u64) -> u64
    ensures { result ≡ moment_of key }
{
    key / PLACES
}

/// The keys of the moments after the one that is reached, in a row for each.
#[derive(Drop)]
pub struct Ahead {
    pub(crate) reached: u64,
    pub(crate) rows: Vec<Vec<Reverse<u64>>>,
    ghost count: { vec_len rows ≡ 16384 } by { Prim.hlevel props },
    ghost placed: { ArePlaced reached rows.items } by { Prim.hlevel props },
}

impl Ahead {
    ghost use Rattle.sched_calendar.specs.Ahead.{times_ahead};

    /// No keys, before moment 1.
    pub(crate) fn new(alloc: Global) -> Result<Ahead, NoMemory>
        ensures { IfOk result (λ a. (key : ℕ) → times_ahead a key ≡ 0) }
    {
        let mut rows = Vec::with_capacity(alloc, ROWS as usize)?;
        for _ in 0..ROWS {
            rows.push(Vec::new(alloc))?;
        }
        Ok(Ahead { reached: 0, rows })
    }

    /// A moment after which there are no keys.
    pub(crate) fn end(&self) -> u64
        ensures { (key : ℕ) → 0 < times_ahead self.now key → moment_of key ≤ result }
    {
        self.reached.saturating_add(ROWS).min(MOMENTS)
    }

    /// Puts a key into the row of its moment.
    pub(crate) fn put(&mut self, key: u64) -> Result<(), NoMemory>
        requires { IsAhead self.old.reached key }
        ensures reached { self.new.reached ≡ self.old.reached }
        ensures times { OnOk result
            ((k : ℕ) → times_ahead self.new k ≡ one_if key k + times_ahead self.old k) }
    {
        let row = (moment_of(key) % ROWS) as usize;
        self.rows[row].push(Reverse(key))?;
        Ok(())
    }

    /// Goes on by a moment, whose keys it puts into a list that is empty.
    pub(crate) fn step(&mut self, here: &mut Vec<Reverse<u64>>)
        requires empty { here.old.items ≡ [] }
        requires room { self.old.reached + 1 < 2 ^ 64 }
        ensures reached { self.new.reached ≡ self.old.reached + 1 }
        ensures moment { AreOf self.new.reached here.new.items }
        ensures times { (k : ℕ) → times_in k here.new.items + times_ahead self.new k ≡ times_ahead self.old k }
    {
        self.reached += 1;
        let row = (self.reached % ROWS) as usize;
        swap(here, &mut self.rows[row]);
    }
}
