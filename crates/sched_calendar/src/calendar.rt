//! Calendars, of which the least key is taken out.
ghost use Rattle.std.specs.Prelude.{◌≡◌, ℕ, ◌+◌, ◌<◌, ◌≤◌, true, false, [], Some, IfOk, OnOk, IfSome, IfNone};
ghost use Rattle.std.specs.BinaryHeap.{IsHeap, heap_items};
ghost use Rattle.std.specs.Ordering.{nat_cmp};
ghost use Rattle.std.proofs.Props.{props};
ghost use Rattle.sched_calendar.specs.Keys.{moment_of, times_in, one_if, AreReached, Descend, lesser, IsBefore, IsFrom};
ghost use Rattle.sched_calendar.specs.Ahead.{times_ahead};

use crate::ahead::{Ahead, ROWS, moment_of};
use sched_time::NoMemory;
use std::alloc::Global;
use std::cmp::Reverse;
use std::collections::BinaryHeap;

/// A row of more room gives its memory back once its keys are taken.
const KEPT: usize = 16;

/// Keys, of which the least comes first.
///
/// A key of one of the next moments stands in the row of its moment. When that moment is reached, the keys of its row
/// are sorted, and taken from the end. Keys that lie further ahead, or before what is reached, stand in a heap.
#[derive(Drop)]
pub struct Calendar {
    ready: Vec<Reverse<u64>>,
    ahead: Ahead,
    others: BinaryHeap<Reverse<u64>>,
    ghost in_order: { IsHeap (λ x y. nat_cmp y.0 x.0) (heap_items others) } by { Prim.hlevel props },
    ghost descend: { Descend ready.items } by { Prim.hlevel props },
    ghost here: { AreReached ahead.reached ready.items } by { Prim.hlevel props },
}

/// Goes on to the next moment at which there are keys, to this moment at most, and makes its keys ready.
fn go_on(ready: &mut Vec<Reverse<u64>>, ahead: &mut Ahead, to: u64)
    requires empty { ready.old.items ≡ [] }
    ensures reached { AreReached ahead.new.reached ready.new.items }
    ensures descend { Descend ready.new.items }
    ensures to { ready.new.items ≡ [] → to ≤ ahead.new.reached }
    ensures times { (k : ℕ) → times_in k ready.new.items + times_ahead ahead.new k ≡ times_ahead ahead.old k }
{
    while ready.is_empty() && ahead.reached < to {
        ahead.step(ready);
    }
    ready.sort_unstable();
}

impl Calendar {
    ghost use Rattle.sched_calendar.specs.Calendar.{times, TakesOut, HasSame, IsLeast, ComesFirst};
    ghost use Rattle.sched_calendar.specs.Calendar.{HasEarlier, IsSeen, IsLeastOf};

    /// A calendar without keys.
    pub fn new(alloc: Global) -> Result<Calendar, NoMemory>
        ensures { IfOk result (λ c. (k : ℕ) → times c k ≡ 0) }
    {
        Ok(Calendar {
            ready: Vec::new(alloc),
            ahead: Ahead::new(alloc)?,
            others: BinaryHeap::new(alloc),
        })
    }

    /// Puts a key in.
    pub fn add(&mut self, key: u64) -> Result<(), NoMemory>
        ensures { OnOk result ((k : ℕ) → times self.new k ≡ one_if key k + times self.old k) }
    {
        let moment = moment_of(key);
        if self.ahead.reached < moment && moment - self.ahead.reached < ROWS {
            self.ahead.put(key)
        } else {
            self.others.push(Reverse(key))?;
            Ok(())
        }
    }

    /// Takes the least key out, where it comes before this bound, if there is one.
    #[inline(always)]
    pub fn pop_before(&mut self, bound: Option<u64>) -> Option<u64>
        ensures takes { IfSome result (λ key. TakesOut self.old key self.new) }
        ensures least { IfSome result (λ key. IsLeast self.old key) }
        ensures before { IfSome result (λ key. IsBefore bound key) }
        ensures none { IfNone result (HasSame self.old self.new) }
        ensures first { IfNone result (ComesFirst self.old bound) }
    {
        self.make_ready(bound);
        let first = self.first_ready();
        let other = self.first_other();
        let least = lesser(first, other)?;
        if !is_before(least, bound) {
            return None;
        }
        if first == Some(least) {
            self.take_ready(least);
        } else {
            self.take_other(least);
        }
        Some(least)
    }

    // Makes keys ready, unless some are, or none can be the least.
    fn make_ready(&mut self, bound: Option<u64>)
        ensures same { HasSame self.old self.new }
        ensures seen { self.new.ready.items ≡ [] → IsSeen self.new bound }
    {
        if self.ready.is_empty() {
            if self.ready.capacity() > KEPT {
                self.ready = Vec::new(*self.ready.allocator());
            }
            let to = self.horizon(bound);
            go_on(&mut self.ready, &mut self.ahead, to);
        }
    }

    // A moment after which no key ahead is the least.
    fn horizon(&self, bound: Option<u64>) -> u64
        ensures { (key : ℕ) → 0 < times_ahead self.now.ahead key → result < moment_of key →
            HasEarlier (heap_items self.now.others) bound key }
    {
        match lesser(bound, self.first_other()) {
            Some(key) => moment_of(key),
            None => self.ahead.end(),
        }
    }

    // The least of the keys that are ready.
    fn first_ready(&self) -> Option<u64>
        ensures { IsLeastOf result self.now.ready.items }
    {
        let Reverse(key) = *self.ready.last()?;
        Some(key)
    }

    // The least of the keys that stand in the heap.
    fn first_other(&self) -> Option<u64>
        ensures { IsLeastOf result (heap_items self.now.others) }
    {
        let Reverse(key) = *self.others.peek()?;
        Some(key)
    }

    // Takes out the least of the keys that are ready.
    fn take_ready(&mut self, key: u64)
        requires { IsLeastOf (Some key) self.old.ready.items }
        ensures { TakesOut self.old key self.new }
    {
        self.ready.pop();
    }

    // Takes out the least of the keys that stand in the heap.
    fn take_other(&mut self, key: u64)
        requires { IsLeastOf (Some key) (heap_items self.old.others) }
        ensures { TakesOut self.old key self.new }
    {
        self.others.pop();
    }
}

// The lesser of two keys, where there are two.
fn lesser(a: Option<u64>, b: Option<u64>) -> Option<u64>
    ensures { result ≡ lesser a b }
{
    match (a, b) {
        (Some(a), Some(b)) => Some(a.min(b)),
        (Some(a), None) => Some(a),
        (None, b) => b,
    }
}

// Whether a key comes before a bound, where there is one.
fn is_before(key: u64, bound: Option<u64>) -> bool
    ensures yes { result ≡ true → IsBefore bound key }
    ensures no { result ≡ false → IsFrom bound key }
{
    match bound {
        Some(bound) => key < bound,
        None => true,
    }
}
