//! Requests that were counted, and that no store was told yet.
ghost use Rattle.std.specs.Prelude.{◌≡◌, ◌<◌, [], ◌∷◌, ◌++◌, IfOk, IfErr, MatchBool, min, vec_len, vec_capacity};
ghost use Rattle.sched_ticket_lease.specs.Requests.{since_then, slice_end, recent, Grows, HaveEnded, Counts, Tells};

use crate::slice::Slice;
use sched_time::{FAR, Millis, Moment};
use std::alloc::{AllocError, Global};
use std::marker::Model;

/// The most slices that are kept.
const MAX_SLICES: usize = 32;

/// Into how many slices a window is cut.
const SLICES: u64 = 16;

/// Requests by slices of time, since a store counts those of its present window alone. Contracts see them as their
/// slices.
#[derive(Drop)]
pub(crate) struct Requests {
    /// How long a window is; 0 where there are none.
    period: Millis,
    /// A moment at which a window ends.
    border: Moment,
    /// The oldest first.
    slices: Vec<Slice>,
}

impl Model for Requests {
    ghost use Rattle.sched_ticket_lease.specs.Requests.{Asked};

    ghost Value = { Asked };

    ghost view = { λ r. record { period = r.period; border = r.border; slices = r.slices.items } };
}

impl Requests {
    pub(crate) fn new(alloc: Global, period: Millis) -> Requests
        ensures none { result.slices ≡ [] }
        ensures period { result.period ≡ period }
        ensures border { result.border ≡ 0 }
    {
        let Some(start) = Moment::new(0) else {
            unreachable!()
        };
        Requests {
            period,
            border: start,
            slices: Vec::new(alloc),
        }
    }

    /// Counts so many requests at this moment.
    pub(crate) fn count(&mut self, now: Moment, requests: u64) -> Result<(), AllocError>
        ensures ok { IfOk result (λ _. Counts now requests self.old self.new) }
        ensures err { IfErr result (λ _. self.new ≡ self.old) }
    {
        self.slices.reserve(1)?;
        if !grow_last(&mut self.slices, now.get(), requests) {
            let slice = Slice {
                began: now.get(),
                ends: self.end_of(now),
                count: requests,
            };
            begin_slice(&mut self.slices, slice);
        }
        Ok(())
    }

    /// How many were counted in the slices that began at this moment or later. None of all that were counted is told
    /// again.
    pub(crate) fn tell(&mut self, since: Moment) -> u64
        ensures { Tells since result self.old self.new }
    {
        let told = count_since(&self.slices, since.get());
        self.slices.clear();
        told
    }

    /// How many were counted and not told.
    pub(crate) fn untold(&self) -> u64
        ensures { result ≡ min (since_then 0 self.now.slices) 18446744073709551615 }
    {
        count_since(&self.slices, 0)
    }

    /// Learns at which moment a window ends.
    pub(crate) fn set_border(&mut self, border: Moment)
        ensures border { self.new.border ≡ border }
        ensures slices { self.new.slices ≡ self.old.slices }
        ensures period { self.new.period ≡ self.old.period }
    {
        self.border = border;
    }

    // When a slice that begins now ends: after a sixteenth of a window, or with the window where that is earlier.
    fn end_of(&self, now: Moment) -> u64
        ensures { result ≡ slice_end self.now now }
    {
        let (now, border, period) = (now.get(), self.border.get(), self.period.get());
        if period == 0 {
            return FAR + 1;
        }
        let left = if now < border {
            border - now
        } else {
            period - (now - border) % period
        };
        now + left.min((period / SLICES).max(1))
    }
}

// Counts so many requests in the last slice, where it lasts.
fn grow_last(slices: &mut Vec<Slice>, now: u64, requests: u64) -> bool
    ensures grows { MatchBool result (Grows now requests slices.old.items slices.new.items)
        (HaveEnded now slices.old.items × (slices.new.items ≡ slices.old.items)) }
    ensures len { vec_len slices.new ≡ vec_len slices.old }
    ensures capacity { vec_capacity slices.new ≡ vec_capacity slices.old }
{
    let Some(last) = slices.pop() else {
        return false;
    };
    if !last.goes_on(now) {
        slices.push_reserved(last);
        return false;
    }
    let Slice { began, ends, count } = last;
    slices.push_reserved(Slice {
        began,
        ends,
        count: count.saturating_add(requests),
    });
    true
}

// Begins a slice, in the place of the oldest where there are so many.
fn begin_slice(slices: &mut Vec<Slice>, slice: Slice)
    requires { vec_len slices.old < vec_capacity slices.old }
    ensures { slices.new.items ≡ recent slices.old.items ++ slice ∷ [] }
{
    if slices.len() >= MAX_SLICES {
        slices.remove(0);
    }
    slices.push_reserved(slice);
}

// How many were counted in those that began at this moment or later.
fn count_since(slices: &[Slice], since: u64) -> u64
    ensures { result ≡ min (since_then since slices.now) 18446744073709551615 }
{
    let mut count: u64 = 0;
    for slice in slices {
        if since <= slice.began {
            count = count.saturating_add(slice.count);
        }
    }
    count
}
