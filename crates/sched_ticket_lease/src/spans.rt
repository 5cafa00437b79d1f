//! Sets of numbers, kept as spans.
ghost use Rattle.std.specs.Prelude.{◌≡◌, ◌≢◌, ◌⊎◌, ℕ, ◌+◌, ◌-◌, ◌<◌, ◌≤◌, [], ◌∷◌, IfSome, IfNone, IfOk, IfErr, OnErr};
ghost use Rattle.std.specs.Prelude.{All, HoldsAt, length, MatchBool, min, true, false, vec_len, vec_capacity};
ghost use Rattle.sched_ticket.specs.Lists.{is};
ghost use Rattle.sched_ticket_lease.specs.Spans.{between, span_weight, weight, HasNone, HasSome, IsApart, IsIn};
ghost use Rattle.sched_ticket_lease.specs.Spans.{IsNotIn, IsTakenOf, Meets, Moves};

use crate::span::Span;
use std::alloc::{AllocError, Global};
use std::marker::Model;

/// A set of numbers. Contracts see it as its spans.
#[derive(Drop)]
pub(crate) struct Spans {
    spans: Vec<Span>,
}

impl Model for Spans {
    ghost use Rattle.std.specs.Prelude.{List};
    ghost use Rattle.sched_ticket_lease.specs.declared.span.Span.{Span};

    ghost Value = { List Span };

    ghost view = { λ s. s.spans.items };
}

impl Spans {
    pub(crate) fn new(alloc: Global) -> Spans
        ensures { result ≡ [] }
    {
        Spans {
            spans: Vec::new(alloc),
        }
    }

    /// How many spans they are.
    pub(crate) fn len(&self) -> usize
        ensures { result ≡ length self.now }
    {
        self.spans.len()
    }

    /// Whether it has one of these numbers.
    pub(crate) fn overlaps(&self, first: u64, end: u64) -> bool
        requires { first < end }
        ensures { MatchBool result (HasSome self.now first end) (HasNone self.now first end) }
    {
        place_meeting(&self.spans, first, end).is_some()
    }

    /// Adds the numbers from `first` up to `end`, which it may have already.
    pub(crate) fn add(&mut self, first: u64, end: u64) -> Result<(), AllocError>
        requires { first ≤ end }
        ensures ok { IfOk result (λ _. (q : ℕ → ℕ) → weight q self.new ≡ weight q self.old + between q first end) }
        ensures err { IfErr result (λ _. self.new ≡ self.old) }
    {
        self.spans.reserve(1)?;
        put_if_any(&mut self.spans, first, end);
        Ok(())
    }

    /// Comes to have the numbers from `first` up to `end` alone.
    pub(crate) fn set(&mut self, first: u64, end: u64) -> Result<(), AllocError>
        requires { first ≤ end }
        ensures ok { IfOk result (λ _. (q : ℕ → ℕ) → weight q self.new ≡ between q first end) }
        ensures err { IfErr result (λ _. self.new ≡ self.old) }
    {
        self.spans.reserve(1)?;
        self.spans.clear();
        put_if_any(&mut self.spans, first, end);
        Ok(())
    }

    /// Comes to have no number.
    pub(crate) fn clear(&mut self)
        ensures { self.new ≡ [] }
    {
        self.spans.clear();
    }

    /// Moves a number of its own to another set: the first of its last span.
    pub(crate) fn move_next(&mut self, to: &mut Spans) -> Result<Option<u64>, AllocError>
        ensures some { IfOk result (λ next. IfSome next (λ n. Moves n self.old to.old self.new to.new)) }
        ensures none { IfOk result (λ next. IfNone next ((self.old ≡ []) × (self.new ≡ []) × (to.new ≡ to.old))) }
        ensures len { length to.new ≤ length to.old + 1 }
        ensures err { IfErr result (λ _. (self.new ≡ self.old) × (to.new ≡ to.old)) }
    {
        to.spans.reserve(1)?;
        let Some(last) = self.spans.pop() else {
            return Ok(None);
        };
        let Span { first, end } = last;
        put_if_any(&mut self.spans, first + 1, end);
        put(&mut to.spans, one(first));
        Ok(Some(first))
    }

    /// Moves this number to another set, where it has it.
    pub(crate) fn move_number(&mut self, number: u64, to: &mut Spans) -> Result<bool, AllocError>
        ensures moved { IfOk result (λ moved. MatchBool moved
            (Moves number self.old to.old self.new to.new)
            ((weight (is number) self.old ≡ 0) × (self.new ≡ self.old) × (to.new ≡ to.old))) }
        ensures len { (length self.new ≤ length self.old + 1) × (length to.new ≤ length to.old + 1) }
        ensures err { IfErr result (λ _. (self.new ≡ self.old) × (to.new ≡ to.old)) }
    {
        let Some(at) = place_with(&self.spans, number) else {
            return Ok(false);
        };
        to.spans.reserve(1)?;
        self.spans.reserve(1)?;
        let Span { first, end } = take(&mut self.spans, at);
        put_if_any(&mut self.spans, first, number);
        put_if_any(&mut self.spans, number + 1, end);
        put(&mut to.spans, one(number));
        Ok(true)
    }

    /// Takes up to so many numbers out: of its last span, the first ones.
    pub(crate) fn take_up_to(&mut self, most: u64) -> Option<Span>
        requires { 0 < most }
        ensures some { IfSome result (λ s. IsTakenOf most self.old s
            × ((q : ℕ → ℕ) → weight q self.old ≡ weight q self.new + span_weight q s)) }
        ensures none { IfNone result ((self.old ≡ []) × (self.new ≡ [])) }
    {
        let last = self.spans.pop()?;
        let Span { first, end } = last;
        if end - first <= most {
            return Some(last);
        }
        let middle = first + most;
        put_if_any(&mut self.spans, middle, end);
        Some(Span { first, end: middle })
    }

    /// Forgets its first span, and answers it.
    pub(crate) fn forget_one(&mut self) -> Span
        requires { 0 < length self.old }
        ensures weight { (q : ℕ → ℕ) → weight q self.old ≡ weight q self.new + span_weight q result }
        ensures len { length self.new + 1 ≡ length self.old }
    {
        self.spans.remove(0)
    }

    /// How many numbers it has, at most 18446744073709551615.
    pub(crate) fn count(&self) -> u64
        ensures { result ≡ min (weight (λ _. 1) self.now) 18446744073709551615 }
    {
        count(&self.spans)
    }
}

// How many numbers these spans have, at most 18446744073709551615.
fn count(spans: &[Span]) -> u64
    ensures { result ≡ min (weight (λ _. 1) spans.now) 18446744073709551615 }
{
    let mut count: u64 = 0;
    for span in spans {
        count = count.saturating_add(span.end - span.first);
    }
    count
}

// The span of one number.
fn one(number: u64) -> Span
    requires { number < 18446744073709551615 }
    ensures { (result.first ≡ number) × (result.end ≡ number + 1) }
{
    Span {
        first: number,
        end: number + 1,
    }
}

// Adds the numbers from `first` up to `end`, for which there is room, if there are any.
fn put_if_any(spans: &mut Vec<Span>, first: u64, end: u64)
    requires room { vec_len spans.old < vec_capacity spans.old }
    requires order { first ≤ end }
    ensures weight { (q : ℕ → ℕ) → weight q spans.new.items ≡ weight q spans.old.items + between q first end }
    ensures len { vec_len spans.new ≤ vec_len spans.old + 1 }
    ensures capacity { vec_capacity spans.new ≡ vec_capacity spans.old }
{
    if first < end {
        put(spans, Span { first, end });
    }
}

// Adds a span, for which there is room: in one piece with those that end where it begins, or begin where it ends.
fn put(spans: &mut Vec<Span>, span: Span)
    requires { vec_len spans.old < vec_capacity spans.old }
    ensures weight { (q : ℕ → ℕ) → weight q spans.new.items ≡ weight q spans.old.items + span_weight q span }
    ensures joined { vec_len spans.new ≤ vec_len spans.old
        ⊎ (All (λ s. s.end ≢ span.first) spans.old.items × All (λ s. s.first ≢ span.end) spans.old.items) }
    ensures len { vec_len spans.new ≤ vec_len spans.old + 1 }
    ensures capacity { vec_capacity spans.new ≡ vec_capacity spans.old }
{
    let first = take_ending(spans, span.first);
    let end = take_beginning(spans, span.end);
    spans.push_reserved(Span { first, end });
}

// Takes the span out that ends at this number, and answers where it begins: the number itself where there is none.
fn take_ending(spans: &mut Vec<Span>, end: u64) -> u64
    ensures weight { (q : ℕ → ℕ) → weight q spans.old.items ≡ weight q spans.new.items + between q result end }
    ensures before { result ≤ end }
    ensures taken { (vec_len spans.new + 1 ≡ vec_len spans.old)
        ⊎ (All (λ s. s.end ≢ end) spans.old.items × (spans.new.items ≡ spans.old.items)) }
    ensures len { vec_len spans.new ≤ vec_len spans.old }
    ensures capacity { vec_capacity spans.new ≡ vec_capacity spans.old }
{
    match place_ending(spans, end) {
        Some(at) => take(spans, at).first,
        None => end,
    }
}

// Takes the span out that begins at this number, and answers where it ends: the number itself where there is none.
fn take_beginning(spans: &mut Vec<Span>, first: u64) -> u64
    ensures weight { (q : ℕ → ℕ) → weight q spans.old.items ≡ weight q spans.new.items + between q first result }
    ensures after { first ≤ result }
    ensures taken { (vec_len spans.new + 1 ≡ vec_len spans.old)
        ⊎ (All (λ s. s.first ≢ first) spans.old.items × (spans.new.items ≡ spans.old.items)) }
    ensures len { vec_len spans.new ≤ vec_len spans.old }
    ensures capacity { vec_capacity spans.new ≡ vec_capacity spans.old }
{
    match place_beginning(spans, first) {
        Some(at) => take(spans, at).end,
        None => first,
    }
}

// Takes the span at this place out.
fn take(spans: &mut Vec<Span>, at: usize) -> Span
    requires { at < vec_len spans.old }
    ensures is { HoldsAt (λ s. s ≡ result) spans.old.items at }
    ensures fits { result.end < 18446744073709551616 }
    ensures weight { (q : ℕ → ℕ) → weight q spans.old.items ≡ weight q spans.new.items + span_weight q result }
    ensures len { vec_len spans.new + 1 ≡ vec_len spans.old }
    ensures capacity { vec_capacity spans.new ≡ vec_capacity spans.old }
{
    spans.swap_remove(at)
}

// Where a span has one of the numbers from `first` up to `end`.
fn place_meeting(spans: &[Span], first: u64, end: u64) -> Option<usize>
    ensures some { IfSome result (λ at. (at < length spans.now)
        × HoldsAt (λ s. Meets s first end) spans.now at) }
    ensures none { IfNone result (All (λ s. IsApart s first end) spans.now) }
{
    spans.iter().position(|span| span.meets(first, end))
}

// Where a span ends at this number.
fn place_ending(spans: &[Span], end: u64) -> Option<usize>
    ensures some { IfSome result (λ at. (at < length spans.now) × HoldsAt (λ s. s.end ≡ end) spans.now at) }
    ensures none { IfNone result (All (λ s. s.end ≢ end) spans.now) }
{
    spans.iter().position(|span| span.end == end)
}

// Where a span begins at this number.
fn place_beginning(spans: &[Span], first: u64) -> Option<usize>
    ensures some { IfSome result (λ at. (at < length spans.now) × HoldsAt (λ s. s.first ≡ first) spans.now at) }
    ensures none { IfNone result (All (λ s. s.first ≢ first) spans.now) }
{
    spans.iter().position(|span| span.first == first)
}

// Where a span has this number.
fn place_with(spans: &[Span], number: u64) -> Option<usize>
    ensures some { IfSome result (λ at. (at < length spans.now)
        × HoldsAt (λ s. IsIn s number) spans.now at) }
    ensures none { IfNone result (All (λ s. IsNotIn s number) spans.now) }
{
    spans.iter().position(|span| span.has(number))
}
