//! Spans with rates of their own, as words spell them.
use crate::numbers::{number_in, span_in};
use sched_storm::{MAX_EACH, MAX_PHASES, Phase, Rates, Span};

// The most spans: each has at most one phase before it, and is one.
const MAX_SPANS: usize = 8;

/// A span in which so many requests a second come. There is none where it has no length.
#[derive(Clone, Copy, Debug, PartialEq, Eq)]
struct RateSpan {
    span: Span,
    rate: u64,
}

/// Spans in their order, none of which begins before the one before it ends.
#[derive(Clone, Copy, Debug, PartialEq, Eq)]
pub(crate) struct RateSpans {
    spans: [RateSpan; MAX_SPANS],
}

impl RateSpans {
    /// No span.
    pub(crate) const NONE: RateSpans = RateSpans {
        spans: [RateSpan {
            span: Span { from: 0, to: 0 },
            rate: 0,
        }; MAX_SPANS],
    };

    /// The phases of these spans, and of this rate between them.
    pub(crate) fn rates(&self, rate: u64) -> Rates {
        let mut rates = Rates::NONE;
        let mut end = 0;
        for at in &self.spans {
            if at.span.from == at.span.to {
                return rates;
            }
            if end < at.span.from {
                rates = with_phase(rates, at.span.from, rate);
            }
            rates = with_phase(rates, at.span.to, at.rate);
            end = at.span.to;
        }
        rates
    }
}

/// The spans that a word spells as FROM..TO@N,.., in order and in range.
pub(crate) fn rate_spans_in(word: &str) -> Option<RateSpans> {
    let mut found = RateSpans::NONE;
    let mut end = 0;
    let mut rest = Some(word);
    for index in 0..MAX_SPANS {
        let Some(left) = rest else {
            return Some(found);
        };
        let (word, others) = match left.split_once(',') {
            Some((word, others)) => (word, Some(others)),
            None => (left, None),
        };
        let at = rate_span_in(word)?;
        if at.span.from < end {
            return None;
        }
        end = at.span.to;
        found.spans[index] = at;
        rest = others;
    }
    if rest.is_none() { Some(found) } else { None }
}

// The span that a word spells as FROM..TO@N, of some length.
fn rate_span_in(word: &str) -> Option<RateSpan> {
    let (span, rate) = word.split_once('@')?;
    let span = span_in(span)?;
    let rate = number_in(rate)?;
    if span.from == span.to || rate > MAX_EACH {
        return None;
    }
    Some(RateSpan { span, rate })
}

// The phases with one more after them, where there is room.
fn with_phase(rates: Rates, until: u64, rate: u64) -> Rates {
    let mut rates = rates;
    if rates.count < MAX_PHASES {
        rates.phases[rates.count] = Phase { until, rate };
        rates.count += 1;
    }
    rates
}
