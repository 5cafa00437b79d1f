//! Numbers and spans of moments, as words spell them.
use sched_storm::{BrownOut, MAX_MILLIS, Span};

/// The span that a word spells as FROM..TO, in order and in range.
pub(crate) fn span_in(word: &str) -> Option<Span> {
    let (from, to) = word.split_once("..")?;
    let from = number_in(from)?;
    let to = number_in(to)?;
    if from > to || to > MAX_MILLIS {
        return None;
    }
    Some(Span { from, to })
}

/// The brown-out that a word spells as FROM..TO@PERCENT, in order and in range.
pub(crate) fn brown_out_in(word: &str) -> Option<BrownOut> {
    let (span, percent) = word.split_once('@')?;
    let span = span_in(span)?;
    let percent = number_in(percent)?;
    if percent < 1 || percent > 100 {
        return None;
    }
    Some(BrownOut { span, percent })
}

/// The number that a word spells.
pub(crate) fn number_in(word: &str) -> Option<u64> {
    word.parse::<u64>().ok()
}

/// The tenths that a word spells, as a whole number or with one decimal.
pub(crate) fn tenths_in(word: &str) -> Option<u64> {
    let (whole, tenths) = match word.split_once('.') {
        Some((whole, tenth)) if tenth.len() == 1 => (whole, number_in(tenth)?),
        Some(_) => return None,
        None => (word, 0),
    };
    number_in(whole)?.checked_mul(10)?.checked_add(tenths)
}
