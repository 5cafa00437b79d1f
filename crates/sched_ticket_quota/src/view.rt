//! What a pass knows of its quota. The rule of the table speaks of these views, and of no other thread's memory.

ghost use Rattle.std.specs.Prelude.{◌≡◌};

use sched_time::Millis;
use std::collections::LinkedList;

/// How many tickets a quota gives out in a window of time.
#[derive(Clone, Copy, Debug, PartialEq, Eq, Drop)]
pub struct Terms {
    /// The tickets of each window that ask for no request, at most 4294967296.
    pub reserve: u64,
    /// The thousandths of a ticket that each request adds to its window, at most 1,000,000.
    pub share: u64,
    /// How long a window is, from 100 ms on. Windows begin at its multiples, from moment 0 on.
    pub period: Millis,
}

/// What a quota is made with.
#[derive(Clone, Copy, Drop)]
pub struct Kind {
    pub terms: Terms,
    /// Whether a window may draw what the one before left of its share.
    pub carries: bool,
}

impl Kind {
    pub(crate) fn of(terms: &Terms, carries: bool) -> Kind
        ensures { result ≡ record { terms = terms.now; carries = carries } }
    {
        Kind {
            terms: *terms,
            carries,
        }
    }
}

/// What a pass has of its quota. No value of it is made: it stands in proofs alone.
/// A ticket or a request numbered `n` is of the window `n / 4294967296`.
pub struct View {
    /// What the quota was made with.
    pub terms: Terms,
    /// Whether a window of the quota may draw what the one before left of its share.
    pub carries: bool,
    /// Its tickets that it has not handed back, the latest first, and then those of passes joined into it.
    pub tickets: LinkedList<u64>,
    /// The requests that it counted, in the same order.
    pub requests: LinkedList<u64>,
    /// The tickets that it handed back, in the same order.
    pub returned: LinkedList<u64>,
    /// The first numbers of the windows that it opened.
    pub opened: LinkedList<u64>,
    /// The words of the terms that it set.
    pub changes: LinkedList<u64>,
    /// The word of the terms as it last read or set it.
    pub current: u64,
    /// The word of requests as it last saw it. The word is never below it.
    pub seen: u64,
    /// The word of requests after the last one that it counted.
    pub told: u64,
    /// The word of draws as it last found it. The word is never below it.
    pub found: u64,
    /// The word of those handed back as it last read it. The word is never below it.
    pub back: u64,
    /// The word of the requests of the window before, as it last read it.
    pub past: u64,
    /// What it noted there last, before it opened a window. The word is never below it.
    pub noted: u64,
    /// The parts that it stands for. A view of weight 0 is spent.
    pub weight: u64,
    /// How often it read the word of requests.
    pub readings: u64,
    /// How often it read the word of the terms.
    pub glances: u64,
    /// How often it read the word of those handed back.
    pub recalls: u64,
    /// How often it read the word of the requests of the window before.
    pub reviews: u64,
    /// How often it looked at the word of draws.
    pub looks: u64,
    /// How many races it lost since its last look: how often another draw came between that look and its own, or
    /// another ticket was handed back.
    pub losses: u64,
}
