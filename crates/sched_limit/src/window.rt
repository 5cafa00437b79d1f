//! A word of a throttle: a window, whether it is closed, and what it counts.
//!
//! | Bits from 0 on | |
//! |---|---|
//! | 20 | the accepts |
//! | 20 | the requests |
//! | 1 | whether it is closed |
//! | 23 | the window, from 1 on; 0 before the first |
ghost use Rattle.std.specs.Prelude.{◌≡◌, ◌<◌, ◌≤◌};
ghost use Rattle.sched_limit.specs.Window.{window_of, is_closed, requests_in, accepts_in, counted};
ghost use Rattle.sched_limit.specs.Window.{requests_at, accepts_at, is_open_to};

/// What one of each is in the word.
const REQUEST: u64 = 1048576;

const CLOSED: u64 = 1099511627776;

const WINDOW: u64 = 2199023255552;

/// How many requests, or accepts, a window counts at most.
pub const MAX_COUNT: u64 = 1048575;

/// The last window.
pub(crate) const LAST_WINDOW: u64 = 8388607;

pub(crate) fn window_of(word: u64) -> u64
    ensures { result ≡ window_of word }
{
    word / WINDOW
}

pub(crate) fn is_closed(word: u64) -> bool
    ensures { result ≡ is_closed word }
{
    word / CLOSED % 2 == 1
}

/// The word of a window with these counts; `closed` is 1 where it is closed.
pub(crate) fn counted(window: u64, closed: u64, requests: u64, accepts: u64) -> u64
    requires window { window < 8388608 }
    requires closed { closed ≤ 1 }
    requires requests { requests < 1048576 }
    requires accepts { accepts < 1048576 }
    ensures { result ≡ counted window closed requests accepts }
{
    window * WINDOW + closed * CLOSED + requests * REQUEST + accepts
}

/// How many requests the word counts of this window.
pub(crate) fn requests_at(window: u64, word: u64) -> u64
    ensures count { result ≡ requests_at window word }
    ensures few { result < 1048576 }
{
    if window_of(word) == window {
        word / REQUEST % REQUEST
    } else {
        0
    }
}

/// How many accepts the word counts of this window.
pub(crate) fn accepts_at(window: u64, word: u64) -> u64
    ensures count { result ≡ accepts_at window word }
    ensures few { result < 1048576 }
{
    if window_of(word) == window {
        word % REQUEST
    } else {
        0
    }
}

/// Whether the word takes counts of this window.
pub(crate) fn is_open_to(window: u64, word: u64) -> bool
    ensures { result ≡ is_open_to window word }
{
    window_of(word) < window || (window_of(word) == window && !is_closed(word))
}
