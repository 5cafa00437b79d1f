//! What a breaker is that somebody opened or closed by hand.
ghost use Rattle.std.specs.Prelude.{◌≡◌, ◌<◌};
ghost use Rattle.sched_limit.specs.Breaker.{opened_by_hand, closed_by_hand};

use crate::breaker_machine::next_generation;
use crate::word::{closed, tripped};

/// Open by hand until this moment.
pub(crate) fn opened_by_hand(until: u64, word: u64) -> u64
    requires { until < 137438953472 }
    ensures { result ≡ opened_by_hand until word }
{
    tripped(next_generation(word), 0, until, 0, 0)
}

/// Closed by hand.
pub(crate) fn closed_by_hand(word: u64) -> u64
    ensures { result ≡ closed_by_hand word }
{
    closed(next_generation(word), 0)
}
