//! What a worker works with.
ghost use Rattle.std.specs.Prelude.{◌≡◌, ◌↔◌, IsSome, IfSome};
ghost use Rattle.sched_pool_worker.specs.Working.{IsHold};

use rand_core::Rng;
use sched_task::Clock;
use std::marker::Model;

/// A worker's clock and generator of random words, and how many jobs it drives at a time.
#[derive(Drop)]
pub struct Station<C, G> {
    pub(crate) clock: C,
    pub(crate) rng: G,
    pub(crate) hold: usize,
}

impl<C, G> Model for Station<C, G> {
    ghost use Rattle.sched_pool_worker.specs.Working.{IsHold, Post};

    ghost Value = { Post C G };

    ghost view = { λ s. record { clock = s.clock; rng = s.rng; hold = s.hold } };

    ghost invariant = { λ s. IsHold s.hold };
}

impl<C: Clock + Drop, G: Rng + Drop> Station<C, G> {
    /// A station with this clock and this generator, which drives at most `hold` jobs at a time: 1 to 4,096, else it is
    /// `None`. It takes no memory.
    pub fn new(clock: C, rng: G, hold: usize) -> Option<Station<C, G>>
        ensures in_range { IsSome result ↔ IsHold hold }
        ensures station { IfSome result (λ s. s ≡ record { clock = clock; rng = rng; hold = hold }) }
    {
        if 1 <= hold && hold <= 4096 {
            Some(Station { clock, rng, hold })
        } else {
            None
        }
    }
}
