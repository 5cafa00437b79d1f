//! Random words for the events of a plan.
ghost use Rattle.std.specs.Prelude.{◌≡◌, IfOk};
ghost use Rattle.sched_cli_words.specs.Seeded.{fours, seeded};

use rand_core::SeedableRng;
use rand_xoshiro::Xoshiro128PlusPlus;
use sched_task::four_words;
use std::alloc::{AllocError, Global};

/// The words of so many events, for lanes 0 to 3 of each: the next four of xoshiro128++, which is seeded with this
/// number.
pub(crate) fn seeded_words(
    alloc: Global,
    seed: u64,
    events: u64,
) -> Result<Vec<[u32; 4]>, AllocError>
    ensures { IfOk result (λ words. words.items ≡ fours events (seeded seed)) }
{
    let mut generator = Xoshiro128PlusPlus::seed_from_u64(seed);
    let mut words = Vec::new(alloc);
    for _ in 0..events {
        words.push(four_words(&mut generator))?;
    }
    Ok(words)
}
