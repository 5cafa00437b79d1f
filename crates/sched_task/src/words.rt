//! The random words of a poll.
ghost use Rattle.std.specs.Prelude.{◌≡◌, ℕ, List, length, IfOk};
ghost use Rattle.rand_core.specs.Steps.{stream_of, steps_u32};
ghost use Rattle.rand_xoshiro.specs.Xoshiro128.{of_seed, plus_plus};
ghost use Rattle.sched_task.specs.Words.{next_four};

use rand_core::utils::{self, NextWord};
use rand_core::{Rng, SeedableRng};
use rand_xoshiro::Xoshiro128PlusPlus;
use std::io;
use std::marker::Model;
use std::random::RandomSource;

/// The next four 32-bit words of a generator, for lanes 0 to 3.
pub fn four_words<G: Rng>(rng: &mut G) -> [u32; 4]
    ensures { (result, G.stream rng.new) ≡ next_four (G.stream rng.old) }
{
    let lane_0 = rng.next_u32();
    let lane_1 = rng.next_u32();
    let lane_2 = rng.next_u32();
    let lane_3 = rng.next_u32();
    [lane_0, lane_1, lane_2, lane_3]
}

// The middle of the 32-bit numbers.
const MIDDLE: u32 = 2147483648;

/// A generator whose 32-bit words are all 2147483648, the middle of their range.
#[derive(Clone, Copy, Debug)]
pub struct MidWords;

impl NextWord<u32> for MidWords {
    ghost step = { λ rng. (2147483648, rng) };

    fn next_word(&mut self) -> u32 {
        MIDDLE
    }
}

impl Rng for MidWords {
    ghost stream = { stream_of (steps_u32 (λ rng. (2147483648, rng))) };

    fn next_u32(&mut self) -> u32 {
        self.next_word()
    }

    fn next_u64(&mut self) -> u64 {
        utils::next_u64_via_u32(self)
    }

    fn fill_bytes(&mut self, dst: &mut [u8]) {
        utils::fill_bytes_via_u32(self, dst)
    }
}

/// Random words for delays and jitter: xoshiro128++, seeded by the system's random bytes. They are no secrets.
#[derive(Debug, Drop)]
pub struct SystemWords {
    generator: Xoshiro128PlusPlus,
}

impl Model for SystemWords {
    ghost use Rattle.std.specs.Prelude.{ℕ, List};

    ghost Value = { List ℕ };

    ghost view = { λ words. words.generator };
}

impl SystemWords {
    /// A generator that is seeded by 16 random bytes, as `SystemWords::new(&rt)?`. Where the system gives none, its
    /// error is handed on.
    pub fn new<R: RandomSource>(rt: &R) -> io::Result<SystemWords>
        ensures { IfOk result (λ words. (seed : List ℕ) × (length seed ≡ 16) × (words ≡ of_seed seed)) }
    {
        let mut seed = [0; 16];
        rt.fill_bytes(&mut seed)?;
        Ok(SystemWords {
            generator: Xoshiro128PlusPlus::from_seed(seed),
        })
    }
}

impl Rng for SystemWords {
    ghost stream = { stream_of (steps_u32 plus_plus) };

    fn next_u32(&mut self) -> u32 {
        self.generator.next_u32()
    }

    fn next_u64(&mut self) -> u64 {
        self.generator.next_u64()
    }

    fn fill_bytes(&mut self, dst: &mut [u8]) {
        self.generator.fill_bytes(dst)
    }
}
