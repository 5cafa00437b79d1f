//! The words of a limit in a storm, and what a request's call makes of them.
ghost use Rattle.std.specs.Prelude.{◌≡◌, IfOk};
ghost use Rattle.sched_storm_limit.specs.Limits.{first_word, words_at_first, word_for, tells};
ghost use Rattle.sched_storm_limit.specs.Words.{words_of};

use crate::draws::{Draws, Limit};
use rand_core::SeedableRng;
use rand_xoshiro::Xoshiro128PlusPlus;
use sched_limit::{Request, Told, tell};
use sched_limit_word::Machine;
use sched_task::four_words;
use sched_time::NoMemory;

/// The words of a limit.
#[derive(Drop)]
pub(crate) struct Words {
    /// Its word; that of a throttle's even windows.
    word: u64,
    /// The word of a throttle's odd windows.
    odd: u64,
    /// The random words of a throttle.
    random: Xoshiro128PlusPlus,
}

impl Words {
    /// Before the first event, with random words of the seed and 1.
    pub(crate) fn new(draws: &Draws, seed: u64) -> Words
        ensures { words_of result ≡ words_at_first draws.now seed }
    {
        Words {
            word: first_word(draws),
            odd: 0,
            random: Xoshiro128PlusPlus::seed_from_u64(seed.wrapping_add(1)),
        }
    }

    /// The same again.
    pub(crate) fn again(&self) -> Result<Words, NoMemory>
        ensures { IfOk result (λ words. words_of words ≡ words_of self.now) }
    {
        Ok(Words {
            word: self.word,
            odd: self.odd,
            random: self.random.clone()?,
        })
    }

    /// A request asks or tells a limit: whether it is granted, and what it then holds.
    pub(crate) fn tell(&mut self, limit: &Limit, told: &Told, request: &mut Request) -> bool
        ensures granted { result ≡ (tells limit.now told.now request.old (words_of self.old)).granted }
        ensures request { request.new ≡ (tells limit.now told.now request.old (words_of self.old)).request }
        ensures words { words_of self.new ≡ (tells limit.now told.now request.old (words_of self.old)).words }
    {
        let answer = match limit {
            Limit::Bucket { bucket, .. } => tell(bucket, told, 0, request, &mut self.word),
            Limit::InFlight(in_flight) => tell(in_flight, told, 0, request, &mut self.word),
            Limit::Adaptive(adaptive) => tell(adaptive, told, 0, request, &mut self.word),
            Limit::Breaker(breaker) => tell(breaker, told, 0, request, &mut self.word),
            Limit::Throttle(throttle) => {
                let random = self.word_for(told);
                throttle.tell(told, random, request, &mut self.word, &mut self.odd)
            }
        };
        answer.is_ok()
    }

    // The random word of what asks a throttle.
    fn word_for(&mut self, told: &Told) -> u32
        ensures word { result ≡ (word_for told.now (words_of self.old)).word }
        ensures left { words_of self.new ≡ (word_for told.now (words_of self.old)).words }
    {
        if told.asks() {
            four_words(&mut self.random)[0]
        } else {
            0
        }
    }
}

// The word of a limit at first.
fn first_word(draws: &Draws) -> u64
    ensures { result ≡ first_word draws.now }
{
    match draws {
        Draws::Limited(Limit::Bucket { bucket, .. }) => bucket.first(),
        Draws::Limited(Limit::Adaptive(adaptive)) => adaptive.first(),
        _ => 0,
    }
}
