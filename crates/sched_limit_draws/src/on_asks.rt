//! A limit that retries draw on.
ghost use Rattle.std.specs.Prelude.{◌≡◌, IfOk, IfErr, OnOk};
ghost use Rattle.sched_limit_draws.specs.Limits.{Cancelled, fresh_on};

use crate::costs::Costs;
use rand_core::Rng;
use sched_limit::Refusal;
use sched_limit_request::{Asks, SplitFault};
use sched_ticket_draws::Draws;
use sched_time::{Millis, Moment};
use std::marker::Model;

/// A limit, with the generator of the words that it is asked with, and what its draws cost. Contracts see all of it.
///
/// A draw costs what the failure before it says. What a request holds of the limit is given back once it is over, and
/// where the value is dropped.
#[derive(Drop)]
pub struct OnAsks<L: Asks, G: Rng + Drop> {
    limit: L,
    words: G,
    costs: Costs,
    cost: u64,
    granted: u64,
    refusal: Option<Refusal>,
}

impl<L: Asks, G: Rng + Drop> Model for OnAsks<L, G> {
    ghost use Rattle.sched_limit_draws.specs.Limits.{OfAsks};

    ghost Value = { OfAsks L G };

    ghost view = { λ d. record {
      limit = d.limit;
      words = d.words;
      costs = d.costs;
      cost = d.cost;
      granted = d.granted;
      refusal = d.refusal;
    } };
}

impl<L: Asks, G: Rng + Drop> OnAsks<L, G> {
    /// What draws on this limit at these costs, with words of this generator.
    pub fn new(limit: L, words: G, costs: Costs) -> OnAsks<L, G>
        ensures { result ≡ fresh_on limit words costs }
    {
        OnAsks {
            limit,
            words,
            costs,
            cost: costs.each,
            granted: 0,
            refusal: None,
        }
    }

    /// The limit.
    pub fn limit(&self) -> &L
        ensures { result.now ≡ self.now.limit }
    {
        &self.limit
    }

    /// Why it refused last, or `None` where it has not.
    pub fn refusal(&self) -> Option<Refusal>
        ensures { result ≡ self.now.refusal }
    {
        self.refusal
    }

    /// What draws on the same limit at the same costs, for another thread's requests, with words of this generator.
    pub fn split(&mut self, words: G) -> Result<OnAsks<L, G>, SplitFault>
        ensures part { IfOk result (λ part. part ≡ fresh_on (L.asked.part self.old.limit) words self.old.costs) }
        ensures left { OnOk result (self.new.limit ≡ L.asked.left self.old.limit) }
        ensures rest { self.new ≡ record self.old { limit = self.new.limit } }
        ensures unsplit { IfErr result (λ why. L.asked.unsplit self.old.limit why self.new.limit) }
    {
        let limit = self.limit.split()?;
        Ok(OnAsks::new(limit, words, self.costs))
    }

    /// The limit and the generator.
    pub fn into_parts(self) -> (L, G)
        ensures limit { result.0 ≡ self.limit }
        ensures words { result.1 ≡ self.words }
    {
        let OnAsks {
            limit,
            words,
            costs: _,
            cost: _,
            granted: _,
            refusal: _,
        } = self;
        (limit, words)
    }
}

impl<L: Asks, G: Rng + Drop> Draws for OnAsks<L, G> {
    ghost use Rattle.sched_limit_draws.specs.Limits.{asks_grants, asks_lawful};

    ghost grants = { asks_grants L.asked G.stream };

    ghost lawful = { asks_lawful L.asked G.stream };

    fn admit(&mut self, now: Moment) -> bool {
        match self.limit.admit(now, self.words.next_u32()) {
            Ok(()) => true,
            Err(why) => {
                self.refusal = Some(why);
                false
            }
        }
    }

    fn draw(&mut self, now: Moment) -> bool {
        if self.granted == u64::MAX {
            return false;
        }
        match self.limit.draw(now, self.cost, self.words.next_u32()) {
            Ok(()) => {
                self.granted += 1;
                true
            }
            Err(why) => {
                self.refusal = Some(why);
                false
            }
        }
    }

    fn succeeded(&mut self, now: Moment) {
        self.limit.succeeded(now);
    }

    fn failed(&mut self, now: Moment, code: Millis) {
        self.limit.failed(now);
        self.cost = self.costs.after(code);
    }

    fn ended(&mut self, unused: bool) {
        cancel_where(unused, &mut self.limit);
        self.limit.ended();
    }

    fn granted(&self) -> u64 {
        self.granted
    }
}

// Cancels the limit's draw, where its run is not begun.
fn cancel_where<L: Asks>(unused: bool, limit: &mut L)
    ensures { Cancelled L.asked unused limit.old limit.new }
{
    if unused {
        limit.cancelled();
    }
}
