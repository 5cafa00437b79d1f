//! The populations of clients whose requests make up a storm.
ghost use Rattle.std.specs.Prelude.{◌≡◌, ◌+◌, ◌≤◌, ◌↔◌, IsTrue};
ghost use Rattle.sched_storm.specs.Populations.{IsPopulation, AreOthers, place_of, population_of, patience_of};
ghost use Rattle.sched_storm.specs.Populations.{draws_of, as_population, patience_in, draws_in};
ghost use Rattle.sched_storm_limit.specs.Ranges.{AreDraws};

use crate::parameters::Parameters;
use crate::storm::{MAX_MILLIS, Storm};
use sched_storm_limit::Draws;

/// A population of clients beside the first one.
#[derive(Clone, Copy, Debug, PartialEq, Eq)]
pub struct Population {
    /// Its share of the requests, in per cent; where it is 0 there is no such population.
    pub share: u64,
    /// After how long its clients give a call up, from 1 to 3,600,000.
    pub patience: u64,
    /// Whether its retries draw on what those of the first population draw on. If not they draw on nothing.
    pub is_limited: bool,
}

impl Population {
    /// No population.
    pub const NONE: Population = Population {
        share: 0,
        patience: 0,
        is_limited: false,
    };

    fn is_in_range(self) -> bool
        ensures { IsTrue result ↔ IsPopulation self }
    {
        self.patience <= MAX_MILLIS && (self.share == 0 || 1 <= self.patience)
    }
}

/// The populations beside the first one, which has the other requests: of each hundred one at least.
#[derive(Clone, Copy, Debug, PartialEq, Eq)]
pub struct Others {
    /// The second population.
    pub second: Population,
    /// The third one.
    pub third: Population,
    /// The fourth one.
    pub fourth: Population,
}

/// The most of a hundred requests that are not of the first population.
pub const MAX_SHARE: u64 = 99;

impl Others {
    /// None: all requests are of one population.
    pub const NONE: Others = Others {
        second: Population::NONE,
        third: Population::NONE,
        fourth: Population::NONE,
    };

    pub(crate) fn are_in_range(self) -> bool
        ensures { IsTrue result ↔ AreOthers self }
    {
        self.second.share <= MAX_SHARE
            && self.third.share <= MAX_SHARE
            && self.fourth.share <= MAX_SHARE
            && self.second.share + self.third.share + self.fourth.share <= MAX_SHARE
            && self.second.is_in_range()
            && self.third.is_in_range()
            && self.fourth.is_in_range()
    }
}

impl Storm {
    /// The population, from 0, whose request this is.
    #[inline(always)]
    pub(crate) fn population_of(&self, request: u64) -> u64
        ensures { result ≡ population_of self.now request }
    {
        let Others {
            second,
            third,
            fourth,
        } = self.parameters().others;
        if second.share + third.share + fourth.share == 0 {
            return 0;
        }
        let place = request % 100 * 61 % 100;
        if place < second.share {
            1
        } else if place < second.share + third.share {
            2
        } else if place < second.share + third.share + fourth.share {
            3
        } else {
            0
        }
    }

    /// The storm as the clients of a population meet it.
    pub(crate) fn as_population(&self, population: u64) -> Storm
        ensures { result ≡ as_population self.now population }
    {
        self.with(self.patience_of(population), self.draws_of(population))
    }

    // How long the clients of a population wait.
    fn patience_of(&self, population: u64) -> u64
        ensures value { result ≡ patience_of self.now population }
        ensures some { 1 ≤ result }
        ensures few { result ≤ 3600000 }
    {
        let parameters = self.parameters();
        match population {
            0 => parameters.patience,
            1 => patience_in(parameters, parameters.others.second),
            2 => patience_in(parameters, parameters.others.third),
            _ => patience_in(parameters, parameters.others.fourth),
        }
    }

    // What the retries of its clients draw on.
    fn draws_of(&self, population: u64) -> Draws
        ensures value { result ≡ draws_of self.now population }
        ensures in_range { AreDraws result }
    {
        let parameters = self.parameters();
        match population {
            0 => parameters.draws,
            1 => draws_in(parameters, parameters.others.second),
            2 => draws_in(parameters, parameters.others.third),
            _ => draws_in(parameters, parameters.others.fourth),
        }
    }
}

fn patience_in(parameters: &Parameters, population: Population) -> u64
    requires first { 1 ≤ parameters.now.patience }
    requires few { parameters.now.patience ≤ 3600000 }
    requires population { IsPopulation population }
    ensures value { result ≡ patience_in parameters.now population }
    ensures some { 1 ≤ result }
    ensures most { result ≤ 3600000 }
{
    if population.share == 0 {
        parameters.patience
    } else {
        population.patience
    }
}

fn draws_in(parameters: &Parameters, population: Population) -> Draws
    requires { AreDraws parameters.now.draws }
    ensures value { result ≡ draws_in parameters.now population }
    ensures in_range { AreDraws result }
{
    if population.is_limited {
        parameters.draws
    } else {
        Draws::Nothing
    }
}
