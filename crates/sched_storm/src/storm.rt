ghost use Rattle.std.specs.Prelude.{◌≡◌, ℕ, ◌*◌, ◌/◌, ◌<◌, ◌≤◌, ◌↔◌, IsTrue, IsSome, IfSome};
ghost use Rattle.sched_storm_report.specs.Peer.{IsSpan, IsSlow, IsPeer};
ghost use Rattle.sched_storm_limit.specs.Ranges.{AreDraws, has_draws};
ghost use Rattle.sched_storm.specs.Rates.{phases_of, arrives, AreRates, IsGreatest};
ghost use Rattle.sched_storm.specs.Parameters.{AreInRange};
ghost use Rattle.sched_storm.specs.Parameters.{RequestsAreInRange, PeerIsInRange, ReportIsInRange};
ghost use Rattle.sched_storm.specs.Parameters.{requests_by_rate, comes_by_rate, peer_of, end_of_trouble};

use crate::parameters::Parameters;
use sched_storm_limit::Draws;
use sched_storm_report::{BrownOut, Peer, Span};
use std::marker::Model;

/// The greatest rate, herd and capacity.
pub const MAX_EACH: u64 = 1000000;

/// The most seconds for which requests come.
pub const MAX_SECONDS: u64 = 3600;

/// The most requests, and the longest queue.
pub const MAX_REQUESTS: u64 = 1048576;

/// The most replicas of a peer.
pub const MAX_REPLICAS: u64 = 4;

/// The longest patience and window, and the latest end of an outage and of a brown-out, in milliseconds.
pub const MAX_MILLIS: u64 = 3600000;

/// The last moment that may be played.
pub const MAX_UNTIL: u64 = 7200000;

/// The greatest number of the last window.
pub const MAX_WINDOWS: u64 = 65536;

/// The most calls before a storm is cut.
pub const MAX_CALLS: u64 = 4294967296;

/// A storm: parameters that are in their ranges.
#[derive(Clone, Copy, Debug)]
pub struct Storm {
    parameters: Parameters,
    /// How many requests come by the rates in all, where `until` allows.
    requests: u64,
}

impl Model for Storm {
    ghost use Rattle.std.specs.Prelude.{◌≡◌};
    ghost use Rattle.std.proofs.Common.{sym};
    ghost use Rattle.sched_storm.specs.Parameters.{AreInRange, requests_by_rate};
    ghost use Rattle.sched_storm.specs.declared.parameters.Parameters.{Parameters};

    ghost Value = { Parameters };

    ghost view = { λ s. s.parameters };

    ghost invariant = { λ s. AreInRange s.parameters × (s.requests ≡ requests_by_rate s.parameters) };

    ghost inverse = { λ p. record { parameters = p; requests = requests_by_rate p } };

    ghost inverse_ok = { λ s h. λ i. record { parameters = s.parameters; requests = sym h.1 i } };
}

impl Storm {
    /// The storm of these parameters, or `None` where one is outside its range.
    pub fn new(parameters: Parameters) -> Option<Storm>
        ensures in_range { IsSome result ↔ AreInRange parameters }
        ensures value { IfSome result (λ storm. storm ≡ parameters) }
    {
        if are_in_range(&parameters) {
            let requests = requests_by_rate(&parameters);
            Some(Storm {
                parameters,
                requests,
            })
        } else {
            None
        }
    }

    /// The same storm, with this patience, and of which retries draw on this.
    pub(crate) fn with(&self, patience: u64, draws: Draws) -> Storm
        requires some { 1 ≤ patience }
        requires few { patience ≤ 3600000 }
        requires draws { AreDraws draws }
        ensures { result ≡ record self.now { patience = patience; draws = draws } }
    {
        Storm {
            parameters: Parameters {
                patience,
                draws,
                ..self.parameters
            },
            requests: self.requests,
        }
    }

    /// What it is made of.
    pub fn parameters(&self) -> &Parameters
        ensures value { result.now ≡ self.now }
        ensures in_range { AreInRange self.now }
    {
        &self.parameters
    }

    /// What retries draw on.
    pub(crate) fn draws(&self) -> &Draws
        ensures value { result.now ≡ self.now.draws }
        ensures in_range { AreDraws result.now }
    {
        &self.parameters.draws
    }

    /// The moment at which a request begins its first call by the rates, of requests that are numbered from 0.
    pub(crate) fn comes_by_rate(&self, request: u64) -> u64
        requires { request ≤ 1048576 }
        ensures value { result ≡ comes_by_rate self.now request }
        ensures greatest { IsGreatest self.now.rate 0 (phases_of self.now.rates)
            (request / self.now.together * self.now.together * 1000) result }
    {
        let p = &self.parameters;
        let first = request / p.together * p.together;
        p.rates.arrives(p.rate, first * 1000)
    }

    /// The peer that the calls come to.
    pub(crate) fn peer(&self) -> Peer
        ensures value { result ≡ peer_of self.now }
        ensures peer { IsPeer result }
    {
        Peer {
            capacity: self.parameters.capacity,
            slow: self.parameters.slow,
        }
    }

    /// When the outage and the brown-out are over.
    pub(crate) fn end_of_trouble(&self) -> u64
        ensures { result ≡ end_of_trouble self.now }
    {
        match self.parameters.slow {
            Some(slow) => self.parameters.outage.to.max(slow.span.to),
            None => self.parameters.outage.to,
        }
    }

    /// Whether retries draw on anything.
    pub(crate) fn has_draws(&self) -> bool
        ensures { result ≡ has_draws self.now.draws }
    {
        self.parameters.draws.are_some()
    }

    /// How many requests come by the rates in all, where `until` allows.
    pub(crate) fn requests_by_rate(&self) -> u64
        ensures value { result ≡ requests_by_rate self.now }
        ensures few { result ≤ 1048576 }
        ensures before { (r : ℕ) → (r < result) ↔
            (arrives self.now.rate 0 (phases_of self.now.rates) (r * 1000) < self.now.seconds * 1000) }
    {
        self.requests
    }
}

fn are_in_range(parameters: &Parameters) -> bool
    ensures { IsTrue result ↔ AreInRange parameters.now }
{
    are_requests(parameters)
        && is_peer(parameters)
        && is_report(parameters)
        && parameters.draws.are_in_range()
        && parameters.others.are_in_range()
}

fn are_requests(p: &Parameters) -> bool
    ensures { IsTrue result ↔ RequestsAreInRange p.now }
{
    1 <= p.rate
        && p.rate <= MAX_EACH
        && 1 <= p.together
        && p.together <= MAX_EACH
        && 1 <= p.seconds
        && p.seconds <= MAX_SECONDS
        && p.rates.are_in_range()
        && requests_by_rate(p) <= MAX_REQUESTS
}

// How many requests come by the rates in all, where `until` allows.
fn requests_by_rate(p: &Parameters) -> u64
    requires rate { p.now.rate ≤ 1000000 }
    requires seconds { p.now.seconds ≤ 3600 }
    requires rates { AreRates p.now.rates }
    ensures { result ≡ requests_by_rate p.now }
{
    (p.rates.thousandths_by(p.rate, p.seconds * 1000) + 999) / 1000
}

fn is_peer(p: &Parameters) -> bool
    ensures { IsTrue result ↔ PeerIsInRange p.now }
{
    1 <= p.capacity
        && p.capacity <= MAX_EACH
        && 1 <= p.patience
        && p.patience <= MAX_MILLIS
        && p.queue <= MAX_REQUESTS
        && 1 <= p.replicas
        && p.replicas <= MAX_REPLICAS
        && is_span(p.outage)
        && 1 <= p.down
        && p.down <= p.replicas
        && is_slow(p.slow)
}

fn is_report(p: &Parameters) -> bool
    ensures { IsTrue result ↔ ReportIsInRange p.now }
{
    1 <= p.window
        && p.window <= MAX_MILLIS
        && p.until / p.window <= MAX_WINDOWS
        && p.until <= MAX_UNTIL
        && 1 <= p.calls
        && p.calls <= MAX_CALLS
}

fn is_span(span: Span) -> bool
    ensures { IsTrue result ↔ IsSpan span }
{
    span.from <= span.to && span.to <= MAX_MILLIS
}

fn is_slow(slow: Option<BrownOut>) -> bool
    ensures { IsTrue result ↔ IsSlow slow }
{
    match slow {
        Some(BrownOut { span, percent }) => is_span(span) && 1 <= percent && percent <= 100,
        None => true,
    }
}
