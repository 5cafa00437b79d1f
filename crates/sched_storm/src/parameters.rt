//! What a storm is made of.
use crate::populations::Others;
use crate::rates::Rates;
use sched_storm_limit::Draws;
use sched_storm_report::{BrownOut, Span};

/// The parameters of a storm. Moments and durations are in milliseconds, from 0 on.
#[derive(Clone, Copy, Debug, PartialEq, Eq)]
pub struct Parameters {
    /// Requests a second, from 1 to 1,000,000.
    pub rate: u64,
    /// The phases of the rate before that, if there are any.
    pub rates: Rates,
    /// Requests that come at one moment, from 1 to 1,000,000.
    pub together: u64,
    /// For how many seconds requests come, from 1 to 3,600; in these come at most 1,048,576.
    pub seconds: u64,
    /// Calls that each replica of the peer can do in a second, from 1 to 1,000,000.
    pub capacity: u64,
    /// After how long a client gives a call up, from 1 to 3,600,000.
    pub patience: u64,
    /// Calls of work that may stand at each replica, at most 1,048,576.
    pub queue: u64,
    /// How many replicas the peer is, from 1 to 4: calls go to them in turn.
    pub replicas: u64,
    /// When replicas refuse all calls; it ends at 3,600,000 at the latest.
    pub outage: Span,
    /// How many replicas do in the outage, the first ones, from 1 to `replicas`.
    pub down: u64,
    /// When the peer works slowly, at 1 to 100 per cent; it ends at 3,600,000 at the latest.
    pub slow: Option<BrownOut>,
    /// How long a window of the report is, from 1 to 3,600,000; `until / window` is at most 65,536.
    pub window: u64,
    /// What lies after this moment is not played, at most 7,200,000.
    pub until: u64,
    /// The storm is cut before the call after so many, from 1 to 4294967296.
    pub calls: u64,
    /// The seed of the random words; those of a throttle are of the next seed.
    pub words: u64,
    /// What retries draw on.
    pub draws: Draws,
    /// The populations of clients beside the first one, if there are any. `patience` and `draws` are those of the
    /// first.
    pub others: Others,
}

impl Default for Parameters {
    /// 800 requests a second for a minute, on a peer that does 1,000 and is away from 10 to 20 s.
    fn default() -> Self {
        Parameters {
            rate: 800,
            rates: Rates::NONE,
            together: 1,
            seconds: 60,
            capacity: 1000,
            patience: 500,
            queue: 5000,
            replicas: 1,
            outage: Span {
                from: 10000,
                to: 20000,
            },
            down: 1,
            slow: None,
            window: 1000,
            until: 120000,
            calls: 16777216,
            words: 0,
            draws: Draws::Nothing,
            others: Others::NONE,
        }
    }
}
