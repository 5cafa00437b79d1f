//! The parameters along which a storm is swept, and the values that words spell of them.
use crate::following::Following;
use crate::numbers::{number_in, tenths_in};
use sched_storm::{Draws, Others, Parameters, Population, Span, Storm};
use sched_ticket_quota::Terms;

// The greatest value.
const MAX_VALUE: u64 = 4294967296;

/// A parameter of a storm along which it is swept.
#[derive(Clone, Copy, Debug, PartialEq, Eq)]
pub enum Axis {
    /// Requests a second.
    Rate,
    /// So many requests that come at one moment, once.
    Clients,
    /// Requests that come at one moment.
    Together,
    /// Calls a second that the peer can do.
    Capacity,
    /// Calls that the peer queues at most.
    Queue,
    /// How long a client waits for a call, in milliseconds.
    Patience,
    /// How long the outage is, in milliseconds.
    Outage,
    /// The share of a quota, in thousandths.
    Share,
    /// The reserve of a quota.
    Reserve,
    /// A budget.
    Budget,
    /// The share of the first population beside, in per cent.
    Beside,
}

// What each is called.
const NAMES: [(&str, Axis); 11] = [
    ("rate", Axis::Rate),
    ("clients", Axis::Clients),
    ("together", Axis::Together),
    ("capacity", Axis::Capacity),
    ("queue", Axis::Queue),
    ("patience", Axis::Patience),
    ("outage", Axis::Outage),
    ("share", Axis::Share),
    ("reserve", Axis::Reserve),
    ("budget", Axis::Budget),
    ("beside", Axis::Beside),
];

impl Axis {
    /// The parameter of this name, with the name.
    pub(crate) fn named(name: &str) -> Option<(&'static str, Axis)> {
        for (known, axis) in NAMES {
            if known == name {
                return Some((known, axis));
            }
        }
        None
    }

    /// The value that a word spells: a share in per cent, with a decimal or none, and others as whole numbers.
    pub(crate) fn value_in(self, word: &str) -> Option<u64> {
        let value = match self {
            Axis::Share => tenths_in(word)?,
            _ => number_in(word)?,
        };
        if value > MAX_VALUE {
            return None;
        }
        Some(value)
    }

    /// The storm of these parameters, with this value in the place of its own, and with what follows from them. `None`
    /// where one is outside its range, retries do not draw on what the value is of, or no population stands beside.
    pub(crate) fn storm_with(
        self,
        base: &Parameters,
        following: &Following,
        value: u64,
    ) -> Option<Storm> {
        if !self.is_of(base.draws) {
            return None;
        }
        let parameters = following.with(&self.with(base, value));
        match self {
            Axis::Beside => Storm::new(with_share(&parameters, value)?),
            _ => Storm::new(parameters),
        }
    }

    // Whether storms whose retries draw on this have the parameter.
    fn is_of(self, draws: Draws) -> bool {
        match self {
            Axis::Share | Axis::Reserve => matches!(draws, Draws::Quota(_)),
            Axis::Budget => matches!(draws, Draws::Budget(_)),
            _ => true,
        }
    }

    // The parameters with this value.
    fn with(self, base: &Parameters, value: u64) -> Parameters {
        let mut parameters = *base;
        match self {
            Axis::Rate => parameters.rate = value,
            Axis::Clients => {
                parameters.rate = value;
                parameters.together = value;
            }
            Axis::Together => parameters.together = value,
            Axis::Capacity => parameters.capacity = value,
            Axis::Queue => parameters.queue = value,
            Axis::Patience => parameters.patience = value,
            Axis::Outage => {
                let from = base.outage.from;
                let to = from.saturating_add(value);
                parameters.outage = Span { from, to };
            }
            Axis::Share | Axis::Reserve | Axis::Budget => {
                parameters.draws = self.draws_with(base.draws, value);
            }
            Axis::Beside => {}
        }
        parameters
    }

    // What retries draw on with this value.
    fn draws_with(self, draws: Draws, value: u64) -> Draws {
        match (self, draws) {
            (Axis::Share, Draws::Quota(terms)) => Draws::Quota(Terms {
                share: value,
                ..terms
            }),
            (Axis::Reserve, Draws::Quota(terms)) => Draws::Quota(Terms {
                reserve: value,
                ..terms
            }),
            (Axis::Budget, Draws::Budget(_)) => Draws::Budget(value),
            (_, draws) => draws,
        }
    }
}

// The parameters with this share for the first population beside, if there is one.
fn with_share(parameters: &Parameters, share: u64) -> Option<Parameters> {
    let others = parameters.others;
    if others.second.share == 0 || share == 0 {
        return None;
    }
    let second = Population {
        share,
        ..others.second
    };
    Some(Parameters {
        others: Others { second, ..others },
        ..*parameters
    })
}
