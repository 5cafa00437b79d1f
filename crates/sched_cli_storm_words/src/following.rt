//! What follows from the other parameters of a storm.
use crate::beside::Beside;
use crate::rates::RateSpans;
use sched_storm::Parameters;

/// The words that say something of the rate and of the patience of a storm, whatever these are: spans with rates of
/// their own, and populations beside the first one.
#[derive(Clone, Copy, Debug, PartialEq, Eq)]
pub(crate) struct Following {
    /// The spans.
    pub(crate) spans: RateSpans,
    /// The populations.
    pub(crate) beside: Beside,
}

impl Following {
    /// These parameters with their phases and their populations.
    pub(crate) fn with(&self, parameters: &Parameters) -> Parameters {
        Parameters {
            rates: self.spans.rates(parameters.rate),
            others: self.beside.others(parameters.patience),
            ..*parameters
        }
    }
}
