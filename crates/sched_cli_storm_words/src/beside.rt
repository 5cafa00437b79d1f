//! The populations of clients beside the first one, as words spell them.
use crate::faults::StormFault;
use crate::numbers::number_in;
use clap::ArgMatches;
use sched_storm::{MAX_MILLIS, MAX_SHARE, Others, Population};
use std::alloc::{AllocError, Global};

const BESIDE: &str = "--beside <PERCENT[@PATIENCE][+limited]=FILE>";

const BESIDE_WANTED: &str =
    "expected a percentage and a file, such as 30=plans/back-off.json or 30@2000+limited=plans/back-off.json; \
     PERCENT is from 1 to 99, and PATIENCE from 1 to 3600000";

const TOO_OFTEN: &str =
    "the argument '--beside <PERCENT[@PATIENCE][+limited]=FILE>' cannot be used more than 3 times";

const TOO_MUCH: &str =
    "'--beside <PERCENT[@PATIENCE][+limited]=FILE>' has more than 99 per cent of the requests";

/// A population, as the command line names it.
#[derive(Debug, Drop)]
pub struct PopulationWords {
    /// Its share of the requests, in per cent.
    pub share: u64,
    /// What spells the share, and for a population beside the first one what else is said of its clients.
    pub word: String,
}

// The clients of a population beside the first one. With a share of 0 there is none.
#[derive(Clone, Copy, Debug, PartialEq, Eq)]
struct Clients {
    share: u64,
    patience: Option<u64>,
    is_limited: bool,
}

impl Clients {
    const NONE: Clients = Clients {
        share: 0,
        patience: None,
        is_limited: false,
    };

    // The population of these clients, who have this patience where none of their own is said.
    fn population(self, patience: u64) -> Population {
        if self.share == 0 {
            return Population::NONE;
        }
        Population {
            share: self.share,
            patience: self.patience.unwrap_or(patience),
            is_limited: self.is_limited,
        }
    }
}

/// The clients of the populations beside the first one, if there are any.
#[derive(Clone, Copy, Debug, PartialEq, Eq)]
pub(crate) struct Beside {
    second: Clients,
    third: Clients,
    fourth: Clients,
}

impl Beside {
    const NONE: Beside = Beside {
        second: Clients::NONE,
        third: Clients::NONE,
        fourth: Clients::NONE,
    };

    /// The populations of these clients, in a storm of this patience.
    pub(crate) fn others(&self, patience: u64) -> Others {
        Others {
            second: self.second.population(patience),
            third: self.third.population(patience),
            fourth: self.fourth.population(patience),
        }
    }

    // The same with one more population, where there is room.
    fn with(self, clients: Clients) -> Option<Beside> {
        if self.second.share == 0 {
            Some(Beside {
                second: clients,
                ..self
            })
        } else if self.third.share == 0 {
            Some(Beside {
                third: clients,
                ..self
            })
        } else if self.fourth.share == 0 {
            Some(Beside {
                fourth: clients,
                ..self
            })
        } else {
            None
        }
    }

    // Their share of the requests together.
    fn share(&self) -> u64 {
        self.second
            .share
            .saturating_add(self.third.share)
            .saturating_add(self.fourth.share)
    }
}

/// The populations beside the first one that the options ask for.
pub(crate) fn beside_in(alloc: Global, options: &ArgMatches<'_>) -> Result<Beside, StormFault> {
    let mut found = Beside::NONE;
    if let Some(words) = options.get_strs("beside") {
        for word in words {
            let Some(clients) = clients_in(word) else {
                return Err(StormFault::value(alloc, BESIDE, word, BESIDE_WANTED));
            };
            let Some(more) = found.with(clients) else {
                return Err(StormFault::bad(alloc, TOO_OFTEN));
            };
            found = more;
        }
    }
    if found.share() > MAX_SHARE {
        return Err(StormFault::bad(alloc, TOO_MUCH));
    }
    Ok(found)
}

/// All populations in their order, where there are several.
pub(crate) fn populations_in(
    alloc: Global,
    options: &ArgMatches<'_>,
    beside: &Beside,
) -> Result<Vec<PopulationWords>, AllocError> {
    let mut all = Vec::new(alloc);
    if let Some(words) = options.get_strs("beside") {
        let share = 100u64.saturating_sub(beside.share());
        let word = format!(in alloc; "{share}")?;
        all.push(PopulationWords { share, word })?;
        for spelt in words {
            if let Some(clients) = clients_in(spelt) {
                let share = clients.share;
                let word = String::from_str(alloc, parts_of(spelt).0)?;
                all.push(PopulationWords { share, word })?;
            }
        }
    }
    Ok(all)
}

/// The file that a word names.
pub(crate) fn file_of(word: &str) -> &str {
    parts_of(word).1
}

// What stands before the first = of a word, and what stands after it.
fn parts_of(word: &str) -> (&str, &str) {
    word.split_once('=').unwrap_or((word, ""))
}

// The clients that a word spells as PERCENT[@PATIENCE][+limited]=FILE, in range.
fn clients_in(word: &str) -> Option<Clients> {
    let (spelt, file) = parts_of(word);
    if file.is_empty() {
        return None;
    }
    let (numbers, is_limited) = match spelt.split_once('+') {
        Some((numbers, "limited")) => (numbers, true),
        Some(_) => return None,
        None => (spelt, false),
    };
    let (percent, patience) = match numbers.split_once('@') {
        Some((percent, patience)) => (percent, Some(patience_in(patience)?)),
        None => (numbers, None),
    };
    let share = number_in(percent)?;
    if share < 1 || share > MAX_SHARE {
        return None;
    }
    Some(Clients {
        share,
        patience,
        is_limited,
    })
}

// The patience that a word spells.
fn patience_in(word: &str) -> Option<u64> {
    let patience = number_in(word)?;
    if patience < 1 || patience > MAX_MILLIS {
        return None;
    }
    Some(patience)
}
