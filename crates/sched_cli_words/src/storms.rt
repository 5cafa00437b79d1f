//! The words of a command line that ask for a storm.
ghost use Rattle.std.specs.Prelude.{IfOk};
ghost use Rattle.sched_cli_words.specs.Options.{IsAskedInRange};

use crate::faults::WordsFault;
use crate::options::{Asked, Origin};
use crate::quota_words::{bad_quota, terms_in};
use clap::ArgMatches;
use sched_cli_storm_words::{StormFault, storm_options};
use std::alloc::Global;

/// A storm, in which retries draw on a quota where one is given. `Bad` where a value is outside its range.
pub(crate) fn storm(
    alloc: Global,
    options: &ArgMatches<'_>,
    origin: Origin,
) -> Result<Asked, WordsFault>
    ensures { IfOk result IsAskedInRange }
{
    let mut quota = None;
    if let Some(text) = options.get_str("quota") {
        let Some(terms) = terms_in(text) else {
            return Err(bad_quota(alloc, text));
        };
        quota = Some(terms);
    }
    match storm_options(alloc, options, quota) {
        Ok(storm) => Ok(Asked::Storm(storm, origin)),
        Err(StormFault::Bad(why)) => Err(WordsFault::Bad(why)),
        Err(StormFault::NoMemory) => Err(WordsFault::NoMemory),
    }
}
