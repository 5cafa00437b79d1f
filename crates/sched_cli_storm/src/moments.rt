//! When the requests of a storm come, where a file says when.
ghost use Rattle.sched_storm.specs.Arrivals.{AreArrivals};

use sched_cli_storm_words::StormOptions;
use sched_storm::are_arrivals;
use sched_time::NoMemory;
use std::fmt::Write;

/// The moments at which requests come; none where they come by rates.
pub(crate) fn arrivals_of(options: &StormOptions) -> &[u64]
    ensures { AreArrivals result.now }
{
    let moments = options.moments.as_slice();
    if are_arrivals(moments) { moments } else { &[] }
}

/// Adds, as one more member of an object, how many moments the file has that says when requests come, if one does.
pub(crate) fn push_arrivals(text: &mut String, options: &StormOptions) -> Result<(), NoMemory> {
    if options.arrivals.is_some() {
        write!(text, ",\"arrivals\":{}", options.moments.len())?;
    }
    Ok(())
}

/// Adds the line that says what file says when requests come, if one does.
pub(crate) fn push_source(text: &mut String, options: &StormOptions) -> Result<(), NoMemory> {
    if let Some(name) = &options.arrivals {
        write!(
            text,
            "requests at the {} moments of ",
            options.moments.len()
        )?;
        text.push_str(name.as_str())?;
        text.push('\n')?;
    }
    Ok(())
}
