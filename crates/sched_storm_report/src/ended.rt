//! A tally that is over gives its report.
ghost use Rattle.std.specs.Prelude.{◌≡◌, ◌≤◌, List, IfOk};
ghost use Rattle.sched_storm_report.specs.Counts.{no_counts, AddUpTo};
ghost use Rattle.sched_storm_report.specs.Peer.{IsPeer};
ghost use Rattle.sched_storm_report.specs.Report.{IsReport};
ghost use Rattle.sched_storm_report.specs.Told.{AreTold};
ghost use Rattle.sched_storm_report.specs.declared.moments.Moment.{Moment};

use crate::peer::Peer;
use crate::report::{Ends, Report, in_all};
use crate::tally::Tally;
use sched_time::NoMemory;

impl Tally {
    /// The report of the moments that were told. Fails only with `NoMemory`.
    pub fn into_report(self, peer: &Peer, ends: Ends) -> Result<Report, NoMemory>
        requires peer { IsPeer peer.now }
        requires few { self.said ≤ 1099511627776 }
        ensures report { IfOk result (λ r. (told : List Moment) → AreTold peer.now told self →
            IsReport peer.now ends self.window told r) }
        ensures sums { IfOk result (λ r. AddUpTo r.windows.items no_counts r.totals.counts) }
    {
        let last = self.window_here(peer);
        let Tally {
            mut windows,
            mut took,
            score,
            ..
        } = self;
        windows.push(last)?;
        took.sort_unstable();
        let totals = in_all(ends, &windows, score, &took);
        Ok(Report { windows, totals })
    }
}
