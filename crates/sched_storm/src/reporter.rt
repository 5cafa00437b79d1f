//! What a report is told of the events of a storm.
ghost use Rattle.std.specs.Prelude.{◌≡◌, ◌+◌, ◌<◌, ◌≤◌, List, ◌++◌, OnOk};
ghost use Rattle.sched_storm_report.specs.Told.{AreTold, HasBegun};
ghost use Rattle.sched_storm_report.specs.declared.peer.Peer.{Peer};
ghost use Rattle.sched_storm_report.specs.declared.moments.Moment.{Moment};
ghost use Rattle.sched_storm.specs.Parameters.{peer_of};
ghost use Rattle.sched_storm.specs.Reported.{told_on};

use crate::storm::Storm;
use crate::turns::Turn;
use sched_storm_report::{Busy, Happening, Moment, Tally};
use sched_time::NoMemory;

/// Tells a tally of the events of a storm: of all, or of those of one population.
#[derive(Drop)]
pub(crate) struct Reporter {
    pub(crate) tally: Tally,
    /// The population, from 0, whose events it tells of; all where there is none.
    pub(crate) of: Option<u64>,
    /// How many events were played.
    pub(crate) events: u64,
}

impl Reporter {
    /// What happened in the turn, after which the peer's replicas have taken so much.
    #[inline(always)]
    pub(crate) fn tell(
        &mut self,
        storm: &Storm,
        turn: Turn,
        what: Happening,
        busy: Busy,
    ) -> Result<(), NoMemory>
        requires order { self.old.tally.from ≤ turn.at }
        requires near { turn.at ≤ 7200000 }
        requires began { HasBegun turn.at what }
        requires said { self.old.tally.said ≤ self.old.events }
        requires few { self.old.events < 1099511627776 }
        ensures told { OnOk result ((peer : Peer) (told : List Moment) → peer ≡ peer_of storm.now →
            AreTold peer told self.old.tally →
            AreTold peer (told ++ told_on storm.now self.old.of turn.request
            (record { at = turn.at; what = what; busy = busy })) self.new.tally) }
        ensures of { self.new.of ≡ self.old.of }
        ensures window { self.new.tally.window ≡ self.old.tally.window }
        ensures from { self.new.tally.from ≤ turn.at }
        ensures said { OnOk result (self.new.tally.said ≤ self.new.events) }
        ensures events { self.new.events ≡ self.old.events + 1 }
    {
        self.events += 1;
        let busy = match self.of {
            None => busy,
            Some(population) => {
                if storm.population_of(turn.request) != population {
                    return Ok(());
                }
                Busy::NONE
            }
        };
        let moment = Moment {
            at: turn.at,
            what,
            busy,
        };
        self.tally.tell(&storm.peer(), moment)
    }
}
