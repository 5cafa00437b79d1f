//! What a storm's moments come to so far, in all and window by window.
ghost use Rattle.std.specs.Prelude.{◌≡◌, ◌+◌, ◌*◌, ◌<◌, ◌≤◌, max, vec_len, OnOk};
ghost use Rattle.sched_storm_report.specs.Counts.{AddUpTo, AreWithin};
ghost use Rattle.sched_storm_report.specs.Peer.{IsPeer, waiting_at};

use crate::counts::{Counts, Score};
use crate::moments::{Happening, Moment};
use crate::peer::{Busy, Peer};
use sched_time::NoMemory;
use std::alloc::Global;

/// A window of a storm.
#[derive(Clone, Copy, Debug, PartialEq, Eq)]
pub struct Window {
    /// Its first moment.
    pub from: u64,
    /// What began and ended in it.
    pub counts: Counts,
    /// The calls of work that stand at the peer's replicas at its end, those of each rounded down.
    pub waiting: u64,
}

/// The moments of a storm that were told so far, as far as its report depends on them.
#[derive(Drop)]
pub struct Tally {
    /// How long a window is.
    pub(crate) window: u64,
    /// The windows that are over.
    pub(crate) windows: Vec<Window>,
    /// What is counted in the window that is not over.
    pub(crate) here: Counts,
    /// The first moment of that window.
    pub(crate) from: u64,
    /// How long each request took that was won.
    pub(crate) took: Vec<u32>,
    pub(crate) score: Score,
    /// What the peer's replicas have taken.
    pub(crate) busy: Busy,
    /// How many moments were told.
    pub(crate) said: u64,
    ghost some: { 1 ≤ window },
    ghost short: { window ≤ 3600000 },
    ghost near: { from ≤ 7200000 },
    ghost in_line: { from ≡ vec_len windows * window },
    ghost sums: { AddUpTo windows.items here score.all },
    ghost times: { vec_len took ≡ score.all.won },
    ghost few: { AreWithin said score },
}

impl Tally {
    ghost use Rattle.std.specs.Prelude.{List, [], ◌∷◌, ◌++◌};
    ghost use Rattle.sched_storm_report.specs.declared.moments.Moment.{Moment};
    ghost use Rattle.sched_storm_report.specs.Told.{HasBegun, Stands, AreTold, IsWon, IsNext};
    ghost use Rattle.sched_storm_report.specs.declared.peer.Peer.{Peer};

    /// Of no moment. A window is so many milliseconds long.
    pub fn new(alloc: Global, window: u64) -> Tally
        requires some { 1 ≤ window }
        requires short { window ≤ 3600000 }
        ensures told { (peer : Peer) → AreTold peer [] result }
        ensures window { result.window ≡ window }
        ensures from { result.from ≡ 0 }
        ensures said { result.said ≡ 0 }
    {
        Tally {
            window,
            windows: Vec::new(alloc),
            here: Counts::NONE,
            from: 0,
            took: Vec::new(alloc),
            score: Score::NONE,
            busy: Busy::NONE,
            said: 0,
        }
    }

    /// Tells it the next moment, of the window of the last one or of a later window. Fails only with `NoMemory`, and
    /// then nothing is promised of what it was told.
    #[inline(always)]
    pub fn tell(&mut self, peer: &Peer, moment: Moment) -> Result<(), NoMemory>
        requires peer { IsPeer peer.now }
        requires order { self.old.from ≤ moment.at }
        requires near { moment.at ≤ 7200000 }
        requires began { HasBegun moment.at moment.what }
        requires few { self.old.said < 1099511627776 }
        ensures told { OnOk result ((told : List Moment) → AreTold peer.now told self.old →
            AreTold peer.now (told ++ moment ∷ []) self.new) }
        ensures window { self.new.window ≡ self.old.window }
        ensures from { self.new.from ≤ moment.at }
        ensures said { OnOk result (self.new.said ≡ self.old.said + 1) }
    {
        self.turn(peer, moment.at)?;
        self.note(moment)
    }

    // Ends the windows that are over at this moment.
    #[inline(always)]
    fn turn(&mut self, peer: &Peer, at: u64) -> Result<(), NoMemory>
        requires peer { IsPeer peer.now }
        requires order { self.old.from ≤ at }
        requires near { at ≤ 7200000 }
        ensures stands { OnOk result ((told : List Moment) → Stands peer.now told self.old →
            Stands peer.now told self.new) }
        ensures here { OnOk result (at < self.new.from + self.new.window) }
        ensures from { self.new.from ≤ at }
        ensures window { self.new.window ≡ self.old.window }
        ensures said { self.new.said ≡ self.old.said }
    {
        while self.from + self.window <= at {
            self.close(peer)?;
        }
        Ok(())
    }

    // Ends the window that is not over.
    #[cold]
    #[inline(never)]
    fn close(&mut self, peer: &Peer) -> Result<(), NoMemory>
        requires peer { IsPeer peer.now }
        requires near { self.old.from + self.old.window ≤ 7200000 }
        ensures stands { OnOk result ((told : List Moment) → Stands peer.now told self.old →
            Stands peer.now told self.new) }
        ensures from { OnOk result (self.new.from ≡ self.old.from + self.old.window) }
        ensures near { self.new.from ≤ self.old.from + self.old.window }
        ensures window { self.new.window ≡ self.old.window }
        ensures said { self.new.said ≡ self.old.said }
    {
        let window = self.window_here(peer);
        self.windows.push(window)?;
        self.here = Counts::NONE;
        self.from += self.window;
        Ok(())
    }

    /// The window that is not over, as it ends.
    pub(crate) fn window_here(&self, peer: &Peer) -> Window
        requires { IsPeer peer.now }
        ensures from { result.from ≡ self.now.from }
        ensures counts { result.counts ≡ self.now.here }
        ensures waiting { result.waiting ≡ waiting_at peer.now self.now.busy (self.now.from + self.now.window) }
    {
        Window {
            from: self.from,
            counts: self.here,
            waiting: peer.waiting_at(&self.busy, self.from + self.window),
        }
    }

    // Counts a moment of the window that is not over.
    #[inline(always)]
    fn note(&mut self, moment: Moment) -> Result<(), NoMemory>
        requires near { moment.at ≤ 7200000 }
        requires here { moment.at < self.old.from + self.old.window }
        requires began { HasBegun moment.at moment.what }
        requires few { self.old.said < 1099511627776 }
        ensures next { OnOk result (IsNext moment self.old self.new) }
        ensures window { self.new.window ≡ self.old.window }
        ensures from { self.new.from ≡ self.old.from }
    {
        self.said += 1;
        if let Happening::Won { began } = moment.what {
            self.win(began, moment.at)?;
        }
        self.here.count(moment.what);
        self.score.count(moment.what);
        self.busy = moment.busy;
        Ok(())
    }

    // Counts a request that is won in the window in which it began.
    fn win(&mut self, began: u64, at: u64) -> Result<(), NoMemory>
        requires order { began ≤ at }
        requires near { at ≤ 7200000 }
        requires here { at < self.old.from + self.old.window }
        requires few { self.old.said ≤ 1099511627776 }
        requires one { self.old.score.all.won < self.old.said }
        ensures won { OnOk result (IsWon began at self.old self.new) }
        ensures window { self.new.window ≡ self.old.window }
        ensures from { self.new.from ≡ self.old.from }
        ensures said { self.new.said ≡ self.old.said }
    {
        self.took.push((at - began) as u32)?;
        self.score.all.win();
        let number = (began / self.window) as usize;
        if number < self.windows.len() {
            let window = &mut self.windows[number];
            window.counts.won += 1;
        } else {
            self.here.win();
        }
        Ok(())
    }
}
