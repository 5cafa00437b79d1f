//! The peer that is called: when its replicas do what, and what becomes of a call.
ghost use Rattle.std.specs.Prelude.{◌≡◌, ◌+◌, ◌*◌, ◌<◌, ◌≤◌, false};
ghost use Rattle.sched_storm.specs.Calls.{can_be_done, ahead, is_full, IsDoneAt, IsTaken, IsCalled};
ghost use Rattle.sched_storm.specs.Calls.{replica_of, is_away, called_at, called, busy_after, AreFew};

use crate::storm::Storm;
use sched_storm_report::{Busy, CALL, Failure};

/// How a call ends.
#[derive(Clone, Copy, Debug, PartialEq, Eq)]
pub(crate) enum CallEnd {
    /// Its work was done within its client's patience.
    Succeeded,
    /// It fails for this reason.
    Failed(Failure),
}

/// What becomes of a call: the unit at which all work that its replica has taken is then done, when the call ends, and
/// how.
#[derive(Clone, Copy, Debug, PartialEq, Eq)]
pub(crate) struct Called {
    pub(crate) busy: u64,
    pub(crate) ends: u64,
    pub(crate) how: CallEnd,
}

impl Storm {
    /// The units of work that a replica can have done by this moment.
    pub(crate) fn can_be_done(&self, at: u64) -> u64
        requires { at ≤ 10800000 }
        ensures value { result ≡ can_be_done self.now at }
        ensures most { result ≤ 100000000 * at }
    {
        self.peer().can_be_done(at)
    }

    /// What becomes of the storm's call of this number, from 0, that comes at this moment: it goes to its replica.
    #[inline(always)]
    pub(crate) fn call(&self, calls: u64, busy: &mut Busy, at: u64) -> Called
        requires at { at ≤ self.now.until }
        requires busy { AreFew busy.old }
        ensures value { result ≡ called self.now calls busy.old at }
        ensures busy { busy.new ≡ busy_after self.now calls result busy.old }
        ensures few { AreFew busy.new }
        ensures order { at ≤ result.ends }
    {
        let replica = self.replica_of(calls);
        let called = self.call_at(replica, busy.at(replica), at);
        busy.set(replica, called.busy);
        called
    }

    // The replica that the call of this number goes to.
    fn replica_of(&self, calls: u64) -> u64
        ensures { result ≡ replica_of self.now calls }
    {
        calls % self.parameters().replicas
    }

    // What becomes of a call that comes to a replica at this moment, where all work that it has taken is done at the
    // unit `busy`.
    fn call_at(&self, replica: u64, busy: u64, at: u64) -> Called
        requires at { at ≤ self.now.until }
        requires busy { busy ≤ 900000000000000 }
        ensures called { IsCalled self.now replica busy at result }
        ensures value { result ≡ called_at self.now replica busy at }
        ensures busy { result.busy ≤ 900000000000000 }
        ensures order { at ≤ result.ends }
    {
        if self.is_away(replica, at) {
            return Called {
                busy,
                ends: at,
                how: CallEnd::Failed(Failure::Refused),
            };
        }
        if self.is_full(busy, at) {
            return Called {
                busy,
                ends: at,
                how: CallEnd::Failed(Failure::Shed),
            };
        }
        self.take(busy, at)
    }

    // Whether the replica refuses all calls at this moment.
    fn is_away(&self, replica: u64, at: u64) -> bool
        ensures { result ≡ is_away self.now replica at }
    {
        let parameters = self.parameters();
        parameters.outage.has(at) && replica < parameters.down
    }

    // Whether as much work stands ahead of a call as the queue may have.
    fn is_full(&self, busy: u64, at: u64) -> bool
        requires { at ≤ self.now.until }
        ensures value { result ≡ is_full self.now (ahead self.now busy at) }
        ensures room { result ≡ false → busy ≤ can_be_done self.now at + 104857600000 }
    {
        let queue = self.parameters().queue;
        let units = busy.saturating_sub(self.can_be_done(at));
        if queue == 0 {
            units > 0
        } else {
            units >= queue * CALL
        }
    }

    // What becomes of a call that is taken.
    fn take(&self, busy: u64, at: u64) -> Called
        requires at { at ≤ self.now.until }
        requires room { busy ≤ can_be_done self.now at + 104857600000 }
        ensures taken { IsTaken self.now busy at result }
        ensures busy { result.busy ≤ 900000000000000 }
        ensures order { at ≤ result.ends }
    {
        let gives_up = at + self.parameters().patience;
        let busy = busy.max(self.can_be_done(at)) + CALL;
        if self.can_be_done(gives_up) < busy {
            return Called {
                busy,
                ends: gives_up,
                how: CallEnd::Failed(Failure::Late),
            };
        }
        Called {
            busy,
            ends: self.done_at(busy, at, gives_up),
            how: CallEnd::Succeeded,
        }
    }

    // The least moment at which so many units can have been done, which lies between these two.
    fn done_at(&self, units: u64, from: u64, to: u64) -> u64
        requires order { from ≤ to }
        requires near { to ≤ 10800000 }
        requires done { units ≤ can_be_done self.now to }
        requires before { can_be_done self.now from < units }
        ensures value { IsDoneAt self.now units result }
        ensures order { from ≤ result }
    {
        let mut early = from;
        let mut late = to;
        while early < late {
            let middle = early + (late - early) / 2;
            if self.can_be_done(middle) >= units {
                late = middle;
            } else {
                early = middle + 1;
            }
        }
        late
    }
}
