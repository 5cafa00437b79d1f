//! Clocks that tell moments and wait for them.
ghost use Rattle.std.specs.Prelude.{◌≡◌, ℕ, max};
ghost use Rattle.sched_task.specs.Course.{Answered};

use sched_time::Moment;
use std::marker::Model;

/// Tells the moment, and waits for one.
pub trait Clock {
    // Holds of a clock, the moment that it tells, and the clock after that.
    ghost tells: { Self → ℕ → Self → Type 0 };

    // Holds of a clock, the moment to wait for, the moment answered, and the clock after that.
    ghost waits: { Self → ℕ → ℕ → Self → Type 0 };

    /// The moment.
    fn now(&mut self) -> Moment
        ensures { tells self.old result self.new };

    /// Waits for a moment, and answers the moment at which it stopped waiting. That may be an earlier one.
    fn wait_until(&mut self, until: Moment) -> Moment
        ensures { waits self.old until result self.new };
}

/// A clock that moves only where it is waited for: at once, to the moment waited for. It never goes back.
#[derive(Clone, Copy, Debug, PartialEq, Eq)]
pub struct VirtualClock {
    moment: Moment,
}

impl Model for VirtualClock {
    ghost use Rattle.std.specs.Prelude.{ℕ};

    ghost Value = { ℕ };

    ghost view = { λ clock. clock.moment };

    ghost inverse = { λ n. record { moment = n } };
}

impl VirtualClock {
    /// A clock at this moment.
    pub fn at(moment: Moment) -> VirtualClock
        ensures { result ≡ moment }
    {
        VirtualClock { moment }
    }
}

impl Clock for VirtualClock {
    ghost tells = { λ clock moment after. (moment ≡ clock) × (after ≡ clock) };

    ghost waits = { λ clock until moment after. (moment ≡ max clock until) × (after ≡ moment) };

    fn now(&mut self) -> Moment {
        self.moment
    }

    fn wait_until(&mut self, until: Moment) -> Moment {
        if self.moment.get() < until.get() {
            self.moment = until;
        }
        self.moment
    }
}

// Waits where a moment is waited for, and answers the clock's moment.
pub(crate) fn moment_at<C: Clock>(clock: &mut C, due: Option<Moment>) -> Moment
    ensures { Answered C.tells C.waits due clock.old result clock.new }
{
    match due {
        Some(moment) => clock.wait_until(moment),
        None => clock.now(),
    }
}
