ghost use Rattle.std.specs.Prelude.{◌≡◌, min, max};
ghost use Rattle.sched_time.specs.Decision.{start_of};

use crate::numbers::Moment;
use std::marker::Model;

/// An interval with a start and no end.
#[derive(Clone, Copy, Debug, PartialEq, Eq)]
pub struct Interval {
    start: Moment,
}

impl Model for Interval {
    ghost use Rattle.std.specs.Prelude.{ℕ};

    ghost Value = { ℕ };

    ghost view = { λ i. i.start };

    ghost inverse = { λ n. record { start = n } };
}

impl Interval {
    /// The interval from `start` on.
    pub fn after(start: Moment) -> Self
        ensures { result ≡ start }
    {
        Interval { start }
    }

    /// Its start.
    pub fn start(self) -> Moment
        ensures { result ≡ self }
    {
        self.start
    }

    /// What both intervals have in common: it starts at the later of both starts.
    pub fn meet(self, other: Interval) -> Self
        ensures { result ≡ max self other }
    {
        if self.start.get() < other.start.get() {
            other
        } else {
            self
        }
    }

    /// What either interval has: it starts at the earlier of both starts.
    pub fn join(self, other: Interval) -> Self
        ensures { result ≡ min self other }
    {
        if other.start.get() < self.start.get() {
            other
        } else {
            self
        }
    }
}

/// What a schedule decides at a step: to go on in an interval, or that it is done.
#[derive(Clone, Copy, Debug, PartialEq, Eq)]
pub enum Decision {
    /// Goes on at the start of this interval.
    Go(Interval),
    /// Does not go on.
    Done,
}

impl Decision {
    /// The start of the interval in which the schedule goes on, or `None` where it is done.
    pub fn start(self) -> Option<Moment>
        ensures { result ≡ start_of self }
    {
        match self {
            Decision::Go(interval) => Some(interval.start()),
            Decision::Done => None,
        }
    }
}

#[cfg(test)]
mod tests {
    use super::*;
    use std::test::Fail;

    #[test]
    fn meet_is_later_and_join_earlier(rt: HostRuntime) -> Result<(), Fail> {
        for (a, b, later, earlier) in [
            (3, 9, 9, 3),
            (9, 3, 9, 3),
            (7, 7, 7, 7),
            (0, 4611686018427387903, 4611686018427387903, 0),
        ] {
            let first = Interval::after(Moment::new(a).ok_or("out of range")?);
            let second = Interval::after(Moment::new(b).ok_or("out of range")?);
            assert_eq!(rt; first.meet(second).start().get(), later, "{a} and {b}");
            assert_eq!(rt; first.join(second).start().get(), earlier, "{a} or {b}");
        }
        Ok(())
    }

    #[test]
    fn start_of_a_decision(rt: HostRuntime) -> Result<(), Fail> {
        let start = Moment::new(150).ok_or("out of range")?;
        assert_eq!(rt; Decision::Go(Interval::after(start)).start(), Some(start));
        assert_eq!(rt; Decision::Done.start(), None);
        Ok(())
    }
}
