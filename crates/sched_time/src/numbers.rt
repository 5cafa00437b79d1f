ghost use Rattle.std.specs.Prelude.{◌≡◌, ◌+◌, ◌-◌, ◌*◌, ◌≤◌, ◌↔◌, IsSome, IfSome};
ghost use Rattle.sched_time.specs.Capped.{capped};

use std::marker::Model;

/// The last moment and the longest duration, in milliseconds.
pub const FAR: u64 = 4611686018427387903;

/// A moment, in milliseconds from 0 to `FAR`.
#[derive(Clone, Copy, Debug, PartialEq, Eq, PartialOrd, Ord)]
pub struct Moment {
    at: u64,
}

impl Model for Moment {
    ghost use Rattle.std.specs.Prelude.{ℕ, ◌≤◌};
    ghost use Rattle.sched_time.specs.declared.numbers.TheConstants.{FAR};

    ghost Value = { ℕ };

    ghost view = { λ m. m.at };

    ghost invariant = { λ m. m.at ≤ FAR };

    ghost inverse = { λ n. record { at = n } };
}

impl Moment {
    /// The moment at this many milliseconds, or `None` past `FAR`.
    pub fn new(millis: u64) -> Option<Self>
        ensures in_range { IsSome result ↔ (millis ≤ 4611686018427387903) }
        ensures value { IfSome result (λ moment. moment ≡ millis) }
    {
        if millis <= FAR {
            Some(Moment { at: millis })
        } else {
            None
        }
    }

    /// The milliseconds from moment 0.
    pub fn get(self) -> u64
        ensures value { result ≡ self }
        ensures in_range { result ≤ FAR }
    {
        self.at
    }

    /// The moment this much later, at most `FAR`.
    pub fn plus(self, delay: Millis) -> Self
        ensures { result ≡ capped (self + delay) }
    {
        Moment {
            at: (self.at + delay.millis).min(FAR),
        }
    }

    /// How long ago `earlier` was.
    pub fn since(self, earlier: Moment) -> Millis
        requires { earlier ≤ self }
        ensures { result ≡ self - earlier }
    {
        Millis {
            millis: self.at - earlier.at,
        }
    }
}

/// A duration or a count, from 0 to `FAR`; a duration is in milliseconds.
#[derive(Clone, Copy, Debug, PartialEq, Eq, PartialOrd, Ord)]
pub struct Millis {
    millis: u64,
}

impl Model for Millis {
    ghost use Rattle.std.specs.Prelude.{ℕ, ◌≤◌};
    ghost use Rattle.sched_time.specs.declared.numbers.TheConstants.{FAR};

    ghost Value = { ℕ };

    ghost view = { λ d. d.millis };

    ghost invariant = { λ d. d.millis ≤ FAR };

    ghost inverse = { λ n. record { millis = n } };
}

impl Millis {
    /// The duration of this many milliseconds, or `None` past `FAR`.
    pub fn new(number: u64) -> Option<Self>
        ensures in_range { IsSome result ↔ (number ≤ 4611686018427387903) }
        ensures value { IfSome result (λ duration. duration ≡ number) }
    {
        if number <= FAR {
            Some(Millis { millis: number })
        } else {
            None
        }
    }

    /// The number of milliseconds.
    pub fn get(self) -> u64
        ensures value { result ≡ self }
        ensures in_range { result ≤ FAR }
    {
        self.millis
    }

    /// The sum, at most `FAR`.
    pub fn plus(self, other: Millis) -> Self
        ensures { result ≡ capped (self + other) }
    {
        Millis {
            millis: (self.millis + other.millis).min(FAR),
        }
    }

    /// The product, at most `FAR`.
    pub fn times(self, factor: u64) -> Self
        ensures { result ≡ capped (self * factor) }
    {
        Millis {
            millis: self.millis.saturating_mul(factor).min(FAR),
        }
    }
}

impl From<u32> for Millis {
    ghost from_gives = { λ n d. d ≡ n };

    fn from(millis: u32) -> Self {
        Millis {
            millis: u64::from(millis),
        }
    }
}

impl From<Moment> for Millis {
    ghost from_gives = { λ m d. d ≡ m };

    /// The time from moment 0 to this one.
    fn from(moment: Moment) -> Self {
        Millis { millis: moment.at }
    }
}

/// What a schedule is given at a step beside its input: the moment, and four random words, lanes 0 to 3.
#[derive(Clone, Copy, Debug, PartialEq, Eq)]
pub struct Tick {
    pub now: Moment,
    pub words: [u32; 4],
}

#[cfg(test)]
mod tests {
    use super::*;
    use std::test::Fail;

    #[test]
    fn numbers_end_at_far(rt: HostRuntime) {
        for (number, want) in [
            (0, Some(0)),
            (4611686018427387903, Some(4611686018427387903)),
            (4611686018427387904, None),
            (u64::MAX, None),
        ] {
            assert_eq!(rt;
                Moment::new(number).map(Moment::get),
                want,
                "moment {number}"
            );
            assert_eq!(rt;
                Millis::new(number).map(Millis::get),
                want,
                "duration {number}"
            );
        }
    }

    #[test]
    fn sums_stop_at_far(rt: HostRuntime) -> Result<(), Fail> {
        for (a, b, want) in [
            (0, 0, 0),
            (100, 30, 130),
            (4611686018427387902, 1, 4611686018427387903),
            (4611686018427387903, 1, 4611686018427387903),
            (1, 4611686018427387903, 4611686018427387903),
            (
                4611686018427387903,
                4611686018427387903,
                4611686018427387903,
            ),
        ] {
            let delay = Millis::new(b).ok_or("out of range")?;
            let moment = Moment::new(a).ok_or("out of range")?;
            let duration = Millis::new(a).ok_or("out of range")?;
            assert_eq!(rt; moment.plus(delay).get(), want, "moment {a} and {b}");
            assert_eq!(rt; duration.plus(delay).get(), want, "duration {a} and {b}");
        }
        Ok(())
    }

    // In 64 bits alone the products of 4 and of 3 by their great factors would wrap round to 0 and to 1.
    #[test]
    fn products_stop_at_far(rt: HostRuntime) -> Result<(), Fail> {
        for (a, factor, want) in [
            (0, u64::MAX, 0),
            (4611686018427387903, 0, 0),
            (3, 5, 15),
            (2305843009213693951, 2, 4611686018427387902),
            (2305843009213693952, 2, 4611686018427387903),
            (4611686018427387903, 1, 4611686018427387903),
            (1, u64::MAX, 4611686018427387903),
            (4, 4611686018427387904, 4611686018427387903),
            (3, 12297829382473034411, 4611686018427387903),
            (4611686018427387903, u64::MAX, 4611686018427387903),
        ] {
            let duration = Millis::new(a).ok_or("out of range")?;
            assert_eq!(rt; duration.times(factor).get(), want, "{a} times {factor}");
        }
        Ok(())
    }

    #[test]
    fn since_an_earlier_moment(rt: HostRuntime) -> Result<(), Fail> {
        let first = Moment::new(0).ok_or("out of range")?;
        let then = Moment::new(100).ok_or("out of range")?;
        let now = Moment::new(130).ok_or("out of range")?;
        let last = Moment::new(FAR).ok_or("out of range")?;
        assert_eq!(rt; now.since(then).get(), 30);
        assert_eq!(rt; now.since(now).get(), 0);
        assert_eq!(rt; last.since(first).get(), 4611686018427387903);
        Ok(())
    }
}
