//! The adaptive limit: what it is made with.
ghost use Rattle.std.specs.Prelude.{◌≡◌, ◌≤◌, IfSome, IfNone};
ghost use Rattle.sched_limit.specs.Levels.{AreLevels};

/// The most requests at once that a limit can be made with.
pub const MAX_INSIDE: u32 = 65535;

/// A limit of the requests in flight that finds by itself how many its peer bears: a success adds to its level, as long
/// as at least half of the level is in use, and a failure multiplies the level by a share.
#[derive(Clone, Copy, Debug, PartialEq, Eq, Drop)]
pub struct Adaptive {
    pub(crate) least: u32,
    pub(crate) most: u32,
    pub(crate) first: u32,
    pub(crate) backoff: u32,
    ghost levels: { AreLevels least most first },
    ghost share: { (1 ≤ backoff) × (backoff ≤ 999) },
}

impl Adaptive {
    /// A limit from `least` to `most` requests at once, at first `first`, of which a failure leaves `backoff`
    /// thousandths. None where they aren't in this order from 1 to 65,535, or the thousandths aren't from 1 to 999.
    pub fn new(least: u32, most: u32, first: u32, backoff: u32) -> Option<Adaptive>
        ensures some { IfSome result (λ k.
            (k.least ≡ least) × (k.most ≡ most) × (k.first ≡ first) × (k.backoff ≡ backoff)) }
        ensures none { IfNone result ((AreLevels least most first × ((1 ≤ backoff) × (backoff ≤ 999))) → ⊥) }
    {
        if least == 0 || first < least || most < first || most > MAX_INSIDE {
            return None;
        }
        if backoff == 0 || backoff > 999 {
            return None;
        }
        Some(Adaptive {
            least,
            most,
            first,
            backoff,
        })
    }
}
