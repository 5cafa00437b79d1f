//! The pace: what it is made with.
ghost use Rattle.std.specs.Prelude.{◌≡◌, ◌<◌, ◌≤◌, IfSome, IfNone};

use sched_time::Millis;

/// The greatest time for each call, in microseconds.
pub const MAX_EACH: u64 = 1099511627776;

/// The most calls at once.
pub const MAX_BURST: u64 = 1048576;

/// The longest wait, in milliseconds.
pub const MAX_LONGEST: u64 = 137438953472;

/// A pace: one call in so many microseconds, and so many at once after a pause.
#[derive(Clone, Copy, Debug, PartialEq, Eq, Drop)]
pub struct Pace {
    pub(crate) each: u64,
    pub(crate) burst: u64,
    pub(crate) longest: u64,
    ghost is_each: { (0 < each) × (each ≤ 1099511627776) },
    ghost is_burst: { (0 < burst) × (burst ≤ 1048576) },
    ghost is_longest: { longest ≤ 137438953472 },
}

impl Pace {
    /// A pace of one call each so many microseconds, with so many at once, where no call waits longer than this. None
    /// past the bounds, or with no time for each call, or none at once.
    pub fn new(each: u64, burst: u64, longest: Millis) -> Option<Pace>
        ensures some { IfSome result (λ p. (p.each ≡ each) × (p.burst ≡ burst) × (p.longest ≡ longest)) }
        ensures none { IfNone result (((0 < each) × (each ≤ 1099511627776) × (0 < burst) × (burst ≤ 1048576)
            × (longest ≤ 137438953472)) → ⊥) }
    {
        let longest = longest.get();
        if each == 0
            || each > MAX_EACH
            || burst == 0
            || burst > MAX_BURST
            || longest > MAX_LONGEST
        {
            return None;
        }
        Some(Pace {
            each,
            burst,
            longest,
        })
    }
}
