//! The throttle: what it is made with.
ghost use Rattle.std.specs.Prelude.{◌≡◌, ◌<◌, ◌≤◌, IfSome, OnSome, IfNone};

use sched_time::{Millis, Moment};

/// A throttle, as the SRE book has it for clients. It counts requests and accepts over the present window and the one
/// before. A window's word is closed before the next one counts, so what the one before counted is final.
#[derive(Clone, Copy, Debug, PartialEq, Eq, Drop)]
pub struct Throttle {
    pub(crate) ratio: u32,
    pub(crate) period: u64,
    pub(crate) start: u64,
    ghost lasts: { 0 < period },
}

impl Throttle {
    /// A throttle that admits `ratio` thousandths of a request for each that is accepted, over two windows of a period,
    /// the first from `now` on. None for a ratio below 1,000 or no period.
    pub fn new(now: Moment, ratio: u32, period: Millis) -> Option<Throttle>
        ensures some { IfSome result (λ t. (t.ratio ≡ ratio) × (t.period ≡ period) × (t.start ≡ now)) }
        ensures ratio { OnSome result (1000 ≤ ratio) }
        ensures none { IfNone result (((1000 ≤ ratio) × (0 < period)) → ⊥) }
    {
        if ratio < 1000 || period.get() == 0 {
            return None;
        }
        Some(Throttle {
            ratio,
            period: period.get(),
            start: now.get(),
        })
    }

    /// Google's: twice as many requests as are accepted, over two minutes.
    pub fn google(now: Moment) -> Throttle
        ensures { (result.ratio ≡ 2000) × (result.period ≡ 60000) × (result.start ≡ now) }
    {
        Throttle {
            ratio: 2000,
            period: 60000,
            start: now.get(),
        }
    }
}
