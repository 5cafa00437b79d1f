//! What is done with the limits of a handle beside what requests ask of them.
ghost use Rattle.std.specs.Prelude.{◌≡◌, ◌<◌, ◌≤◌, IfSome, IfNone};
ghost use Rattle.sched_limit_handle.specs.Held.{count};
ghost use Rattle.sched_limit_handle.specs.Looks.{held_looked, held_may_begin, held_begun, HeldByHand, has_breaker};
ghost use Rattle.sched_limit_handle.specs.Looks.{HeldSeen};

use crate::held::Held;
use crate::stands::Stands;
use sched_limit::Seen;
use sched_limit_request::Hand;
use sched_time::Moment;

/// The words that a look saw, in the order in which the limits are asked.
#[repr(C)]
#[derive(Clone, Copy)]
pub struct Words {
    pub first: u64,
    pub second: u64,
    pub third: u64,
    pub fourth: u64,
}

impl Held {
    /// Looks at the words of the limits, and answers whether a request may begin at them.
    #[inline(always)]
    pub fn look(&mut self, words: &mut Words) -> bool
        ensures looked { self.new ≡ held_looked self.old words.new }
        ensures begins { result ≡ held_may_begin self.new words.new }
    {
        match self {
            Held::Unlimited => true,
            Held::One(limit) => {
                let (seen, begins) = limit.look();
                words.first = seen;
                begins
            }
            Held::Two(two) => {
                let (seen, begins) = two.look();
                (words.first, words.second) = seen;
                begins
            }
            Held::Three(three) => {
                let (seen, begins) = three.look();
                ((words.first, words.second), words.third) = seen;
                begins
            }
            Held::Four(four) => {
                let (seen, begins) = four.look();
                (((words.first, words.second), words.third), words.fourth) = seen;
                begins
            }
        }
    }

    /// A request begins that all limits admitted at these words, where one may begin.
    pub fn begin(&mut self, words: &Words) -> bool
        ensures begins { result ≡ held_may_begin self.old words.now }
        ensures begun { self.new ≡ held_begun self.old words.now }
    {
        match self {
            Held::Unlimited => true,
            Held::One(limit) => limit.begin(&words.first),
            Held::Two(two) => two.begin(&(words.first, words.second)),
            Held::Three(three) => three.begin(&((words.first, words.second), words.third)),
            Held::Four(four) => four.begin(&(
                ((words.first, words.second), words.third),
                words.fourth,
            )),
        }
    }

    /// Opens each breaker or closes it, and answers whether there is one.
    pub fn by_hand(&mut self, hand: &Hand) -> bool
        ensures does { HeldByHand hand.now self.old self.new }
        ensures some { result ≡ has_breaker self.old }
    {
        match self {
            Held::Unlimited => false,
            Held::One(limit) => limit.by_hand(hand),
            Held::Two(two) => two.by_hand(hand),
            Held::Three(three) => three.by_hand(hand),
            Held::Four(four) => four.by_hand(hand),
        }
    }

    /// What the state of the limit of this number is, from 0 on in the order in which they are asked, if there is such
    /// a limit.
    pub fn seen(&mut self, which: u64, now: Moment) -> Option<Seen>
        ensures some { IfSome result (λ s. (which < count self.old) × HeldSeen which now self.old s self.new) }
        ensures none { IfNone result ((count self.old ≤ which) × (self.new ≡ self.old)) }
    {
        if self.count() <= which {
            return None;
        }
        match self {
            Held::Unlimited => None,
            Held::One(limit) => Some(limit.seen(which, now)),
            Held::Two(two) => Some(two.seen(1 - which, now)),
            Held::Three(three) => Some(three.seen(2 - which, now)),
            Held::Four(four) => Some(four.seen(3 - which, now)),
        }
    }
}
