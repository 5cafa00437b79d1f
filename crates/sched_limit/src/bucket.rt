//! The bucket: each retry takes tokens of it, failures empty it and successes fill it.
ghost use Rattle.std.specs.Prelude.{◌≡◌, ◌+◌, ◌<◌, true, nat_lt, IfSome, IfNone};
ghost use Rattle.sched_limit.specs.Bucket.{AreTerms, drawn, grpc_bucket, aws_bucket};

use crate::refusal::Refusal;
use crate::refuses::Refuses;
use sched_limit_word::{Call, Machine};

/// The greatest capacity, in thousandths of a token.
pub const MAX_CAPACITY: u64 = 1099511627776;

/// A bucket of tokens, told in thousandths. It is full at first.
#[derive(Clone, Copy, Debug, PartialEq, Eq, Drop)]
pub struct Bucket {
    /// The level of a full bucket.
    pub capacity: u64,
    /// The level that a draw leaves at least.
    pub floor: u64,
    /// What each failed run takes, as far as there is so much.
    pub debit: u64,
    /// What each success gives, as far as there is room.
    pub credit: u64,
    /// Whether a success of a request that drew gives back the cost of its last draw in the place of the credit.
    pub refund: bool,
}

impl Bucket {
    /// Whether such a bucket can be: the floor, the debit and the credit are at most the capacity, and that at most
    /// 2^40.
    pub fn is_sound(&self) -> bool
        ensures yes { result ≡ true → AreTerms self.now }
        ensures no { AreTerms self.now → result ≡ true }
    {
        self.capacity <= MAX_CAPACITY
            && self.floor <= self.capacity
            && self.debit <= self.capacity
            && self.credit <= self.capacity
    }

    /// gRPC's `retryThrottling`: of so many tokens, where each failure takes one and each success gives this many
    /// thousandths of one, a retry is granted while more than half are left. None for no such bucket.
    pub fn grpc(max_tokens: u64, token_ratio: u64) -> Option<Bucket>
        ensures some { IfSome result (λ b. b ≡ grpc_bucket max_tokens token_ratio) }
        ensures sound { IfSome result AreTerms }
        ensures none { IfNone result (AreTerms (grpc_bucket max_tokens token_ratio) → 1099511627 < max_tokens) }
    {
        if max_tokens > MAX_CAPACITY / 1000 {
            return None;
        }
        let bucket = Bucket {
            capacity: 1000 * max_tokens,
            floor: 500 * max_tokens + 1,
            debit: 1000,
            credit: token_ratio,
            refund: false,
        };
        if bucket.is_sound() {
            Some(bucket)
        } else {
            None
        }
    }

    /// The standard mode of the AWS SDKs: 500 tokens, of which a retry takes 5, and 10 after a timeout. A success gives
    /// back what its request's last retry took, or else one.
    pub fn aws() -> Bucket
        ensures { result ≡ aws_bucket }
    {
        Bucket {
            capacity: 500000,
            floor: 0,
            debit: 0,
            credit: 1000,
            refund: true,
        }
    }

    /// The level that a draw of this cost leaves.
    fn drawn(&self, cost: u64, level: u64) -> u64
        ensures { result ≡ drawn self.now cost level }
    {
        if self.is_low(cost, level) {
            level
        } else {
            level - cost
        }
    }

    /// Whether a draw of this cost would leave less than the floor.
    fn is_low(&self, cost: u64, level: u64) -> bool
        ensures { result ≡ nat_lt level (self.now.floor + cost) }
    {
        level < self.floor || level - self.floor < cost
    }
}

impl Machine for Bucket {
    ghost use Rattle.sched_limit.specs.Bucket.{bucket_next};
    ghost use Rattle.sched_limit.specs.BucketTokens.{bucket_tokens};

    ghost first = { λ b. b.capacity };

    ghost next = { bucket_next };

    ghost tokens = { bucket_tokens };

    fn first(&self) -> u64 {
        self.capacity
    }

    #[inline(always)]
    fn next(&self, call: Call, level: u64) -> u64 {
        match call {
            Call::Draw(_, cost, _) => self.drawn(cost, level),
            Call::Failed(_, _) => level.saturating_sub(self.debit),
            Call::Succeeded(_, _, worth) => level.saturating_add(worth).min(self.capacity),
            Call::Returned(cost, _) => level.saturating_add(cost).min(self.capacity),
            Call::Admit(_, _, _) => level,
            Call::Ended(_) => level,
            Call::Closed(_) => level,
            Call::OpenedByHand(_, _) => level,
            Call::ClosedByHand(_) => level,
        }
    }
}

impl Refuses for Bucket {
    ghost use Rattle.sched_limit.specs.BucketTokens.{bucket_holds, bucket_honest};
    ghost use Rattle.sched_limit.specs.Bucket.{bucket_refusal, bucket_worth};

    ghost refusal = { bucket_refusal };

    ghost generation = { λ b level. 0 };

    ghost worth = { bucket_worth };

    ghost holds = { λ b. bucket_holds };

    ghost honest = { bucket_honest };

    #[inline(always)]
    fn refusal(&self, call: Call, level: u64) -> Option<Refusal> {
        match call {
            Call::Draw(_, cost, _) => {
                if self.is_low(cost, level) {
                    Some(Refusal::LevelLow(level))
                } else {
                    None
                }
            }
            Call::Failed(_, _) => None,
            Call::Succeeded(_, _, _) => None,
            Call::Returned(_, _) => None,
            Call::Admit(_, _, _) => None,
            Call::Ended(_) => None,
            Call::Closed(_) => None,
            Call::OpenedByHand(_, _) => None,
            Call::ClosedByHand(_) => None,
        }
    }

    fn generation(&self, _word: u64) -> u64 {
        0
    }

    fn worth(&self, drawn: Option<u64>) -> u64 {
        match drawn {
            Some(cost) => { if self.refund { cost } else { self.credit } }
            None => self.credit,
        }
    }
}
