//! What a request holds of a limit, and what it tells it.
ghost use Rattle.std.specs.Prelude.{◌≡◌};
ghost use Rattle.sched_limit.specs.Step.{nothing, admitted, drew, asks};

use sched_time::Moment;

/// What a request holds of a limit.
#[derive(Clone, Copy, Debug, PartialEq, Eq, Drop)]
pub struct Request {
    /// Whether it is admitted, and not over.
    pub counted: bool,
    /// How many slots its retries hold.
    pub slots: u64,
    /// What its last granted draw cost.
    pub drawn: Option<u64>,
    /// The generation in which its run was admitted.
    pub generation: u64,
}

/// What a request asks of its limit, or tells it.
#[derive(Clone, Copy, Debug, PartialEq, Eq, Drop)]
pub enum Told {
    /// It asks to be admitted before its first run, at this moment.
    Admit(Moment),
    /// It asks for a retry, at this moment and at this cost, after a run failed and before it waits.
    Draw(Moment, u64),
    /// A run failed at this moment, whether it is retried or not.
    Failed(Moment),
    /// A run succeeded at this moment.
    Succeeded(Moment),
    /// The retry that was drawn last is cancelled while it waits.
    Cancelled,
    /// The request is over, however.
    Ended,
}

impl Request {
    /// What holds nothing.
    #[inline(always)]
    pub fn nothing() -> Request
        ensures { result ≡ nothing }
    {
        Request {
            counted: false,
            slots: 0,
            drawn: None,
            generation: 0,
        }
    }

    /// What was admitted in this generation holds.
    #[inline(always)]
    pub fn admitted(generation: u64) -> Request
        ensures { result ≡ admitted generation }
    {
        Request {
            counted: true,
            slots: 0,
            drawn: None,
            generation,
        }
    }

    #[inline(always)]
    pub(crate) fn drew(cost: u64, generation: u64) -> Request
        ensures { result ≡ drew cost generation }
    {
        Request {
            counted: true,
            slots: 1,
            drawn: Some(cost),
            generation,
        }
    }
}

impl Told {
    /// Whether it asks, and may be refused.
    #[inline(always)]
    pub fn asks(&self) -> bool
        ensures { result ≡ asks self.now }
    {
        matches!(self, Told::Admit(_) | Told::Draw(_, _))
    }
}
