//! Why a call on a limit was refused, by the numbers that C knows.
ghost use Rattle.std.specs.Prelude.{◌≡◌};
ghost use Rattle.sched_limit_handle.specs.Status.{code_of, refused_as, number_of};

use sched_limit::Refusal;

/// Why a call was refused. The line above each is the text that C has of it, which bin/bindings takes from here.
#[derive(Clone, Copy, PartialEq, Eq)]
pub enum Status {
    /// the handle is empty
    Empty,
    /// the handle holds something of another kind
    WrongKind,
    /// the handle holds something already
    Full,
    /// no memory
    NoMemory,
    /// a number is out of range
    TooLarge,
    /// a struct has another size than its call expects
    WrongSize,
    /// a parameter is out of range
    OutOfRange,
    /// no more passes can be split off
    TooManyPasses,
    /// 64 races with others were lost
    RacesLost,
    /// the bucket's level is too low
    LevelLow,
    /// too many requests are in flight
    RequestsFull,
    /// too many retries are in flight
    RetriesFull,
    /// the breaker is open
    BreakerOpen,
    /// the breaker's probes are out
    Probing,
    /// the throttle refuses
    Throttled,
    /// the call is out of turn
    OutOfTurn,
}

impl Status {
    /// The number by which C knows it.
    pub fn code(self) -> u32
        ensures { result ≡ code_of self }
    {
        match self {
            Status::Empty => 1,
            Status::WrongKind => 2,
            Status::Full => 3,
            Status::NoMemory => 4,
            Status::TooLarge => 5,
            Status::WrongSize => 7,
            Status::OutOfRange => 12,
            Status::TooManyPasses => 33,
            Status::RacesLost => 38,
            Status::LevelLow => 60,
            Status::RequestsFull => 61,
            Status::RetriesFull => 62,
            Status::BreakerOpen => 63,
            Status::Probing => 64,
            Status::Throttled => 65,
            Status::OutOfTurn => 66,
        }
    }
}

/// The status of a refusal.
pub fn refused(why: &Refusal) -> Status
    ensures { result ≡ refused_as why.now }
{
    match why {
        Refusal::LevelLow(_) => Status::LevelLow,
        Refusal::TooMany => Status::RequestsFull,
        Refusal::Full => Status::RetriesFull,
        Refusal::Open(_) => Status::BreakerOpen,
        Refusal::Probing => Status::Probing,
        Refusal::Throttled => Status::Throttled,
        Refusal::RacesLost => Status::RacesLost,
        Refusal::OutOfTurn => Status::OutOfTurn,
    }
}

/// The number of a refusal: the level of a bucket, or the moment until which a breaker is open; otherwise 0.
pub fn number_of(why: &Refusal) -> u64
    ensures { result ≡ number_of why.now }
{
    match why {
        Refusal::LevelLow(level) => *level,
        Refusal::Open(until) => until.get(),
        _ => 0,
    }
}
