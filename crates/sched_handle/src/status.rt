//! Why a call was refused.
ghost use Rattle.std.specs.Prelude.{◌≡◌};
ghost use Rattle.sched_handle.specs.Status.{code_of};

use sched_plan_json::TextFault;
use sched_ticket::TicketFault;
use sched_ticket_quota::{NotBack, QuotaFault, Refusal, WeightTooLarge};

/// Why a call was refused. The line above each is the text that C has of it, which bin/bindings takes from here.
#[derive(Clone, Copy, PartialEq, Eq)]
pub enum Status {
    /// the handle is empty
    Empty,
    /// the handle holds something of another kind
    WrongKind,
    /// the handle holds something already
    Full,
    /// no memory
    NoMemory,
    /// a number is out of range
    TooLarge,
    /// there is not enough room
    NoRoom,
    /// a struct has another size than its call expects
    WrongSize,
    /// the text is not JSON
    NotJson,
    /// the value is not a policy
    NotAPolicy,
    /// a parameter is out of range
    OutOfRange,
    /// the policy is too deep
    TooDeep,
    /// the policy has too many nodes
    TooMany,
    /// the window is before the one that is counted
    Backwards,
    /// the limit is more than 4294967296 tickets
    LimitTooLarge,
    /// there is no limit that can be raised
    Fixed,
    /// there is no ticket
    NoTicket,
    /// no more passes can be split off
    TooManyPasses,
    /// another pass is alive or was dropped
    PassesOut,
    /// the reserve is more than 4294967296 tickets a window
    ReserveTooLarge,
    /// the share is more than 1000 tickets a request
    ShareTooLarge,
    /// the window is shorter than 100 ms
    PeriodTooShort,
    /// 64 races with others were lost
    RacesLost,
    /// there are no terms that can be set
    NoTerms,
    /// there is no such report
    NoSuchReport,
    /// no run is under way
    NoRun,
    /// the pass draws on something else
    DrawsElsewhere,
    /// there is no ticket to hand back
    NothingToHandBack,
    /// the requests are more than the pass has parts
    TooManyRequests,
    /// a lease is wanted
    LeaseWanted,
    /// the ticket is not out
    NotOut,
    /// the range was granted already
    HeldAlready,
    /// the call would wait too long
    TooSoon,
}

impl Status {
    /// The number by which C knows it.
    pub fn code(self) -> u32
        ensures { result ≡ code_of self }
    {
        match self {
            Status::Empty => 1,
            Status::WrongKind => 2,
            Status::Full => 3,
            Status::NoMemory => 4,
            Status::TooLarge => 5,
            Status::NoRoom => 6,
            Status::WrongSize => 7,
            Status::NotJson => 10,
            Status::NotAPolicy => 11,
            Status::OutOfRange => 12,
            Status::TooDeep => 13,
            Status::TooMany => 14,
            Status::Backwards => 20,
            Status::LimitTooLarge => 30,
            Status::Fixed => 31,
            Status::NoTicket => 32,
            Status::TooManyPasses => 33,
            Status::PassesOut => 34,
            Status::ReserveTooLarge => 35,
            Status::ShareTooLarge => 36,
            Status::PeriodTooShort => 37,
            Status::RacesLost => 38,
            Status::NoTerms => 39,
            Status::NoSuchReport => 40,
            Status::NoRun => 41,
            Status::DrawsElsewhere => 42,
            Status::NothingToHandBack => 43,
            Status::TooManyRequests => 44,
            Status::LeaseWanted => 50,
            Status::NotOut => 51,
            Status::HeldAlready => 52,
            Status::TooSoon => 70,
        }
    }
}

impl From<TicketFault> for Status {
    ghost use Rattle.std.specs.Prelude.{◌≡◌};
    ghost use Rattle.sched_handle.specs.Status.{of_ticket};

    ghost from_gives = { λ fault status. status ≡ of_ticket fault };

    fn from(fault: TicketFault) -> Self {
        match fault {
            TicketFault::LimitTooLarge => Status::LimitTooLarge,
            TicketFault::NoMemory => Status::NoMemory,
            TicketFault::TooManyPasses => Status::TooManyPasses,
            TicketFault::Fixed => Status::Fixed,
        }
    }
}

impl From<QuotaFault> for Status {
    ghost use Rattle.std.specs.Prelude.{◌≡◌};
    ghost use Rattle.sched_handle.specs.Status.{of_quota};

    ghost from_gives = { λ fault status. status ≡ of_quota fault };

    fn from(fault: QuotaFault) -> Self {
        match fault {
            QuotaFault::ReserveTooLarge => Status::ReserveTooLarge,
            QuotaFault::ShareTooLarge => Status::ShareTooLarge,
            QuotaFault::PeriodTooShort => Status::PeriodTooShort,
            QuotaFault::NoMemory => Status::NoMemory,
            QuotaFault::TooManyPasses => Status::TooManyPasses,
        }
    }
}

impl From<Refusal> for Status {
    ghost use Rattle.std.specs.Prelude.{◌≡◌};
    ghost use Rattle.sched_handle.specs.Status.{of_refusal};

    ghost from_gives = { λ refusal status. status ≡ of_refusal refusal };

    fn from(refusal: Refusal) -> Self {
        match refusal {
            Refusal::WindowOut(_) => Status::NoTicket,
            Refusal::RacesLost => Status::RacesLost,
        }
    }
}

impl From<NotBack> for Status {
    ghost use Rattle.std.specs.Prelude.{◌≡◌};
    ghost use Rattle.sched_handle.specs.Status.{of_not_back};

    ghost from_gives = { λ fault status. status ≡ of_not_back fault };

    fn from(fault: NotBack) -> Self {
        match fault {
            NotBack::NoTicket => Status::NothingToHandBack,
            NotBack::RacesLost => Status::RacesLost,
        }
    }
}

impl From<WeightTooLarge> for Status {
    ghost use Rattle.std.specs.Prelude.{◌≡◌};
    ghost use Rattle.sched_handle.specs.declared.status.Status.TheVariants.{TooManyRequests};

    ghost from_gives = { λ _ status. status ≡ TooManyRequests };

    fn from(_: WeightTooLarge) -> Self {
        Status::TooManyRequests
    }
}

impl From<TextFault> for Status {
    ghost use Rattle.std.specs.Prelude.{◌≡◌};
    ghost use Rattle.sched_handle.specs.Status.{of_text};

    ghost from_gives = { λ fault status. status ≡ of_text fault };

    fn from(fault: TextFault) -> Self {
        match fault {
            TextFault::NotJson { line: _, column: _ } => Status::NotJson,
            TextFault::NotAPlan => Status::NotAPolicy,
            TextFault::OutOfRange => Status::OutOfRange,
            TextFault::TooDeep => Status::TooDeep,
            TextFault::TooMany => Status::TooMany,
            TextFault::NoMemory => Status::NoMemory,
        }
    }
}
