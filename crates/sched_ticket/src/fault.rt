//! Why a call on a budget was refused.

ghost use Rattle.std.specs.Prelude.{Some, codes};
ghost use Rattle.sched_ticket.specs.Fault.{fault_text};

use std::error::Error;
use std::fmt;

/// Why a budget was not made, a pass not split or a limit not raised.
#[derive(Clone, Copy, Debug, PartialEq, Eq, Drop)]
pub enum TicketFault {
    /// More than 4294967296 tickets.
    LimitTooLarge,
    /// A growth was refused.
    NoMemory,
    /// 65,536 passes were counted, the first included, or by parts the pass has one part, which it keeps.
    TooManyPasses,
    /// The budget keeps its limit.
    Fixed,
}

impl fmt::Display for TicketFault {
    ghost output = { λ fault. Some (fault_text fault) };

    fn fmt<W: fmt::Write>(&self, f: &mut fmt::Formatter<W>) -> fmt::Result {
        f.write_str(match self {
            TicketFault::LimitTooLarge => "the limit is more than 4294967296 tickets",
            TicketFault::NoMemory => "no memory",
            TicketFault::TooManyPasses => "the budget has no further pass",
            TicketFault::Fixed => "the budget keeps its limit",
        })
    }
}

impl Error for TicketFault {}

/// A budget was not closed: another of its passes is alive, or was dropped.
#[derive(Clone, Copy, Debug, PartialEq, Eq, Drop)]
pub struct PassesOut;

impl fmt::Display for PassesOut {
    ghost output = { λ _. Some (codes "another pass of the budget is alive or was dropped") };

    fn fmt<W: fmt::Write>(&self, f: &mut fmt::Formatter<W>) -> fmt::Result {
        f.write_str("another pass of the budget is alive or was dropped")
    }
}

impl Error for PassesOut {}
