//! Tickets of leases, and what a store grants.

use sched_time::Moment;

/// A ticket, by its window and its number there.
#[repr(C)]
#[derive(Clone, Copy, Debug, PartialEq, Eq, Drop)]
pub struct Ticket {
    pub window: u64,
    pub number: u64,
}

/// What a store granted: `tickets` numbers of a window from `first` on, or none, and the moment at which the window
/// ends, by the holder's clock: `FAR` where there are no windows.
#[derive(Clone, Copy, Debug, PartialEq, Eq, Drop)]
pub struct Grant {
    pub window: u64,
    pub first: u64,
    pub tickets: u64,
    pub until: Moment,
}

/// Why no ticket is drawn.
#[derive(Clone, Copy, Debug, PartialEq, Eq, Drop)]
pub enum NoTicket {
    /// None is at hand, and the store may be asked for a lease.
    LeaseWanted,
    /// None is at hand, and the store is left alone until this moment.
    AskAt(Moment),
    /// There is no memory.
    NoMemory,
}

/// Why what a store granted is not taken.
#[derive(Clone, Copy, Debug, PartialEq, Eq, Drop)]
pub enum GrantFault {
    /// Its numbers are past 2^64 - 1.
    TooLarge,
    /// It is of a window before the holder's.
    Backwards,
    /// It was granted already: the holder has, or had, some of its numbers.
    HeldAlready,
    /// There is no memory.
    NoMemory,
}

/// Why a ticket is not handed back.
#[derive(Clone, Copy, Debug, PartialEq, Eq, Drop)]
pub enum NotBack {
    /// It is not out: it was not drawn, was handed back already, or is of another window.
    NotOut,
    /// There is no memory: it is still out.
    NoMemory,
}
