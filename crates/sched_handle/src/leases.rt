//! Calls on leased passes.
ghost use Rattle.std.specs.Prelude.{◌≡◌, IfOk, IfErr};
ghost use Rattle.std.specs.Borrow.{LendsIfOk, sem};
ghost use Rattle.sched_ticket_lease.specs.contracts.leased.Leased.{the_row as leased_row};
ghost use Rattle.sched_handle.specs.Held.{IsOther};
ghost use Rattle.sched_handle.specs.Leases.{MakesLeased, OnLeased, DrawsLeased, TakesGrant, LeavesAlone, TakesBack};
ghost use Rattle.sched_handle.specs.Leases.{CountsFor, TellsOf, LendsTo, SeesLeased, undrawn_of};
ghost use Rattle.sched_handle.specs.contracts.held.Held.{the_row as held_row};
ghost use Rattle.sched_handle.specs.declared.held.Held.TheVariants as what;
ghost use Rattle.sched_handle.specs.declared.held.Kind.TheVariants as kind;

use crate::held::Held;
use crate::replies::{Granted, Standing};
use crate::status::Status;
use sched_ticket_lease::{Grant, GrantFault, Leased, NoTicket, NotBack, Ticket};
use sched_time::{Millis, Moment};
use std::alloc::Global;

/// What comes of a draw that was not refused.
#[derive(Clone, Copy)]
pub enum Draw {
    /// This ticket is drawn.
    Got(Ticket),
    /// None is at hand, and the store may be asked for a lease.
    LeaseWanted,
    /// None is at hand, and the store is left alone until this moment.
    AskAt(u64),
}

impl Held {
    /// A leased pass that holds nothing, of a limit whose windows are so long: 0 where there are none.
    pub fn leased(alloc: Global, period: u64) -> Result<Box<Held>, Status>
        ensures { MakesLeased period result }
    {
        let Some(period) = Millis::new(period) else {
            return Err(Status::TooLarge);
        };
        Held::Leased(Leased::new(alloc, period)).boxed(alloc)
    }

    /// Draws a ticket of a leased pass.
    pub fn draw_leased(&mut self, now: Moment) -> Result<Draw, Status>
        ensures { OnLeased (DrawsLeased now) self.old result self.new }
    {
        let leased = self.leased_mut()?;
        drawn(leased, now)
    }

    /// Takes what the store granted.
    pub fn take_grant(&mut self, grant: Grant) -> Result<(), Status>
        ensures { OnLeased (TakesGrant grant) self.old result self.new }
    {
        let leased = self.leased_mut()?;
        taken(leased, grant)
    }

    /// Leaves the store alone until this moment.
    pub fn leave_alone(&mut self, until: Moment) -> Result<(), Status>
        ensures { OnLeased (LeavesAlone until) self.old result self.new }
    {
        let leased = self.leased_mut()?;
        leased.leave_alone(until);
        Ok(())
    }

    /// Takes a ticket back that was drawn of it, and not used.
    pub fn take_back(&mut self, ticket: Ticket) -> Result<(), Status>
        ensures { OnLeased (TakesBack ticket) self.old result self.new }
    {
        let leased = self.leased_mut()?;
        handed_back(leased, ticket)
    }

    /// Counts so many requests.
    pub fn count_requests(&mut self, now: Moment, requests: u64) -> Result<(), Status>
        ensures { OnLeased (CountsFor now requests) self.old result self.new }
    {
        let leased = self.leased_mut()?;
        counted(leased, now, requests)
    }

    /// The requests to tell the store, of a window that began then.
    pub fn tell_requests(&mut self, since: Moment) -> Result<u64, Status>
        ensures { OnLeased (TellsOf since) self.old result self.new }
    {
        let leased = self.leased_mut()?;
        Ok(leased.tell(since))
    }

    /// Gives up to so many tickets of one range to another leased pass.
    pub fn lend(&mut self, most: u64) -> Result<Granted, Status>
        ensures { OnLeased (LendsTo most) self.old result self.new }
    {
        let leased = self.leased_mut()?;
        lent(leased, most)
    }

    /// What a leased pass has.
    pub fn standing(&mut self) -> Result<Standing, Status>
        ensures { OnLeased SeesLeased self.old result self.new }
    {
        let leased = self.leased_mut()?;
        Ok(Standing {
            drawn: leased.drawn(),
            at_hand: leased.at_hand(),
            untold: leased.untold(),
        })
    }

    // The leased pass to be changed, where it is one.
    pub(crate) fn leased_mut(&mut self) -> Result<&mut Leased, Status>
        ensures* lends { sem 𝓛 (LendsIfOk held_row leased_row self.entry result what.Leased self.old) }
        ensures ok { IfOk result (λ leased. self.old ≡ what.Leased leased.now) }
        ensures err { IfErr result (IsOther kind.Leased self.old) }
    {
        if let Held::Leased(leased) = self {
            Ok(leased)
        } else {
            Err(Status::WrongKind)
        }
    }
}

// What comes of a draw.
fn drawn(leased: &mut Leased, now: Moment) -> Result<Draw, Status>
    ensures { DrawsLeased now leased.old result leased.new }
{
    match leased.draw(now) {
        Ok(ticket) => Ok(Draw::Got(ticket)),
        Err(why) => undrawn(why),
    }
}

// What comes of a draw that gives no ticket, for this reason.
fn undrawn(why: NoTicket) -> Result<Draw, Status>
    ensures { result ≡ undrawn_of why }
{
    match why {
        NoTicket::LeaseWanted => Ok(Draw::LeaseWanted),
        NoTicket::AskAt(moment) => Ok(Draw::AskAt(moment.get())),
        NoTicket::NoMemory => Err(Status::NoMemory),
    }
}

// What comes of a grant.
fn taken(leased: &mut Leased, grant: Grant) -> Result<(), Status>
    ensures { TakesGrant grant leased.old result leased.new }
{
    match leased.granted(grant) {
        Ok(()) => Ok(()),
        Err(GrantFault::TooLarge) => Err(Status::TooLarge),
        Err(GrantFault::Backwards) => Err(Status::Backwards),
        Err(GrantFault::HeldAlready) => Err(Status::HeldAlready),
        Err(GrantFault::NoMemory) => Err(Status::NoMemory),
    }
}

// What comes of a ticket that is handed back.
fn handed_back(leased: &mut Leased, ticket: Ticket) -> Result<(), Status>
    ensures { TakesBack ticket leased.old result leased.new }
{
    match leased.hand_back(ticket) {
        Ok(()) => Ok(()),
        Err(NotBack::NotOut) => Err(Status::NotOut),
        Err(NotBack::NoMemory) => Err(Status::NoMemory),
    }
}

// What comes of requests that are counted.
fn counted(leased: &mut Leased, now: Moment, requests: u64) -> Result<(), Status>
    ensures { CountsFor now requests leased.old result leased.new }
{
    match leased.count_requests(now, requests) {
        Ok(()) => Ok(()),
        Err(_) => Err(Status::NoMemory),
    }
}

// What is lent, or `NoTicket`.
fn lent(leased: &mut Leased, most: u64) -> Result<Granted, Status>
    ensures { LendsTo most leased.old result leased.new }
{
    match leased.lend(most) {
        Some(grant) => {
            let Grant {
                window,
                first,
                tickets,
                until,
            } = grant;
            Ok(Granted {
                window,
                first,
                tickets,
                until: until.get(),
            })
        }
        None => Err(Status::NoTicket),
    }
}
