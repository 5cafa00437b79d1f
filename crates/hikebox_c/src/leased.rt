//! Leased passes: what a program has of a limit that a store keeps.
ghost use Rattle.std.specs.Prelude.{◌≡◌, ◌<◌, ◌≤◌, Err};
ghost use Rattle.sched_time.specs.declared.numbers.TheConstants.{FAR};
ghost use Rattle.sched_handle.specs.Fills.{Frees};
ghost use Rattle.sched_handle.specs.Leases.{MakesLeased, DrawsLeased, TakesGrant, LeavesAlone, TakesBack};
ghost use Rattle.sched_handle.specs.Leases.{CountsFor, TellsOf, LendsTo, SeesLeased, grant_of};
ghost use Rattle.sched_handle.specs.Status.{told, code_of};
ghost use Rattle.sched_handle.specs.declared.held.Kind.TheVariants as kind;
ghost use Rattle.sched_handle.specs.declared.status.Status.TheVariants as status;
ghost use Rattle.hikebox_c.specs.Calls.{Tells, Makes};
ghost use Rattle.hikebox_c.specs.Leased.{OnHolder, TellsDraw, TellsStanding};

use sched_handle::{Draw, Granted, Handle, Held, Kind, Status, tell};
use sched_ticket_lease::{Grant, Ticket};
use sched_time::Moment;
use std::alloc::Global;

#[unsafe(no_mangle)]
pub extern "C" fn hikebox_leased_new(alloc: Global, period: u64, leased: &mut Handle) -> u32
    ensures { Makes (MakesLeased period) leased.old.held result leased.new.held }
{
    if leased.is_full() {
        return Status::Full.code();
    }
    let made = Held::leased(alloc, period);
    leased.fill(made)
}

#[unsafe(no_mangle)]
pub extern "C" fn hikebox_leased_draw(
    leased: &mut Handle,
    now: u64,
    ticket: &mut Ticket,
    again: &mut u64,
) -> u32
    ensures draw { now ≤ FAR → OnHolder (DrawsLeased now) leased.old.held leased.new.held
        (TellsDraw result ticket.old ticket.new again.old again.new) }
    ensures too_large { FAR < now → (leased.new.held ≡ leased.old.held)
        × TellsDraw result ticket.old ticket.new again.old again.new (Err status.TooLarge) }
{
    let Some(now) = Moment::new(now) else {
        return Status::TooLarge.code();
    };
    let Some(held) = leased.as_mut() else {
        return Status::Empty.code();
    };
    let answer = held.draw_leased(now);
    tell_draw(answer, ticket, again)
}

#[unsafe(no_mangle)]
pub extern "C" fn hikebox_leased_granted(leased: &mut Handle, grant: &Granted) -> u32
    ensures takes { grant.now.until ≤ FAR →
        OnHolder (TakesGrant (grant_of grant.now)) leased.old.held leased.new.held (λ r. result ≡ told r) }
    ensures too_large { FAR < grant.now.until →
        (leased.new.held ≡ leased.old.held) × (result ≡ code_of status.TooLarge) }
{
    let Granted {
        window,
        first,
        tickets,
        until,
    } = *grant;
    let Some(until) = Moment::new(until) else {
        return Status::TooLarge.code();
    };
    let Some(held) = leased.as_mut() else {
        return Status::Empty.code();
    };
    let answer = held.take_grant(Grant {
        window,
        first,
        tickets,
        until,
    });
    match answer {
        Ok(()) => 0,
        Err(status) => status.code(),
    }
}

#[unsafe(no_mangle)]
pub extern "C" fn hikebox_leased_leave_alone(leased: &mut Handle, until: u64) -> u32
    ensures leaves { until ≤ FAR →
        OnHolder (LeavesAlone until) leased.old.held leased.new.held (λ r. result ≡ told r) }
    ensures too_large { FAR < until → (leased.new.held ≡ leased.old.held) × (result ≡ code_of status.TooLarge) }
{
    let Some(until) = Moment::new(until) else {
        return Status::TooLarge.code();
    };
    let Some(held) = leased.as_mut() else {
        return Status::Empty.code();
    };
    let answer = held.leave_alone(until);
    match answer {
        Ok(()) => 0,
        Err(status) => status.code(),
    }
}

#[unsafe(no_mangle)]
pub extern "C" fn hikebox_leased_hand_back(leased: &mut Handle, ticket: &Ticket) -> u32
    ensures { OnHolder (TakesBack ticket.now) leased.old.held leased.new.held (λ r. result ≡ told r) }
{
    let ticket = *ticket;
    let Some(held) = leased.as_mut() else {
        return Status::Empty.code();
    };
    let answer = held.take_back(ticket);
    match answer {
        Ok(()) => 0,
        Err(status) => status.code(),
    }
}

#[unsafe(no_mangle)]
pub extern "C" fn hikebox_leased_deposit(leased: &mut Handle, now: u64, requests: u64) -> u32
    ensures counts { now ≤ FAR →
        OnHolder (CountsFor now requests) leased.old.held leased.new.held (λ r. result ≡ told r) }
    ensures too_large { FAR < now → (leased.new.held ≡ leased.old.held) × (result ≡ code_of status.TooLarge) }
{
    let Some(now) = Moment::new(now) else {
        return Status::TooLarge.code();
    };
    let Some(held) = leased.as_mut() else {
        return Status::Empty.code();
    };
    let answer = held.count_requests(now, requests);
    match answer {
        Ok(()) => 0,
        Err(status) => status.code(),
    }
}

#[unsafe(no_mangle)]
pub extern "C" fn hikebox_leased_tell(leased: &mut Handle, since: u64, requests: &mut u64) -> u32
    ensures tells { since ≤ FAR → OnHolder (TellsOf since) leased.old.held leased.new.held
        (Tells result requests.old requests.new) }
    ensures too_large { FAR < since → (leased.new.held ≡ leased.old.held)
        × Tells result requests.old requests.new (Err status.TooLarge) }
{
    let Some(since) = Moment::new(since) else {
        return Status::TooLarge.code();
    };
    let Some(held) = leased.as_mut() else {
        return Status::Empty.code();
    };
    let answer = held.tell_requests(since);
    tell(answer, requests)
}

#[unsafe(no_mangle)]
pub extern "C" fn hikebox_leased_seen(
    leased: &mut Handle,
    drawn: &mut u64,
    at_hand: &mut u64,
    untold: &mut u64,
) -> u32
    ensures { OnHolder SeesLeased leased.old.held leased.new.held
        (TellsStanding result drawn.old drawn.new at_hand.old at_hand.new untold.old untold.new) }
{
    let Some(held) = leased.as_mut() else {
        return Status::Empty.code();
    };
    let answer = held.standing();
    match answer {
        Ok(standing) => {
            *drawn = standing.drawn;
            *at_hand = standing.at_hand;
            *untold = standing.untold;
            0
        }
        Err(status) => status.code(),
    }
}

#[unsafe(no_mangle)]
pub extern "C" fn hikebox_leased_lend(leased: &mut Handle, tickets: u64, grant: &mut Granted) -> u32
    ensures { OnHolder (LendsTo tickets) leased.old.held leased.new.held (Tells result grant.old grant.new) }
{
    let Some(held) = leased.as_mut() else {
        return Status::Empty.code();
    };
    let answer = held.lend(tickets);
    tell(answer, grant)
}

#[unsafe(no_mangle)]
pub extern "C" fn hikebox_leased_free(alloc: Global, leased: &mut Handle) -> u32
    ensures { Frees kind.Leased leased.old.held result leased.new.held }
{
    leased.free(alloc, Kind::Leased)
}

// Writes what comes of a draw.
fn tell_draw(answer: Result<Draw, Status>, ticket: &mut Ticket, again: &mut u64) -> u32
    ensures { TellsDraw result ticket.old ticket.new again.old again.new answer }
{
    match answer {
        Ok(Draw::Got(drawn)) => {
            *ticket = drawn;
            0
        }
        Ok(Draw::LeaseWanted) => Status::LeaseWanted.code(),
        Ok(Draw::AskAt(moment)) => {
            *again = moment;
            Status::NoTicket.code()
        }
        Err(status) => status.code(),
    }
}
