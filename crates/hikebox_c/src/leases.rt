//! Leases, and what a window of a quota allows.
ghost use Rattle.std.specs.Prelude.{◌≡◌};
ghost use Rattle.sched_ticket_lease.specs.Leases.{allows};
ghost use Rattle.hikebox_c.specs.Leases.{quota_of, Leases, LeasesNone};
ghost use Rattle.sched_ticket_lease.specs.declared.lease.Grants.TheVariants.{Budget};

use sched_handle::Status;
use sched_ticket_lease::{Ask, Grants, Stored};
use sched_ticket_quota::Terms;
use sched_time::Millis;

/// What a process asks of a store.
#[repr(C)]
#[derive(Clone, Copy)]
pub struct Asking {
    /// The present window, by the store's clock.
    pub window: u64,
    /// The requests of that window that it has to tell.
    pub told: u64,
    /// How many tickets it wants.
    pub wanted: u64,
}

/// A range of tickets: so many from the number `first` on.
#[repr(C)]
#[derive(Clone, Copy)]
pub struct Range {
    pub first: u64,
    pub tickets: u64,
}

#[unsafe(no_mangle)]
pub extern "C" fn hikebox_lease_of_budget(
    limit: u64,
    asking: &Asking,
    stored: &mut Stored,
    range: &mut Range,
) -> u32
    ensures leases { Leases (Budget limit) asking.now stored.old result stored.new range.new }
    ensures refuses { LeasesNone asking.now stored.old range.old result stored.new range.new }
{
    tell_lease(Grants::Budget(limit), asking, stored, range)
}

#[unsafe(no_mangle)]
pub extern "C" fn hikebox_lease_of_quota(
    reserve: u64,
    share: u64,
    asking: &Asking,
    stored: &mut Stored,
    range: &mut Range,
) -> u32
    ensures leases { Leases (quota_of reserve share) asking.now stored.old result stored.new range.new }
    ensures refuses { LeasesNone asking.now stored.old range.old result stored.new range.new }
{
    tell_lease(quota(reserve, share), asking, stored, range)
}

#[unsafe(no_mangle)]
pub extern "C" fn hikebox_quota_allows(
    reserve: u64,
    share: u64,
    asked: u64,
    tickets: &mut u64,
) -> u32
    ensures code { result ≡ 0 }
    ensures tickets { tickets.new ≡ allows (quota_of reserve share) asked }
{
    *tickets = quota(reserve, share).allows(asked);
    0
}

// The quota of these terms.
fn quota(reserve: u64, share: u64) -> Grants
    ensures { result ≡ quota_of reserve share }
{
    Grants::Quota(Terms {
        reserve,
        share,
        period: Millis::from(1000),
    })
}

// Takes a lease, and writes what comes of it.
fn tell_lease(grants: Grants, asking: &Asking, stored: &mut Stored, range: &mut Range) -> u32
    ensures leases { Leases grants asking.now stored.old result stored.new range.new }
    ensures refuses { LeasesNone asking.now stored.old range.old result stored.new range.new }
{
    let Asking {
        window,
        told,
        wanted,
    } = *asking;
    let ask = Ask {
        grants,
        window,
        told,
        wanted,
    };
    let Some(lease) = stored.lease(ask) else {
        return Status::Backwards.code();
    };
    *stored = lease.stored;
    *range = Range {
        first: lease.first,
        tickets: lease.tickets,
    };
    0
}
