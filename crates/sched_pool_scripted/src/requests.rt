//! The jobs as retries on a quota.
ghost use Rattle.std.specs.Prelude.{◌≡◌, [], All, IfOk};
ghost use Rattle.sched_ticket_quota.specs.Held.{IsOf};
ghost use Rattle.sched_pool_scripted.specs.Driven.{IsOnQuota, IsUnused};

use crate::quota_batches::QuotaBatchFault;
use crate::retries::retry_of;
use crate::tallies::Tally;
use sched_effect::Scripted;
use sched_pool_json::JobRead;
use sched_retry::Retry;
use sched_ticket_quota::{Pass, Quota};
use sched_time::Moment;
use std::alloc::Global;

/// A retry that draws on a quota.
pub(crate) type QuotaRetry<'a> = Retry<Scripted, Tally<&'a Quota>>;

/// A retry of each job, in order. Each has a pass of its own, which has counted the request of its first run at the
/// moment `now`, in the window 0. The pass that these were split off stays without tickets and requests.
pub(crate) fn retries_of<'a>(
    alloc: Global,
    jobs: &[JobRead],
    quota: &'a Quota,
    pass: &mut Pass,
    now: Moment,
) -> Result<Vec<QuotaRetry<'a>>, QuotaBatchFault>
    requires of { IsOf quota.now pass.old }
    requires unused { IsUnused pass.old.has }
    ensures retries { IfOk result (λ retries. All (IsOnQuota quota.entry.now) retries.items) }
    ensures of { IsOf quota.entry.now pass.new }
    ensures unused { IsUnused pass.new.has }
{
    let mut retries = Vec::new(alloc);
    for job in jobs {
        retries.reserve(1)?;
        let retry = requested(alloc, job, quota, pass, now)?;
        retries.push_reserved(retry);
    }
    Ok(retries)
}

// A retry of the job, with a pass split off that has counted its request.
fn requested<'a>(
    alloc: Global,
    job: &JobRead,
    quota: &'a Quota,
    pass: &mut Pass,
    now: Moment,
) -> Result<QuotaRetry<'a>, QuotaBatchFault>
    requires of { IsOf quota.now pass.old }
    requires unused { IsUnused pass.old.has }
    ensures retry { IfOk result (IsOnQuota quota.entry.now) }
    ensures of { IsOf quota.entry.now pass.new }
    ensures unused { IsUnused pass.new.has }
{
    let Ok(mut own) = pass.split(quota) else {
        return Err(QuotaBatchFault::Mixed);
    };
    own.deposit(quota, now);
    if own.seen(quota, now).window != 0 {
        return Err(QuotaBatchFault::Mixed);
    }
    let retry = retry_of(alloc, job, Tally::new(alloc, own, quota))?;
    Ok(retry)
}
