//! Playing a storm.
ghost use Rattle.std.specs.Prelude.{◌≡◌, ◌≤◌, [], map, None, IfOk, IfErr, vec_len};
ghost use Rattle.sched_storm.specs.Arrivals.{AreArrivals};
ghost use Rattle.sched_storm.specs.Clients.{plan_at};
ghost use Rattle.sched_storm.specs.Report.{AddsUp};
ghost use Rattle.sched_storm.specs.Storms.{ReportsOn};
ghost use Rattle.sched_storm_call.specs.Told.{room_of, window_told};
ghost use Rattle.sched_storm_call.specs.Plays.{PlaysStorm, PlaysPlans, HavePlans, IsPlanOf, HasNoPlan, IsReason};
ghost use Rattle.sched_storm_call.specs.Plays.{alone, held_by, plans_of};

use crate::records::{
    Policies, SizedStorm, SizedTotals, TotalsTold, WindowTold, are_sized, room_of,
};
use sched_handle::{Handle, Status};
use sched_plan::SharedPlan;
use sched_storm::{Plans, Report, Storm, Window, are_arrivals};
use sched_time::NoMemory;
use std::alloc::Global;

/// Plays a storm of requests under the policy, and writes its windows and its totals.
pub fn storm_play(
    alloc: Global,
    policy: &mut Handle,
    storm: &SizedStorm,
    windows: &mut [WindowTold],
    totals: &mut SizedTotals,
) -> u32
    ensures kept { policy.new.held ≡ policy.old.held }
    ensures played { PlaysStorm [] storm.now (alone policy.old.held)
        (record { windows = windows.old; totals = totals.old }) result
        (record { windows = windows.new; totals = totals.new }) }
{
    let plans = its_plans(policy);
    tell_storm(alloc, plans, storm, &[], windows, totals)
}

/// The same, of requests of several populations, each under its policy, which come at these moments, or by the rates
/// where there are none.
pub fn storm_play_populations(
    alloc: Global,
    policies: &mut Policies,
    storm: &SizedStorm,
    arrivals: &[u64],
    windows: &mut [WindowTold],
    totals: &mut SizedTotals,
) -> u32
    ensures kept { held_by policies.new ≡ held_by policies.old }
    ensures played { PlaysStorm arrivals.now storm.now (held_by policies.old)
        (record { windows = windows.old; totals = totals.old }) result
        (record { windows = windows.new; totals = totals.new }) }
{
    let plans = their_plans(policies);
    tell_storm(alloc, plans, storm, arrivals, windows, totals)
}

// The plans, where all populations have the policy that the handle holds.
fn its_plans(policy: &mut Handle) -> Result<Plans, Status>
    ensures kept { policy.new.held ≡ policy.old.held }
    ensures plans { HavePlans (alone policy.old.held) (plans_of result) }
    ensures reason { IfErr result IsReason }
{
    let plan = policy.plan()?;
    match Plans::all(plan) {
        Ok(plans) => Ok(plans),
        Err(_) => Err(Status::NoMemory),
    }
}

// The plans of the policies that the handles hold.
fn their_plans(policies: &mut Policies) -> Result<Plans, Status>
    ensures kept { held_by policies.new ≡ held_by policies.old }
    ensures plans { HavePlans (held_by policies.old) (plans_of result) }
    ensures reason { IfErr result IsReason }
{
    let first = policies.first.plan()?;
    let second = plan_or(&mut policies.second, &first)?;
    let third = plan_or(&mut policies.third, &first)?;
    let fourth = plan_or(&mut policies.fourth, &first)?;
    Ok(Plans {
        first,
        second,
        third,
        fourth,
    })
}

// The plan of the policy that the handle holds, or the first one where it holds nothing.
fn plan_or(handle: &mut Handle, first: &SharedPlan) -> Result<SharedPlan, Status>
    ensures kept { handle.new.held ≡ handle.old.held }
    ensures ok { IfOk result (IsPlanOf handle.old.held first.now) }
    ensures err { IfErr result (HasNoPlan handle.old.held) }
    ensures reason { IfErr result IsReason }
{
    if handle.is_full() {
        return handle.plan();
    }
    match first.share() {
        Ok(plan) => Ok(plan),
        Err(_) => Err(Status::NoMemory),
    }
}

// Plays the storm that is given, and writes what comes of it.
fn tell_storm(
    alloc: Global,
    plans: Result<Plans, Status>,
    given: &SizedStorm,
    arrivals: &[u64],
    windows: &mut [WindowTold],
    totals: &mut SizedTotals,
) -> u32
    requires { IfErr plans IsReason }
    ensures { PlaysPlans arrivals.now given.now (plans_of plans)
        (record { windows = windows.old; totals = totals.old }) result
        (record { windows = windows.new; totals = totals.new }) }
{
    if !are_sized(given.size, totals.size) {
        return Status::WrongSize.code();
    }
    let given = &given.storm;
    let Some(storm) = given.storm() else {
        return Status::OutOfRange.code();
    };
    if !are_arrivals(arrivals) {
        return Status::OutOfRange.code();
    }
    let room = room_of(&storm);
    if windows.len() < room {
        totals.totals.windows = room as u64;
        return Status::NoRoom.code();
    }
    let plans = match plans {
        Ok(plans) => plans,
        Err(status) => return status.code(),
    };
    match play(alloc, plans, &storm, arrivals, given.of()) {
        Ok((report, told)) => {
            windows[..told.len()].copy_from_slice(&told);
            totals.totals = TotalsTold::of(&report);
            0
        }
        Err(_) => Status::NoMemory.code(),
    }
}

// The report on the storm of these plans, and its windows as C is told of them.
fn play(
    alloc: Global,
    plans: Plans,
    storm: &Storm,
    arrivals: &[u64],
    of: Option<u64>,
) -> Result<(Report, Vec<WindowTold>), NoMemory>
    requires { AreArrivals arrivals.now }
    ensures reports { IfOk result (λ played. ReportsOn arrivals.now storm.now (λ k. plan_at k plans) of played.0) }
    ensures sums { of ≡ None → IfOk result (λ played. AddsUp arrivals.now storm.now played.0) }
    ensures few { IfOk result (λ played. vec_len played.0.windows ≤ room_of storm.now) }
    ensures told { IfOk result (λ played. played.1.items ≡ map window_told played.0.windows.items) }
{
    let report = storm.play_populations(alloc, arrivals, plans, of)?;
    let told = windows_told(alloc, &report.windows)?;
    Ok((report, told))
}

// Windows, as C is told of them.
fn windows_told(alloc: Global, windows: &Vec<Window>) -> Result<Vec<WindowTold>, NoMemory>
    ensures { IfOk result (λ told. told.items ≡ map window_told windows.now.items) }
{
    let mut told = Vec::with_capacity(alloc, windows.len())?;
    for window in windows {
        told.push(WindowTold::of(window))?;
    }
    Ok(told)
}
