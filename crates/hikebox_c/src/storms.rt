//! Storms.
ghost use Rattle.std.specs.Prelude.{◌≡◌, []};
ghost use Rattle.sched_storm_call.specs.Plays.{PlaysStorm, alone, held_by};

use sched_handle::Handle;
use sched_storm_call::{Policies, SizedStorm, SizedTotals, WindowTold};
use std::alloc::Global;

#[unsafe(no_mangle)]
pub extern "C" fn hikebox_storm_play(
    alloc: Global,
    policy: &mut Handle,
    storm: &SizedStorm,
    windows: &mut [WindowTold],
    totals: &mut SizedTotals,
) -> u32
    ensures kept { policy.new.held ≡ policy.old.held }
    ensures played { PlaysStorm [] storm.now (alone policy.old.held)
        (record { windows = windows.old; totals = totals.old }) result
        (record { windows = windows.new; totals = totals.new }) }
{
    sched_storm_call::storm_play(alloc, policy, storm, windows, totals)
}

#[unsafe(no_mangle)]
pub extern "C" fn hikebox_storm_play_populations(
    alloc: Global,
    policies: &mut Policies,
    storm: &SizedStorm,
    arrivals: &[u64],
    windows: &mut [WindowTold],
    totals: &mut SizedTotals,
) -> u32
    ensures kept { held_by policies.new ≡ held_by policies.old }
    ensures played { PlaysStorm arrivals.now storm.now (held_by policies.old)
        (record { windows = windows.old; totals = totals.old }) result
        (record { windows = windows.new; totals = totals.new }) }
{
    sched_storm_call::storm_play_populations(alloc, policies, storm, arrivals, windows, totals)
}
