//! Playing a storm.
ghost use Rattle.std.specs.Prelude.{◌≡◌, ◌+◌, ◌/◌, ◌≤◌, None, IfOk, vec_len, []};
ghost use Rattle.sched_storm.specs.Arrivals.{AreArrivals};
ghost use Rattle.sched_storm.specs.Clients.{plan_at};
ghost use Rattle.sched_storm.specs.Storms.{Reports, ReportsOn};
ghost use Rattle.sched_storm.specs.Report.{AddsUp};

use crate::agenda::Agenda;
use crate::clients::{Clients, Plans};
use crate::course::Course;
use crate::storm::Storm;
use sched_plan::SharedPlan;
use sched_storm_report::Report;
use sched_time::NoMemory;
use std::alloc::Global;

impl Storm {
    /// Plays the storm, of requests that come by its rates and all have this plan. Fails only with `NoMemory`.
    pub fn play(&self, alloc: Global, plan: SharedPlan) -> Result<Report, NoMemory>
        ensures reports { IfOk result (Reports self.now plan) }
        ensures adds_up { IfOk result (AddsUp [] self.now) }
    {
        let plans = Plans::all(plan)?;
        self.play_populations(alloc, &[], plans, None)
    }

    /// Plays the storm, of requests that come at these moments, or by its rates where there are none. Those of each
    /// population have its plan. Reports on all requests, or on those of one population, from 0. Fails only with
    /// `NoMemory`.
    pub fn play_populations(
        &self,
        alloc: Global,
        arrivals: &[u64],
        plans: Plans,
        of: Option<u64>,
    ) -> Result<Report, NoMemory>
        requires { AreArrivals arrivals.now }
        ensures reports { IfOk result (ReportsOn arrivals.now self.now (λ k. plan_at k plans) of) }
        ensures adds_up { of ≡ None → IfOk result (AddsUp arrivals.now self.now) }
        ensures windows { IfOk result (λ r. vec_len r.windows ≤ self.now.until / self.now.window + 1) }
    {
        let clients = Clients::new(alloc, self, plans)?;
        let agenda = Agenda::new(alloc)?;
        let mut course = Course::new(alloc, *self, arrivals, clients, agenda, of);
        let is_cut = course.run(alloc)?;
        course.into_report(is_cut)
    }
}
