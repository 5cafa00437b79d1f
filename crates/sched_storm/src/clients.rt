//! The clients of a storm, each population with its plan.
ghost use Rattle.std.specs.Prelude.{◌≡◌, ℕ, IfOk};
ghost use Rattle.sched_storm.specs.Clients.{plan_at, client_at};
ghost use Rattle.sched_storm.specs.Populations.{as_population};

use crate::storm::Storm;
use sched_driver_stepper::Compiled;
use sched_plan::SharedPlan;
use sched_time::NoMemory;
use std::alloc::Global;

/// The plan of the requests of each population.
#[derive(Drop)]
pub struct Plans {
    /// That of the first population.
    pub first: SharedPlan,
    /// That of the second.
    pub second: SharedPlan,
    /// That of the third.
    pub third: SharedPlan,
    /// That of the fourth.
    pub fourth: SharedPlan,
}

impl Plans {
    /// All populations have this plan.
    pub fn all(plan: SharedPlan) -> Result<Plans, NoMemory>
        ensures { IfOk result (λ plans. plans ≡ record { first = plan; second = plan; third = plan; fourth = plan }) }
    {
        Ok(Plans {
            second: plan.share()?,
            third: plan.share()?,
            fourth: plan.share()?,
            first: plan,
        })
    }
}

/// The clients of a population: the storm as they meet it, and their plan.
#[derive(Drop)]
pub(crate) struct Client {
    pub(crate) storm: Storm,
    pub(crate) plan: Compiled,
}

impl Client {
    fn new(
        alloc: Global,
        storm: &Storm,
        population: u64,
        plan: SharedPlan,
    ) -> Result<Client, NoMemory>
        ensures { IfOk result (λ client. client ≡ record { storm = as_population storm.now population; plan = plan }) }
    {
        Ok(Client {
            storm: storm.as_population(population),
            plan: Compiled::of_shared(alloc, plan)?,
        })
    }
}

/// The clients of all populations.
#[derive(Drop)]
pub(crate) struct Clients {
    first: Client,
    second: Client,
    third: Client,
    fourth: Client,
}

impl Clients {
    /// The clients of the storm, with these plans.
    pub(crate) fn new(alloc: Global, storm: &Storm, plans: Plans) -> Result<Clients, NoMemory>
        ensures { IfOk result (λ clients. (k : ℕ) → client_at k clients
            ≡ record { storm = as_population storm.now k; plan = plan_at k plans }) }
    {
        let Plans {
            first,
            second,
            third,
            fourth,
        } = plans;
        Ok(Clients {
            first: Client::new(alloc, storm, 0, first)?,
            second: Client::new(alloc, storm, 1, second)?,
            third: Client::new(alloc, storm, 2, third)?,
            fourth: Client::new(alloc, storm, 3, fourth)?,
        })
    }

    /// Those of a population, from 0.
    pub(crate) fn at(&self, population: u64) -> &Client
        ensures { result.now ≡ client_at population self.now }
    {
        match population {
            0 => &self.first,
            1 => &self.second,
            2 => &self.third,
            _ => &self.fourth,
        }
    }
}
