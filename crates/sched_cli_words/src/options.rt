ghost use Rattle.std.specs.Prelude.{◌≤◌};

use crate::quotas::QuotaOptions;
use sched_cli_storm_words::StormOptions;
use sched_plan_course::{PlanCourse, PlanOptions};

/// The most workers of a pool.
pub const MAX_WORKERS: u64 = 16;

/// The most tickets of a pool's budget.
pub const MAX_TICKETS: u64 = 4294967296;

/// The most turns of a pool's worker.
pub const MAX_TURNS: u64 = 4294967296;

/// What a command line asks the program to do, and where the text for it comes from.
#[derive(Debug, Drop)]
pub enum Asked {
    /// Print what one plan decides, with the same input and words at each event.
    Plan(PlanOptions, Origin),
    /// Print what one plan decides, with an input and words of its own at each event.
    Course(PlanCourse, Origin),
    /// Run jobs on one budget, and print how each ended.
    Pool(PoolOptions, Origin),
    /// Run jobs on one quota, and print how each ended.
    Quota(QuotaOptions, Origin),
    /// Play a storm under one plan or more, and print what it comes to.
    Storm(StormOptions, Origin),
    /// Say what a text is, a plan or jobs, or where it is wrong.
    Check(Origin),
}

impl Asked {
    ghost use Rattle.std.specs.Prelude.{◌≡◌};
    ghost use Rattle.sched_cli_words.specs.Options.{origin_of};

    /// Where the text comes from.
    pub fn origin(&self) -> &Origin
        ensures { result.now ≡ origin_of self.now }
    {
        match self {
            Asked::Plan(_, origin)
            | Asked::Course(_, origin)
            | Asked::Pool(_, origin)
            | Asked::Quota(_, origin)
            | Asked::Storm(_, origin)
            | Asked::Check(origin) => origin,
        }
    }
}

/// Where a text is read from.
#[derive(Debug, Drop)]
pub enum Origin {
    /// Standard input.
    StandardInput,
    /// The file of this name.
    File(String),
}

/// How jobs are run.
#[derive(Clone, Copy, Debug, PartialEq, Eq)]
pub struct PoolOptions {
    /// How many workers run them, from 1 to 16.
    pub workers: u64,
    /// How many retries all jobs may have together, from 0 to 4294967296.
    pub budget: u64,
    /// How many turns each worker takes at most, from 0 to 4294967296.
    pub turns: u64,
    ghost some: { 1 ≤ workers },
    ghost few: { workers ≤ 16 },
    ghost tickets: { budget ≤ 4294967296 },
    ghost turned: { turns ≤ 4294967296 },
}
