//! Calls on policies.
ghost use Rattle.std.specs.Prelude.{◌≡◌, IfOk, IfErr};
ghost use Rattle.sched_handle.specs.Held.{Wants, IsOther};
ghost use Rattle.sched_handle.specs.Policies.{IsMade, ReadsPolicy, TellsPlace, Shares, Sizes, Reads};
ghost use Rattle.sched_handle.specs.declared.held.Held.TheVariants as what;
ghost use Rattle.sched_handle.specs.declared.held.Kind.TheVariants as kind;

use crate::held::Held;
use crate::replies::{Place, Size};
use crate::status::Status;
use sched_driver_stepper::Compiled;
use sched_plan::{Plan, SharedPlan};
use sched_plan_bound::most_goes;
use sched_plan_json::{TextFault, read_text};
use sched_plan_reads::reads;
use std::alloc::Global;

impl Held {
    /// The policy that the bytes spell as JSON. `place` is where they stop being JSON, where they do; otherwise 0, 0.
    pub fn read(alloc: Global, json: &[u8], place: &mut Place) -> Result<Box<Held>, Status>
        ensures policy { ReadsPolicy json.now result }
        ensures place { TellsPlace result place.new }
    {
        *place = Place::nowhere();
        let plan = match read_text(alloc, json) {
            Ok(plan) => plan,
            Err(TextFault::NotJson { line, column }) => {
                *place = Place {
                    line: line as u64,
                    column: column as u64,
                };
                return Err(Status::NotJson);
            }
            Err(fault) => return Err(Status::from(fault)),
        };
        Held::of_plan(alloc, plan)
    }

    /// The policy of this plan.
    pub fn of_plan(alloc: Global, plan: Plan) -> Result<Box<Held>, Status>
        ensures { IsMade plan result }
    {
        match Compiled::new(alloc, plan) {
            Ok(plan) => Held::Policy(plan).boxed(alloc),
            Err(_) => Err(Status::NoMemory),
        }
    }

    /// The policy, where it is one.
    #[inline(always)]
    pub(crate) fn policy(&self) -> Result<&Compiled, Status>
        ensures ok { IfOk result (λ plan. self.now ≡ what.Policy plan.now) }
        ensures err { IfErr result (IsOther kind.Policy self.now) }
    {
        match self {
            Held::Policy(plan) => Ok(plan),
            _ => Err(Status::WrongKind),
        }
    }

    /// The policy's plan, with one more owner.
    pub fn plan(&self) -> Result<SharedPlan, Status>
        ensures ok { IfOk result (λ plan. self.now ≡ what.Policy plan) }
        ensures err { IfErr result (Wants kind.Policy self.now) }
    {
        let plan = self.policy()?;
        match plan.share() {
            Ok(plan) => Ok(plan),
            Err(_) => Err(Status::NoMemory),
        }
    }

    /// The same policy, for one more handle. No plan is copied.
    pub fn shared(&self, alloc: Global) -> Result<Box<Held>, Status>
        ensures { Shares self.now result }
    {
        match self.policy()?.again() {
            Ok(plan) => Held::Policy(plan).boxed(alloc),
            Err(_) => Err(Status::NoMemory),
        }
    }

    /// How many nodes the policy has, how deep it is, and at how many events it goes on at most.
    pub fn size(&self) -> Result<Size, Status>
        ensures { Sizes self.now result }
    {
        let plan = self.policy()?.get();
        Ok(Size {
            nodes: plan.nodes() as u64,
            depth: plan.depth() as u64,
            most: most_goes(plan).unwrap_or(u64::MAX),
        })
    }

    /// What the policy reads of an event beside its moment, as `sched_plan_reads` adds it up.
    pub fn reads(&self) -> Result<u64, Status>
        ensures { Reads self.now result }
    {
        let plan = self.policy()?.get();
        Ok(reads(plan))
    }
}
