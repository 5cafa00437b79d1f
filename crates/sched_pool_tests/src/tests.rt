//! Boards, their workers and what is taken back; and one worker by itself.
ghost use Rattle.std.specs.Prelude.{◌≡◌, [], None, IfSome};
ghost use Rattle.sched_pool.specs.Held.{IsOf};
ghost use Rattle.sched_pool.specs.Past.{nothing_yet};

use sched_pool::{
    Board, Budget, Driver, Effect, MidWords, Millis, Moment, Naming, OnBudget, Pass, Plan,
    PlanFault, Ran, Retry, Scripted, Station, VirtualClock,
};
use std::alloc::Global;
use std::process::Abort;

mod calls;
mod gates;
mod pools;
mod watchers;
mod worker;
mod works;

// A retry of the effect by the plan, with a pass that is split off.
fn retrying<'a, X: Effect>(
    rt: &impl Abort,
    alloc: Global,
    budget: &'a Budget,
    pass: &mut Pass,
    effect: X,
    plan: Result<Plan, PlanFault>,
) -> Retry<X, OnBudget<&'a Budget>>
    requires of { IsOf budget.now pass.old }
    requires fresh { X.fresh effect }
    ensures of { IsOf budget.now pass.new }
    ensures budget { result.drawing.budget ≡ budget.entry.now }
    ensures had { result.had ≡ 0 }
    ensures new { result.past ≡ nothing_yet result.past.driver None }
{
    let plan = plan.expect(rt, "the plan is built");
    let driver = Driver::new(alloc, plan).expect(rt, "there is memory");
    let part = pass.split(budget).expect(rt, "passes are left");
    Retry::new(alloc, effect, driver, OnBudget::new(part, budget))
}

// An effect whose runs all fail with 7.
fn losing(rt: &impl Abort, alloc: Global) -> Scripted
    ensures { result.runs ≡ [] }
{
    let script = [Ran::Lost(Millis::from(7))].to_vec(alloc);
    Scripted::new(script.expect(rt, "there is memory")).expect(rt, "the script has an outcome")
}

// A board of so many retries of such effects, by so many recurrences.
fn board_of<'a, N: Naming>(
    rt: &impl Abort,
    alloc: Global,
    budget: &'a Budget,
    pass: &mut Pass,
    jobs: usize,
    recurs: u64,
) -> Board<'a, Scripted, N>
    requires name { budget.now ≡ N.budget }
    requires of { IsOf budget.now pass.old }
    ensures of { IsOf budget.now pass.new }
    ensures open { result.claims ≡ None }
{
    let mut board = Board::new(alloc, budget);
    for number in 0..jobs {
        let retry = retrying(
            rt,
            alloc,
            budget,
            pass,
            losing(rt, alloc),
            Plan::recurs(recurs),
        );
        assert_eq!(rt; board.add(retry).ok(), Some(number));
    }
    board
}

// A station at moment 0, which holds so many jobs.
fn station(rt: &impl Abort, hold: usize) -> Station<VirtualClock, MidWords> {
    let start = Moment::new(0).expect(rt, "the moment is in range");
    Station::new(VirtualClock::at(start), MidWords, hold).expect(rt, "the hold is in range")
}

// So many stations, each of which holds one job.
fn stations(rt: &impl Abort, alloc: Global, number: usize) -> Vec<Station<VirtualClock, MidWords>> {
    let mut all = Vec::new(alloc);
    for _ in 0..number {
        all.push(station(rt, 1)).ok().expect(rt, "there is memory");
    }
    all
}
