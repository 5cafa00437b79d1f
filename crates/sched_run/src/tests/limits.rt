//! Calls under limits. A test lists calls, so that one is proved once, and not wherever it is made.
ghost use Rattle.std.specs.Prelude.{◌≡◌, []};
ghost use Rattle.sched_driver_stepper.specs.Standing.{standing_after};

use sched_closure::limited_call;
use sched_driver_stepper::Stepper;
use sched_effect::Ran;
use sched_limit::{Breaker, Bucket, InFlight, Refusal};
use sched_limit_draws::{Costs, OnAsks};
use sched_limit_request::{Asks, Both, OnLimit};
use sched_plan::Plan;
use sched_run_machine::Machine;
use sched_task::{Clock, How, MidWords, VirtualClock};
use sched_ticket_draws::Draws;
use sched_time::{FAR, Millis, Moment, Tick};
use std::alloc::{AllocGlobal, Global};
use std::process::Abort;
use std::sync::Wait;

// The code of a call that came too late.
const LATE: u32 = 9;

// A call at a moment, of a closure that fails so often with this code, and then succeeds.
#[derive(Clone, Copy)]
struct Call {
    at: u64,
    failures: u32,
    code: u32,
}

// What is to come of it: how it ended, where its first call was admitted, how many calls it made, and why the limit
// refused last.
type Came = (Option<How>, u32, Option<Refusal>);

fn moment(at: u64) -> Moment {
    match Moment::new(at.min(FAR)) {
        Some(moment) => moment,
        None => unreachable!(),
    }
}

// What steps a plan of recurrences 10 milliseconds apart.
fn stepper(rt: &impl Abort, alloc: Global) -> Stepper
    ensures { result ≡ standing_after result.plan [] }
{
    let plan = Plan::spaced(10).expect(rt, "the plan is built");
    Stepper::new(alloc, plan).expect(rt, "there is memory")
}

// Open for 100 ms at the first trip, and then 200. Two failures trip it, and one probe closes it.
fn breaker(rt: &impl Abort, alloc: Global) -> OnLimit<Breaker> {
    let mut times = [0; 64];
    times[0] = 100;
    times[1] = 200;
    let breaker = Breaker::new(moment(0), 2, 1, Millis::from(1000), times, 1);
    let breaker = breaker.expect(rt, "there is such a breaker");
    OnLimit::new(alloc, breaker).expect(rt, "there is memory")
}

// What draws on the limit, at a cost of 5, and of 10 after a call that came too late.
fn on<L: Asks>(limit: L) -> OnAsks<L, MidWords> {
    let costs = Costs {
        each: 5,
        late: 10,
        late_code: u64::from(LATE),
    };
    OnAsks::new(limit, MidWords, costs)
}

// Makes the call by the limit.
fn called<L: Asks>(
    rt: &(impl Wait + AllocGlobal + Abort),
    limit: OnAsks<L, MidWords>,
    call: Call,
) -> (Came, OnAsks<L, MidWords>) {
    let mut clock = VirtualClock::at(moment(call.at));
    let driver = stepper(rt, rt.alloc());
    let mut calls = 0u32;
    let (ending, retry) = limited_call(rt, driver, limit, &mut clock, &mut MidWords, || {
        calls = calls.saturating_add(1);
        if calls <= call.failures {
            Err(call.code)
        } else {
            Ok(calls)
        }
    });
    let how = match &ending {
        Some(ending) => Some(ending.how()),
        None => None,
    };
    let (_, limit) = retry.into_parts();
    let refusal = limit.refusal();
    ((how, calls, refusal), limit)
}

// Makes the calls, one after another, of which this is to come.
fn calls<L: Asks>(
    rt: &(impl Wait + AllocGlobal + Abort),
    mut limit: OnAsks<L, MidWords>,
    list: &[(u64, u32, u32, Came)],
) -> OnAsks<L, MidWords> {
    for (place, entry) in list.iter().enumerate() {
        let (at, failures, code, want) = *entry;
        let (got, after) = called(rt, limit, Call { at, failures, code });
        limit = after;
        assert_eq!(rt; got, want, "call {place}");
    }
    limit
}

fn won(calls: u32, refusal: Option<Refusal>) -> Came {
    (Some(How::Won), calls, refusal)
}

fn refused(calls: u32, refusal: Refusal) -> Came {
    (Some(How::BudgetRefused), calls, Some(refusal))
}

fn not_admitted(refusal: Refusal) -> Came {
    (None, 0, Some(refusal))
}

fn bucket(rt: &impl Abort, alloc: Global, bucket: Bucket) -> OnLimit<Bucket> {
    OnLimit::new(alloc, bucket).expect(rt, "there is memory")
}

fn open(until: u64) -> Refusal {
    Refusal::Open(moment(until))
}

// A draw costs 5, and 10 after a call that came too late. A success gives back what its last draw cost.
#[test]
fn costs(rt: HostRuntime) {
    let limit = Bucket {
        capacity: 14,
        floor: 0,
        debit: 0,
        credit: 1,
        refund: true,
    };
    let list = [
        (0, 1, LATE, won(2, None)),
        (0, 9, LATE, refused(2, Refusal::LevelLow(4))),
        (0, 0, 1, won(1, Some(Refusal::LevelLow(4)))),
        (0, 9, 1, refused(2, Refusal::LevelLow(0))),
    ];
    calls(&rt, on(bucket(&rt, rt.alloc(), limit)), &list);
}

#[test]
fn breaks(rt: HostRuntime) {
    let list = [
        (0, 9, 1, refused(2, open(110))),
        (109, 0, 1, not_admitted(open(110))),
        (110, 9, 1, refused(1, open(310))),
        (309, 0, 1, not_admitted(open(310))),
        (310, 0, 1, won(1, Some(open(310)))),
        (310, 1, 1, won(2, Some(open(310)))),
    ];
    calls(&rt, on(breaker(&rt, rt.alloc())), &list);
}

// One slot, of which another request takes hold. A retry holds it from its draw on, and gives it back when it ends.
#[test]
fn in_flight(rt: HostRuntime) {
    let limit = OnLimit::new(rt.alloc(), InFlight::envoy(20, 1));
    let mut limit = limit.expect(&rt, "there is memory");
    let mut other = limit.split().expect(&rt, "it has parts");
    let mut on = calls(&rt, on(limit), &[(0, 2, 1, won(3, None))]);
    assert!(rt; other.admit(moment(0), 0).is_ok());
    assert!(rt; other.draw(moment(0), 0, 0).is_ok());
    on = calls(&rt, on, &[(0, 1, 1, refused(1, Refusal::Full))]);
    other.ended();
    calls(&rt, on, &[(0, 1, 1, won(2, Some(Refusal::Full)))]);
}

// A retry that is cancelled while it waits: what its draw cost comes back, and so does its slot.
#[test]
fn what_waits_is_given_back(rt: HostRuntime) {
    let bucket = Bucket {
        capacity: 5,
        floor: 0,
        debit: 0,
        credit: 0,
        refund: false,
    };
    let first = OnLimit::new(rt.alloc(), bucket).expect(&rt, "there is memory");
    let second = OnLimit::new(rt.alloc(), InFlight::envoy(20, 1));
    let second = second.expect(&rt, "there is memory");
    let mut limit = on(Both { first, second });
    assert!(rt; limit.admit(moment(0)));
    let mut retry: Machine<Stepper, OnAsks<Both<OnLimit<Bucket>, OnLimit<InFlight>>, MidWords>> =
        Machine::new(stepper(&rt, rt.alloc()), limit);
    let tick = Tick {
        now: moment(0),
        words: [0; 4],
    };
    retry.poll(&tick);
    assert!(rt; retry.report(rt.alloc(), &tick, Ran::Lost(Millis::from(1))));
    assert_eq!(rt; retry.over(), None);
    retry.cancel();
    let (_, limit) = retry.into_parts();
    assert_eq!(rt; limit.granted(), 1);
    calls(&rt, limit, &[(0, 1, 1, won(2, None))]);
}
