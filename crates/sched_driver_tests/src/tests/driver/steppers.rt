use super::*;
use sched_driver_stepper::{Compiled, StepFault, Stepper};
use sched_plan::{Side, Test};

// How many events a poll takes that is played out.
const MANY: u64 = 10_000_000;

// A new stepper of this plan.
fn stepper_of(rt: &impl Abort, alloc: Global, plan: Plan) -> Stepper {
    Stepper::new(alloc, plan).expect(rt, "there is memory")
}

// One more event at this moment, without input.
fn step(
    rt: &impl Abort,
    alloc: Global,
    stepper: &mut Stepper,
    at: u64,
) -> Result<Decision, StepFault> {
    let tick = Tick {
        now: moment(rt, at),
        words: [2147483648; 4],
    };
    stepper.next(alloc, &tick, &Val::unit())
}

// Asserts that such an event leads on to this start.
fn steps_to(rt: &impl Abort, alloc: Global, stepper: &mut Stepper, at: u64, start: u64) {
    let start = Decision::Go(Interval::after(moment(rt, start)));
    assert_eq!(rt; step(rt, alloc, stepper, at), Ok(start));
}

// The fault of an event before this moment.
fn backwards(rt: &impl Abort, floor: u64) -> StepFault {
    let floor = moment(rt, floor);
    StepFault::Backwards { floor }
}

// Asserts what a stepper shows: its floor and its next start.
fn assert_stands(rt: &impl Abort, stepper: &Stepper, floor: u64, start: Option<u64>) {
    assert_eq!(rt; stepper.floor().get(), floor);
    assert_eq!(rt; stepper.next_start().map(Moment::get), start);
}

// Asserts that a stepper has had no event.
fn assert_new(rt: &impl Abort, stepper: &Stepper) {
    assert_stands(rt, stepper, 0, None);
}

// Asserts that the event is taken, and one before it refused, which changes nothing.
fn steps_once(rt: &impl Abort, alloc: Global, stepper: &mut Stepper) {
    assert_new(rt, stepper);
    steps_to(rt, alloc, stepper, 50, 150);
    assert_eq!(rt; step(rt, alloc, stepper, 49), Err(backwards(rt, 50)));
    assert_stands(rt, stepper, 50, Some(150));
    steps_to(rt, alloc, stepper, 50, 150);
}

// Asserts that it begins again once it is reset.
fn begins_again(rt: &impl Abort, alloc: Global, stepper: &mut Stepper) {
    stepper.reset();
    assert_new(rt, stepper);
    steps_to(rt, alloc, stepper, 10, 110);
    assert_stands(rt, stepper, 10, Some(110));
    assert!(rt; stepper.plan().same(&spaced_recurs(rt, alloc)));
}

// Two recurrences, 100 milliseconds apart: the gate reads a part of a part of an output, which no record tells.
fn nested(rt: &impl Abort, alloc: Global) -> Plan {
    let spaced = Plan::spaced(100).expect(rt, "it is in range");
    let both = Plan::meet(alloc, forever(rt), spaced).expect(rt, "it is small");
    let all = Plan::meet(alloc, both, forever(rt)).expect(rt, "it is small");
    let first = Plan::first(alloc, all).expect(rt, "it is small");
    let count = Plan::first(alloc, first).expect(rt, "it is small");
    Plan::gate(alloc, Side::Output, true, Test::Below, 2, count).expect(rt, "it is small")
}

// Asserts that it goes on twice.
fn goes_on_twice(rt: &impl Abort, alloc: Global, stepper: &mut Stepper) {
    assert_new(rt, stepper);
    steps_to(rt, alloc, stepper, 50, 150);
    steps_to(rt, alloc, stepper, 150, 250);
    assert_eq!(rt; step(rt, alloc, stepper, 250), Ok(Decision::Done));
    assert_stands(rt, stepper, 250, None);
}

// A stepper of this compiled plan.
fn stepper_by(rt: &impl Abort, alloc: Global, compiled: &Compiled) -> Stepper {
    compiled.stepper(alloc).expect(rt, "there is memory")
}

// The plan, compiled.
fn compiled(rt: &impl Abort, alloc: Global, plan: Plan) -> Compiled {
    Compiled::new(alloc, plan).expect(rt, "there is memory")
}

#[test]
fn steppers_of_a_compiled_plan_share_no_state(rt: HostRuntime) {
    let alloc = rt.alloc();
    let first = compiled(&rt, alloc, spaced_recurs(&rt, alloc));
    let second = first.again().expect(&rt, "there is memory");
    assert!(rt;
        first
            .share()
            .expect(&rt, "there is memory")
            .get()
            .same(second.get())
    );
    let mut one = stepper_by(&rt, alloc, &first);
    let mut other = stepper_by(&rt, alloc, &first);
    steps_once(&rt, alloc, &mut one);
    steps_once(&rt, alloc, &mut other);
    begins_again(&rt, alloc, &mut one);
    steps_once(&rt, alloc, &mut stepper_by(&rt, alloc, &second));
}

#[test]
fn a_compiled_plan_may_have_no_record(rt: HostRuntime) {
    let alloc = rt.alloc();
    let first = compiled(&rt, alloc, nested(&rt, alloc));
    let second = first.again().expect(&rt, "there is memory");
    goes_on_twice(&rt, alloc, &mut stepper_by(&rt, alloc, &first));
    goes_on_twice(&rt, alloc, &mut stepper_by(&rt, alloc, &second));
}

// Events at these moments, without input.
fn events_at(rt: &impl Abort, alloc: Global, moments: &[u64]) -> Vec<Event> {
    let mut events = Vec::new(alloc);
    for at in moments {
        let event = Event {
            now: moment(rt, *at),
            words: [0; 4],
            input: Val::unit(),
        };
        events.push(event).expect(rt, "there is memory");
    }
    events
}

// Asserts what is answered where events at these moments are replayed.
fn replays(
    rt: &impl Abort,
    alloc: Global,
    stepper: &mut Stepper,
    moments: &[u64],
    want: Result<(), StepFault>,
) {
    let events = events_at(rt, alloc, moments);
    assert_eq!(rt; stepper.replay(alloc, &events), want);
}

#[test]
fn replay_stops_at_the_first_that_is_refused(rt: HostRuntime) {
    let alloc = rt.alloc();
    let mut stepper = stepper_of(&rt, alloc, spaced_recurs(&rt, alloc));
    replays(&rt, alloc, &mut stepper, &[50, 150, 150], Ok(()));
    assert_stands(&rt, &stepper, 150, Some(250));
    stepper.reset();
    let refused = Err(backwards(&rt, 200));
    let moments = [50, 150, 150, 200, 199, 300];
    replays(&rt, alloc, &mut stepper, &moments, refused);
    assert_stands(&rt, &stepper, 200, None);
}

// Polls so often, each at the start planned before.
fn poll(rt: &impl Abort, alloc: Global, stepper: &mut Stepper, times: u64) {
    let mut now = moment(rt, 0);
    for _ in 0..times {
        let tick = Tick { now, words: [0; 4] };
        let decision = stepper.next(alloc, &tick, &Val::unit());
        now = decision
            .ok()
            .and_then(Decision::start)
            .expect(rt, "it goes on");
    }
}

// A poll every second. The first is at 0, so the event of number n is at n seconds.
#[test]
fn poll_takes_ten_million_events(rt: HostRuntime) {
    let alloc = rt.alloc();
    let spaced = Plan::spaced(1000).expect(&rt, "it is in range");
    let mut stepper = stepper_of(&rt, alloc, spaced);
    poll(&rt, alloc, &mut stepper, MANY);
    assert_stands(&rt, &stepper, 9_999_999_000, Some(10_000_000_000));
}
