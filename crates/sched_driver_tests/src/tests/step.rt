//! Steps of a state, in place and beside it. `checks` shows states and outputs, and `proofs/Worked*` has them computed.
use sched_plan::{Fold, Plan, PlanFault, Val};
use sched_step::{Answer, State, initial, step};
use sched_time::{FAR, Moment, NoMemory, Tick};
use std::alloc::Global;
use std::process::Abort;

fn tick_at(rt: &impl Abort, at: u64) -> Tick {
    Tick {
        now: Moment::new(at).expect(rt, "the moment is in range"),
        words: [2147483648; 4],
    }
}

// The state before the first event.
fn begun(rt: &impl Abort, alloc: Global, plan: &Plan) -> State {
    initial(alloc, plan).expect(rt, "there is memory")
}

// One more event, for a state that fits the plan there.
fn advanced(
    rt: &impl Abort,
    alloc: Global,
    plan: &Plan,
    state: &mut State,
    at: u64,
) -> Result<Answer, NoMemory> {
    let tick = tick_at(rt, at);
    assert!(rt; state.fits(plan, tick.now), "the state fits at {at}");
    state.advance(alloc, plan, &tick, &Val::unit())
}

// The same beside the old state.
fn stepped(rt: &impl Abort, alloc: Global, plan: &Plan, state: &State, at: u64) -> (State, Answer) {
    let tick = tick_at(rt, at);
    assert!(rt; state.fits(plan, tick.now), "the state fits at {at}");
    step(alloc, plan, state, &tick, &Val::unit()).expect(rt, "there is memory")
}

fn renewed(rt: &impl Abort, plan: &Plan, state: &mut State) {
    let far = Moment::new(FAR).expect(rt, "the moment is in range");
    assert!(rt; state.fits(plan, far), "the state fits at the end");
    state.renew(plan);
}

fn assert_text(rt: &impl Abort, alloc: Global, value: &Val, want: &str) {
    let text = value.text(alloc).expect(rt, "there is memory");
    assert_eq!(rt; text.as_str(), want);
}

fn assert_view(rt: &impl Abort, alloc: Global, state: &State, want: &str) {
    let view = state.view(alloc).expect(rt, "there is memory");
    assert_text(rt, alloc, &view, want);
}

fn assert_answer(
    rt: &impl Abort,
    alloc: Global,
    answer: &Answer,
    output: &str,
    start: Option<u64>,
) {
    assert_text(rt, alloc, &answer.output, output);
    assert_eq!(rt; answer.decision.start().map(Moment::get), start);
}

// What a builder answers. The helpers take it as it is, so that a test need not look at it.
type Built = Result<Plan, PlanFault>;

fn plan_of(rt: &impl Abort, built: Built) -> Plan {
    built.expect(rt, "it is in range")
}

fn follow(alloc: Global, first: Built, second: Built) -> Built {
    Plan::follow(alloc, first?, second?)
}

fn renew(alloc: Global, length: u64, built: Built) -> Built {
    Plan::renew(alloc, length, built?)
}

fn listed(alloc: Global, built: Built) -> Built {
    Plan::gather(alloc, Fold::List, built?)
}

// The outputs of (one event, then the time since it) so far, from the first event on of rounds of 100 milliseconds.
fn rounds(alloc: Global) -> Built {
    let turns = follow(alloc, Plan::recurs(1), Plan::elapsed());
    renew(alloc, 100, listed(alloc, turns))
}

// Takes an event, whose answer is not looked at.
fn takes(rt: &impl Abort, alloc: Global, plan: &Plan, state: &mut State, at: u64) {
    let answer = advanced(rt, alloc, plan, state, at);
    assert!(rt; answer.is_ok());
}

// The state after an event at 7.
fn at_seven(rt: &impl Abort, alloc: Global, plan: &Plan) -> State {
    let mut state = begun(rt, alloc, plan);
    takes(rt, alloc, plan, &mut state, 7);
    state
}

// Steps beside the old state, which stays as it was.
fn assert_beside(rt: &impl Abort, alloc: Global, plan: &Plan, old: &State) {
    let (next, answer) = stepped(rt, alloc, plan, old, 20);
    assert_answer(rt, alloc, &answer, "[0]", Some(20));
    assert_view(rt, alloc, &next, "(7, ([0, 0], (1, (2, 20))))");
    assert_view(rt, alloc, old, "(7, ([0], (0, (1, ()))))");
}

// That, and the state is the first one once it is renewed.
fn assert_kept_and_renewed(rt: &impl Abort, alloc: Global, plan: &Plan) {
    let mut state = at_seven(rt, alloc, plan);
    assert_beside(rt, alloc, plan, &state);
    renewed(rt, plan, &mut state);
    assert_view(rt, alloc, &state, "((), ([], (0, (0, ()))))");
}

#[test]
fn step_leaves_the_old_state_to_its_owner(rt: HostRuntime) {
    let plan = plan_of(&rt, rounds(rt.alloc()));
    assert_kept_and_renewed(&rt, rt.alloc(), &plan);
}
