//! Workers at an open gate.
use super::plays::{Play, Step, plays_rows};
use super::*;

// In turn: the first poll of each ends job 0, the second of job 1 ends it, and the third of job 2 is not made.
#[test]
fn further_turns_go_on(rt: HostRuntime) {
    let play = Play {
        hold: 3,
        steps: &[
            Step::Works(5, after(5, Finish::TurnsSpent)),
            Step::Active(&[2]),
            Step::Left(2, 1, None),
            Step::Works(1, after(1, Finish::AllOver)),
            Step::Active(&[]),
        ],
        ends_at: 0,
    };
    plays_rows(&rt, &[(1, None), (2, None), (3, None)], &OpenGate, &play);
}

// Of each of three jobs two polls and the wait between them: one after the other, or several at a time.
#[test]
fn as_many_at_a_time_as_are_held(rt: HostRuntime) {
    let jobs = [(2, Some(100)), (2, Some(100)), (2, Some(100))];
    for (hold, turns, ends_at) in [(1, 9, 300), (2, 8, 200), (3, 7, 100)] {
        let play = Play {
            hold,
            steps: &[Step::Works(20, after(turns, Finish::AllOver))],
            ends_at,
        };
        plays_rows(&rt, &jobs, &OpenGate, &play);
    }
}
