use super::{assert_polled, millis, moment, pausing, runs};
use sched_task::Clock;
use sched_time::{Millis, Moment};
use std::alloc::Global;
use std::process::Abort;

// Goes on by this much at each wait, whatever is waited for, and counts the waits.
#[derive(Drop)]
struct Stepping {
    at: Moment,
    step: Millis,
    waits: u64,
}

impl Clock for Stepping {
    ghost use Rattle.std.specs.Prelude.{⊤};

    ghost tells = { λ _ _ _. ⊤ };

    ghost waits = { λ _ _ _ _. ⊤ };

    fn now(&mut self) -> Moment {
        self.at
    }

    fn wait_until(&mut self, _until: Moment) -> Moment {
        self.at = self.at.plus(self.step);
        self.waits = self.waits.wrapping_add(1);
        self.at
    }
}

#[test]
fn an_early_answer_is_waited_on(rt: HostRuntime) {
    let mut tasks = [pausing(&rt, rt.alloc(), 3, 100)];
    let mut clock = Stepping {
        at: moment(&rt, 0),
        step: millis(&rt, 1),
        waits: 0,
    };
    runs(&rt, &mut tasks, &mut clock, 1000, Ok(203));
    assert_eq!(rt; clock.waits, 200);
    assert_polled(&rt, &tasks[0], &[0, 100, 200]);
}

// Tells these moments, one at each call of either kind, and then the last there is; it notes what is waited for.
#[derive(Drop)]
struct Telling {
    moments: Vec<Moment>,
    last: Moment,
    next: usize,
    waited: Vec<Moment>,
}

impl Telling {
    fn new(rt: &impl Abort, alloc: Global, moments: &[u64]) -> Telling {
        let mut told = Vec::new(alloc);
        for at in moments {
            let pushed = told.push(moment(rt, *at));
            assert!(rt; pushed.is_ok(), "there is memory");
        }
        Telling {
            moments: told,
            last: moment(rt, 4611686018427387903),
            next: 0,
            waited: Vec::new(alloc),
        }
    }

    fn tell(&mut self) -> Moment {
        let told = self.moments.get(self.next).copied();
        self.next = self.next.saturating_add(1);
        told.unwrap_or(self.last)
    }
}

impl Clock for Telling {
    ghost use Rattle.std.specs.Prelude.{⊤};

    ghost tells = { λ _ _ _. ⊤ };

    ghost waits = { λ _ _ _ _. ⊤ };

    fn now(&mut self) -> Moment {
        self.tell()
    }

    fn wait_until(&mut self, until: Moment) -> Moment {
        let _noted = self.waited.push(until);
        self.tell()
    }
}

// The call asks once, each poll asks again, and a wait's answer is one more: two tasks at 1000 that wait for 1100 and
// 1200; the clock goes back to 300 at the poll of the first, which is then waited for again.
#[test]
fn a_clock_that_goes_back_is_waited_on(rt: HostRuntime) {
    let mut tasks = [
        pausing(&rt, rt.alloc(), 2, 100),
        pausing(&rt, rt.alloc(), 2, 200),
    ];
    let mut clock = Telling::new(
        &rt,
        rt.alloc(),
        &[1000, 1000, 1000, 1150, 300, 1150, 1150, 1200, 1200],
    );
    runs(&rt, &mut tasks, &mut clock, 99, Ok(7));
    for (until, want) in clock.waited.iter().zip([1100, 1100, 1200]) {
        assert_eq!(rt; until.get(), want);
    }
    assert_eq!(rt; clock.waited.len(), 3);
    assert_polled(&rt, &tasks[0], &[1000, 1150]);
    assert_polled(&rt, &tasks[1], &[1000, 1200]);
}
