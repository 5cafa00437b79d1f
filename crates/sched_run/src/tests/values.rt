//! An ending hands out the very item or fault that the last run gave: here all have one code, and their values differ.
use super::*;
use futures::task::Context;

// An action that ends one way in each of its first runs, and the other way in the one with this number.
#[derive(Drop)]
pub(super) struct Tries {
    runs: u64,
    turn: u64,
    wins: bool,
}

impl Tries {
    // Fails until this run, which succeeds.
    pub(super) fn winning(turn: u64) -> Tries {
        Tries {
            runs: 0,
            turn,
            wins: true,
        }
    }

    // Succeeds until this run, which fails.
    fn losing(turn: u64) -> Tries {
        Tries {
            runs: 0,
            turn,
            wins: false,
        }
    }
}

// A value with the one code that all have.
fn tagged(value: u64) -> Tagged<u64> {
    Tagged {
        value,
        code: Millis::from(7),
    }
}

impl Action for Tries {
    type Item = Tagged<u64>;

    type Fault = Tagged<u64>;

    fn run(&mut self) -> Result<Tagged<u64>, Tagged<u64>> {
        self.runs = self.runs.saturating_add(1);
        if (self.runs == self.turn) == self.wins {
            Ok(tagged(self.runs))
        } else {
            Err(tagged(self.runs))
        }
    }
}

// How a task ended, and the value that its ending holds.
pub(super) type Told = (&'static str, u64);

// A task of tries.
pub(super) trait Hands: Task {
    // What its ending holds, where that is an item or a fault. The ending is taken.
    fn handed(&mut self) -> Option<Told>;
}

impl<D: Draws, A: Aims> Hands for Rerun<Call<Tries>, D, Driver, A> {
    fn handed(&mut self) -> Option<Told> {
        match self.take_ending() {
            Some(Ending::Won(item)) => Some(("won", item.value)),
            Some(Ending::Failed(fault)) => Some(("failed", fault.value)),
            Some(Ending::ScheduleDone(Ok(item))) => Some(("done", item.value)),
            Some(Ending::ScheduleDone(Err(fault))) => Some(("done by a failure", fault.value)),
            Some(Ending::BudgetRefused(fault)) => Some(("refused", fault.value)),
            _ => None,
        }
    }
}

// The task, at its end by a future, hands out this value.
fn assert_hands<R, T: Hands>(rt: &R, task: T, want: Told)
where
    R: Wait + RandomSource + AllocGlobal + Abort,
{
    let handed = finish(rt, task)
        .handed()
        .expect(rt, "a value is handed out");
    assert_eq!(rt; handed, want);
}

// A retry of these tries hands out this value, by this many recurrences and tickets.
fn retry_hands<R>(rt: &R, tries: Tries, recurs: u64, limit: u64, want: Told)
where
    R: Wait + RandomSource + AllocGlobal + Abort,
{
    let alloc = rt.alloc();
    let (budget, pass) = budget(rt, alloc, limit);
    let driver = driver(rt, alloc, Plan::recurs(recurs));
    let drawing = OnBudget::new(pass, &budget);
    let retry = Retry::new(alloc, Call::new(alloc, tries), driver, drawing);
    assert_hands(rt, retry, want);
}

#[test]
fn retry_hands_out_the_last_value(rt: HostRuntime) {
    retry_hands(&rt, Tries::winning(3), 5, 100, ("won", 3));
    let done = ("done by a failure", 3);
    retry_hands(&rt, Tries::winning(99), 2, 100, done);
    retry_hands(&rt, Tries::winning(99), 5, 1, ("refused", 2));
}

// A fallback that answers with a hundred more than the value of the fault that it is asked with: an item where it
// spares one, else a fault.
#[derive(Drop)]
pub(super) struct Hundred {
    alloc: Global,
    spares: bool,
    asked: Option<(Millis, Val)>,
    answered: Option<Ran>,
}

impl Hundred {
    pub(super) fn new(alloc: Global, spares: bool) -> Hundred {
        Hundred {
            alloc,
            spares,
            asked: None,
            answered: None,
        }
    }
}

impl Fallback<Call<Tries>> for Hundred {
    ghost asked = { λ hundred. hundred.asked };

    ghost answered = { λ hundred. hundred.answered };

    fn poll_fallback(
        &mut self,
        fault: &Tagged<u64>,
        output: &Val,
        _cx: &mut Context<'_>,
    ) -> Poll<Result<Result<Tagged<u64>, Tagged<u64>>, NoMemory>> {
        let Ok(output) = output.copy(self.alloc) else {
            return Poll::Ready(Err(NoMemory));
        };
        self.asked = Some((fault.code(), output));
        let told = tagged(fault.value.saturating_add(100));
        if self.spares {
            self.answered = Some(Ran::Won(told.code()));
            Poll::Ready(Ok(Ok(told)))
        } else {
            self.answered = Some(Ran::Lost(told.code()));
            Poll::Ready(Ok(Err(told)))
        }
    }

    fn asked(&self) -> Option<(Millis, &Val)> {
        match &self.asked {
            Some((code, output)) => Some((*code, output)),
            None => None,
        }
    }

    fn answered(&self) -> Option<Ran> {
        self.answered
    }
}

impl<D: Draws> Hands for RetryOr<Call<Tries>, D, Hundred> {
    fn handed(&mut self) -> Option<Told> {
        match self.take_ending() {
            Some(RetryOrEnding::Won(item)) => Some(("won", item.value)),
            Some(RetryOrEnding::Fallen(Ok(item))) => Some(("fallen", item.value)),
            Some(RetryOrEnding::Fallen(Err(fault))) => Some(("fallen to a failure", fault.value)),
            _ => None,
        }
    }
}

// A retry of these tries with that fallback hands out this value, by two recurrences.
fn retry_or_hands<R>(rt: &R, tries: Tries, spares: bool, want: Told)
where
    R: Wait + RandomSource + AllocGlobal + Abort,
{
    let alloc = rt.alloc();
    let (budget, pass) = budget(rt, alloc, 100);
    let driver = driver(rt, alloc, Plan::recurs(2));
    let hundred = Hundred::new(alloc, spares);
    let calls = Call::new(alloc, tries);
    let drawing = OnBudget::new(pass, &budget);
    let retry = RetryOr::new(alloc, calls, driver, drawing, hundred);
    assert_hands(rt, retry, want);
}

#[test]
fn retry_or_hands_out_the_last_value(rt: HostRuntime) {
    retry_or_hands(&rt, Tries::winning(2), true, ("won", 2));
    retry_or_hands(&rt, Tries::winning(99), true, ("fallen", 103));
    let fallen = ("fallen to a failure", 103);
    retry_or_hands(&rt, Tries::winning(99), false, fallen);
}

#[test]
fn repeat_hands_out_the_last_value(rt: HostRuntime) {
    let alloc = rt.alloc();
    let driver = driver(&rt, alloc, Plan::recurs(5));
    let calls = Call::new(alloc, Tries::losing(3));
    let repeat = Repeat::new(alloc, calls, driver);
    assert_hands(&rt, repeat, ("failed", 3));
}

#[test]
fn repeat_that_is_done_hands_out_its_last_item(rt: HostRuntime) {
    let alloc = rt.alloc();
    let driver = driver(&rt, alloc, Plan::recurs(2));
    let calls = Call::new(alloc, Tries::losing(99));
    let repeat = Repeat::new(alloc, calls, driver);
    assert_hands(&rt, repeat, ("done", 3));
}
