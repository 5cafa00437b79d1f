//! Plays: what is done with the jobs of one share, and what each worker's run has to answer.
ghost use Rattle.std.specs.Prelude.{◌≡◌, ◌≤◌, false, length};
ghost use Rattle.sched_ticket.specs.View.{terms};
ghost use Rattle.sched_pool_claim.specs.Portion.{IsPartOf};

use super::jobs::{Paced, jobs_of, shown};
use super::*;
use sched_pool_claim::{Claims, Share};
use sched_task::{Clock, How, MidWords, VirtualClock};
use sched_time::Moment;
use std::alloc::{AllocGlobal, Global};
use std::cell::Cell;
use std::process::Abort;
use std::random::RandomSource;
use std::sync::{Mutex, Wait};

/// One step of a play.
#[derive(Clone, Copy, Drop)]
pub(crate) enum Step<'a> {
    /// The worker may take so many turns at the play's gate, and answers this.
    Gated(u64, Worked),
    /// The worker may take so many turns at an open gate, and answers this.
    Works(u64, Worked),
    /// These jobs are active.
    Active(&'a [usize]),
    /// So much is left of the job with this number, and it ended so.
    Left(usize, u64, Option<How>),
}

/// What is done with some jobs.
#[derive(Drop)]
pub(crate) struct Play<'a> {
    /// How many jobs the worker drives at a time.
    pub(crate) hold: usize,
    pub(crate) steps: &'a [Step<'a>],
    /// The worker's moment at the end. It begins at 0.
    pub(crate) ends_at: u64,
}

// A virtual clock, and the last moment that it answered to a wait.
#[derive(Drop)]
struct Seen<'a> {
    clock: VirtualClock,
    moment: &'a Cell<Moment>,
}

impl<'a> Clock for Seen<'a> {
    ghost use Rattle.std.specs.Prelude.{⊤};

    ghost tells = { λ _ _ _. ⊤ };

    ghost waits = { λ _ _ _ _. ⊤ };

    fn now(&mut self) -> Moment {
        self.clock.now()
    }

    fn wait_until(&mut self, until: Moment) -> Moment {
        let moment = self.clock.wait_until(until);
        self.moment.set(moment);
        moment
    }
}

// The claims of so many jobs, and one share of them.
fn claimed(rt: &impl Abort, alloc: Global, jobs: usize) -> (Claims, Share)
    requires { jobs ≤ 4096 }
    ensures part { IsPartOf result.0 result.1 }
    ensures jobs { result.0.terms ≡ terms jobs false }
{
    let (claims, mut shares) = Claims::share_out(alloc, jobs, 1).expect(rt, "there is memory");
    let share = shares.pop().expect(rt, "there is a share");
    (claims, share)
}

// Asserts how far a worker got.
fn gets(rt: &impl Abort, worked: Worked, want: Worked) {
    assert_eq!(rt; worked, want);
}

// Asserts which jobs are active.
fn are_active(rt: &impl Abort, active: &[usize], want: &[usize]) {
    assert_eq!(rt; active, want);
}

// Asserts what is left of a job, and how it ended.
fn is_left(rt: &impl Abort, number: usize, left: (u64, Option<How>), want: (u64, Option<How>)) {
    assert_eq!(rt; left, want, "job {number}");
}

fn place<'a>(rt: &impl Abort, jobs: &'a [Mutex<Paced>], number: usize) -> &'a Mutex<Paced> {
    jobs.get(number)
        .expect(rt, "there is a job with this number")
}

// Takes a step that is no call of the share.
fn look<R: Wait + Abort>(rt: &R, jobs: &[Mutex<Paced>], active: &[usize], step: &Step<'_>) {
    match step {
        Step::Active(want) => are_active(rt, active, want),
        Step::Left(number, left, over) => {
            let shown = shown(rt, place(rt, jobs, *number));
            is_left(rt, *number, shown, (*left, *over));
        }
        _ => {}
    }
}

// Works through the share at this gate. Of the run, the first is the turns, and the second what it answers.
fn drive<R, C: Clock, Q: Gate>(
    rt: &R,
    work: &Work<'_, Paced, Claims>,
    share: &mut Share,
    worker: &mut Station<C, MidWords>,
    gate: &Q,
    run: (u64, Worked),
)
where
    R: Wait + RandomSource + AllocGlobal + Abort,
    requires of { IsPartOf work.now.claims.now share.old }
    requires places { work.now.claims.now.terms.limit ≤ length work.now.jobs.now }
    ensures of { IsPartOf work.now.claims.now share.new }
{
    let worked = work_through(rt, work, share, worker, gate, run.0);
    gets(rt, worked, run.1);
}

// Takes one step.
fn take<R, C: Clock, Q: Gate>(
    rt: &R,
    work: &Work<'_, Paced, Claims>,
    share: &mut Share,
    worker: &mut Station<C, MidWords>,
    gate: &Q,
    step: &Step<'_>,
)
where
    R: Wait + RandomSource + AllocGlobal + Abort,
    requires of { IsPartOf work.now.claims.now share.old }
    requires places { work.now.claims.now.terms.limit ≤ length work.now.jobs.now }
    ensures of { IsPartOf work.now.claims.now share.new }
{
    match step {
        Step::Gated(turns, want) => drive(rt, work, share, worker, gate, (*turns, *want)),
        Step::Works(turns, want) => drive(rt, work, share, worker, &OpenGate, (*turns, *want)),
        _ => look(rt, work.jobs, share.active(), step),
    }
}

// Asserts the moment at the end.
fn ends(rt: &impl Abort, moment: Moment, at: u64) {
    assert_eq!(rt; moment.get(), at);
}

// Plays with this share of the jobs.
fn play_share<R, Q: Gate>(
    rt: &R,
    work: &Work<'_, Paced, Claims>,
    share: &mut Share,
    gate: &Q,
    play: &Play<'_>,
)
where
    R: Wait + RandomSource + AllocGlobal + Abort,
    requires of { IsPartOf work.now.claims.now share.old }
    requires places { work.now.claims.now.terms.limit ≤ length work.now.jobs.now }
{
    let start = Moment::new(0).expect(rt, "the moment is in range");
    let moment = Cell::new(start);
    let clock = Seen {
        clock: VirtualClock::at(start),
        moment: &moment,
    };
    let mut worker = Station::new(clock, MidWords, play.hold).expect(rt, "the hold is in range");
    for step in play.steps {
        take(rt, work, share, &mut worker, gate, step);
    }
    ends(rt, moment.get(), play.ends_at);
}

/// Plays with these jobs and this gate.
pub(crate) fn plays<R, Q: Gate>(rt: &R, jobs: &[Mutex<Paced>], gate: &Q, play: &Play<'_>)
where
    R: Wait + RandomSource + AllocGlobal + Abort,
{
    if jobs.len() > 4096 {
        panic!(rt; "more than 4,096 jobs");
    }
    let (claims, mut share) = claimed(rt, rt.alloc(), jobs.len());
    let work = Work {
        jobs,
        claims: &claims,
    };
    play_share(rt, &work, &mut share, gate, play);
}

/// Plays with the jobs that have these polls and pauses, at this gate.
pub(crate) fn plays_rows<R, Q: Gate>(rt: &R, rows: &[(u64, Option<u64>)], gate: &Q, play: &Play<'_>)
where
    R: Wait + RandomSource + AllocGlobal + Abort,
{
    let jobs = jobs_of(rt, rt.alloc(), rows);
    plays(rt, &jobs, gate, play);
}
