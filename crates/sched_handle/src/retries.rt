//! Calls on retries.
ghost use Rattle.std.specs.Prelude.{◌≡◌, [], IfErr};
ghost use Rattle.sched_driver_stepper.specs.Standing.{standing_after};
ghost use Rattle.sched_handle.specs.Again.{Again};
ghost use Rattle.sched_handle.specs.Retries.{IsFresh, Begins, Retries};
ghost use Rattle.sched_handle.specs.Replies.{answer_in};
ghost use Rattle.sched_handle.specs.Retries.{IsPoll, RetryPolls, Polls, Rans, Shows, Cancels};
ghost use Rattle.sched_handle.specs.Retries.{reply_to, how_number, left_number};

use crate::held::Held;
use crate::passes::split_off;
use crate::replies::Reply;
use crate::status::Status;
use sched_driver_stepper::{Compiled, Stepper};
use sched_effect::Ran;
use sched_run_machine::{Machine, Next, Until};
use sched_task::{How, RunFault};
use sched_ticket_draws::Drawing;
use sched_time::{Millis, Moment, Tick};
use std::alloc::Global;

impl Held {
    /// A retry that has not begun, of the policy, with a pass that is split off. Past the deadline, where there is one,
    /// it begins no run but the first.
    #[inline(always)]
    pub fn retry(
        alloc: Global,
        policy: &Held,
        pass: &mut Held,
        deadline: Option<Moment>,
    ) -> Result<Box<Held>, Status>
        ensures { Retries deadline policy.now pass.old result pass.new }
    {
        let plan = policy.policy()?;
        let drawing = pass.pass_mut()?;
        match plan.stepper_by_record() {
            Some(stepper) => begun(alloc, stepper, deadline, drawing),
            None => begun_by_tree(alloc, plan, deadline, drawing),
        }
    }

    /// Ends the run under way as it is reported, where one is, and begins one where one may begin. What the retry is at
    /// then is written into `next`, which stays as it is where the call is refused.
    #[inline(always)]
    pub fn poll(
        &mut self,
        alloc: Global,
        tick: &Tick,
        report: Option<Ran>,
        next: &mut Reply,
    ) -> Result<(), Status>
        ensures polls { Polls tick.entry.now report self.old (answer_in result next.new) self.new }
        ensures refused { IfErr result (λ _. next.new ≡ next.old) }
    {
        match self {
            Held::Retry(retry) => poll_retry(alloc, retry, tick, report, next),
            Held::Room => Err(Status::WrongKind),
            Held::Policy(_) => Err(Status::WrongKind),
            Held::Pass(_) => Err(Status::WrongKind),
            Held::Leased(_) => Err(Status::WrongKind),
            Held::Limits(_) => Err(Status::WrongKind),
            Held::Pace(_) => Err(Status::WrongKind),
        }
    }

    /// Begins a run at the first of these moments, where one may begin, and ends it at the second as it is reported.
    /// What the retry is at then is written into `next`, which stays as it is where the call is refused.
    #[inline(always)]
    pub fn ran(
        &mut self,
        alloc: Global,
        began: &Tick,
        ended: &Tick,
        report: Option<Ran>,
        next: &mut Reply,
    ) -> Result<(), Status>
        ensures rans { Rans began.entry.now ended.entry.now report self.old (answer_in result next.new) self.new }
        ensures refused { IfErr result (λ _. next.new ≡ next.old) }
    {
        match self {
            Held::Retry(retry) => {
                begin_run(retry, began);
                poll_retry(alloc, retry, ended, report, next)
            }
            Held::Room => Err(Status::WrongKind),
            Held::Policy(_) => Err(Status::WrongKind),
            Held::Pass(_) => Err(Status::WrongKind),
            Held::Leased(_) => Err(Status::WrongKind),
            Held::Limits(_) => Err(Status::WrongKind),
            Held::Pace(_) => Err(Status::WrongKind),
        }
    }

    /// Begins the retry again with the pass that it has, and with this deadline or none. One that is not over is
    /// cancelled first. It takes no memory.
    #[inline(always)]
    pub fn again(&mut self, deadline: Option<Moment>) -> Result<(), Status>
        ensures { Again deadline self.old result self.new }
    {
        match self {
            Held::Retry(retry) => {
                retry.again(deadline);
                Ok(())
            }
            Held::Room => Err(Status::WrongKind),
            Held::Policy(_) => Err(Status::WrongKind),
            Held::Pass(_) => Err(Status::WrongKind),
            Held::Leased(_) => Err(Status::WrongKind),
            Held::Limits(_) => Err(Status::WrongKind),
            Held::Pace(_) => Err(Status::WrongKind),
        }
    }

    /// Ends a retry that is not over as cancelled.
    pub fn cancel(&mut self) -> Result<(), Status>
        ensures { Cancels self.old result self.new }
    {
        match self {
            Held::Retry(retry) => {
                retry.cancel();
                Ok(())
            }
            Held::Room => Err(Status::WrongKind),
            Held::Policy(_) => Err(Status::WrongKind),
            Held::Pass(_) => Err(Status::WrongKind),
            Held::Leased(_) => Err(Status::WrongKind),
            Held::Limits(_) => Err(Status::WrongKind),
            Held::Pace(_) => Err(Status::WrongKind),
        }
    }
}

// A retry that has not begun, by this stepper, with a pass that is split off this one.
#[inline(always)]
fn begun(
    alloc: Global,
    stepper: Stepper,
    deadline: Option<Moment>,
    pass: &mut Drawing,
) -> Result<Box<Held>, Status>
    requires { stepper ≡ standing_after stepper.plan [] }
    ensures { Begins deadline stepper.plan pass.old result pass.new }
{
    let (part, room) = split_off(alloc, pass)?;
    Ok(fresh(stepper, deadline, part).within(room))
}

// The same by a stepper of this plan, which has no record, or there is no memory.
#[cold]
#[inline(never)]
#[tactic(auto, using(crate::proofs::Splits::no_room))]
fn begun_by_tree(
    alloc: Global,
    plan: &Compiled,
    deadline: Option<Moment>,
    pass: &mut Drawing,
) -> Result<Box<Held>, Status>
    ensures { Begins deadline plan.now pass.old result pass.new }
{
    match plan.stepper(alloc) {
        Ok(stepper) => begun(alloc, stepper, deadline, pass),
        Err(_) => Err(Status::NoMemory),
    }
}

// A retry that has not begun.
#[inline(always)]
fn fresh(stepper: Stepper, deadline: Option<Moment>, drawing: Drawing) -> Held
    requires { stepper ≡ standing_after stepper.plan [] }
    ensures { IsFresh stepper.plan deadline drawing result }
{
    let until = Until::new(stepper, deadline);
    let retry = Machine::new(until, drawing);
    Held::Retry(retry)
}

// Ends the run under way as it is reported, where one is, and begins one where one may begin.
#[inline(always)]
fn poll_retry(
    alloc: Global,
    retry: &mut Machine<Until<Stepper>, Drawing>,
    tick: &Tick,
    report: Option<Ran>,
    next: &mut Reply,
) -> Result<(), Status>
    ensures polls { RetryPolls tick.entry.now report retry.old (answer_in result next.new) retry.new }
    ensures refused { IfErr result (λ _. next.new ≡ next.old) }
{
    match report {
        None => {
            poll_at(retry, tick, next);
            Ok(())
        }
        Some(ran) => {
            if !retry.report(alloc, tick, ran) {
                return Err(Status::NoRun);
            }
            poll_at(retry, tick, next);
            Ok(())
        }
    }
}

// Begins a run where one may begin, or ends the retry by its deadline, and writes what it is at then.
#[inline(always)]
fn poll_at(retry: &mut Machine<Until<Stepper>, Drawing>, tick: &Tick, next: &mut Reply)
    ensures polls { IsPoll retry.old tick.entry.now retry.new }
    ensures shows { Shows retry.new tick.entry.now.now next.new }
{
    begin_run(retry, tick);
    *next = reply(retry, tick.now);
}

// Begins a run where one may begin, or ends the retry by its deadline.
#[inline(always)]
fn begin_run(retry: &mut Machine<Until<Stepper>, Drawing>, tick: &Tick)
    ensures { IsPoll retry.old tick.entry.now retry.new }
{
    retry.poll(tick);
}

// What the retry is at, at this moment, as C sees it.
#[inline(always)]
fn reply(retry: &Machine<Until<Stepper>, Drawing>, now: Moment) -> Reply
    ensures { Shows retry.now now result }
{
    let next = retry.next();
    let late = retry.driver().late_start();
    let granted = retry.granted();
    let runs = retry.told();
    let left = left_of(retry.driver().left(now));
    reply_to(next, late.is_some(), granted, runs, left)
}

fn reply_to(next: Next, is_late: bool, granted: u64, runs: u64, left: u64) -> Reply
    ensures { result ≡ reply_to next is_late granted runs left }
{
    let (what, how, until) = match next {
        Next::Poll => (0, 0, 0),
        Next::Run => (1, 0, 0),
        Next::Wait(start) => (2, 0, start.get()),
        Next::Over(how) => (3, how_code(how, is_late), 0),
    };
    Reply {
        what,
        how,
        until,
        granted,
        runs,
        left,
    }
}

// The number by which C knows how a retry ended, where the start that its plan has is past its deadline or not.
fn how_code(how: How, is_late: bool) -> u32
    ensures { result ≡ how_number how is_late }
{
    match how {
        How::Won => 1,
        How::ScheduleDone => { if is_late { 8 } else { 2 } }
        How::BudgetRefused => 3,
        How::DeadlinePassed => 8,
        How::Cancelled => 4,
        How::Broken(RunFault::NoMemory) => 5,
        How::Broken(RunFault::JournalFull) => 6,
        How::Broken(RunFault::Backwards) => 7,
        How::Failed => 9,
    }
}

// The number by which C knows what is left up to a deadline, or that there is none.
fn left_of(left: Option<Millis>) -> u64
    ensures { result ≡ left_number left }
{
    match left {
        Some(left) => left.get(),
        None => u64::MAX,
    }
}
