//! Effects that are retried and repeated as a schedule says: the tasks, with what they are made of and what drives
//! them. Each name keeps the clauses of the crate that it comes from. It stands on `sched_closure`, `sched_retry`,
//! `sched_retry_or` and what those stand on.
//!
//! `retry_call` calls a closure until it succeeds, again after each failure as its driver's schedule says, with a
//! ticket for each retry: of a budget or a quota that others share (`OnBudget`, `OnQuota`), or of no budget
//! (`Unlimited`). It blocks until that is over. What drives it is a `Machine`, which is made at the first failure: by a
//! `Stepper`, which keeps nothing of the runs and has no last event, or by a `Driver`, which keeps a journal of 65,536
//! events; round either an `Until` sets a deadline. A program that makes its runs itself polls the machine, and reports
//! how each run went. `limited_call` does the same under a limit that first calls ask too (`OnAsks`). `repeat_call`
//! calls a closure again after each success, by the machine of a repeat (`RepeatMachine`).
//!
//! A `Retry` does the same with an effect, as a task that is polled. A `RetryOr` asks a fallback in the end, and a
//! `Repeat` runs again after each success. Each is polled by hand with `poll_at`, or is a future by `Timed`, which
//! `block_on` runs to its end.
//!
//! All that one retry names is here: a program that stands on this crate alone needs no other line in crates.txt.
#![tactic(auto)]

#[cfg(test)]
mod tests;

pub use futures::Future;
pub use futures::executor::block_on;
pub use futures::task::{Context, Poll};
pub use rand_core::Rng;
pub use sched_closure::{CallEnding, RepeatCallEnding, limited_call, repeat_call, retry_call};
pub use sched_driver::{DriveFault, Driver, Event};
pub use sched_driver_stepper::{StepFault, Stepper};
pub use sched_effect::{
    Action, Call, Code, Coded, Effect, Fallback, FutureAction, FutureCall, Ran, Scripted, Tagged,
};
pub use sched_limit::{Adaptive, Breaker, Bucket, InFlight, Refusal as LimitRefusal, Throttle};
pub use sched_limit_draws::{Costs, OnAsks};
pub use sched_limit_request::{Asks, Both, OnLimit, OnThrottle, SplitFault};
pub use sched_plan::{Fold, Plan, PlanFault, SharedPlan, Side, Test, Val};
pub use sched_retry::{Ending, Repeat, Rerun, Retry};
pub use sched_retry_or::{RetryOr, RetryOrEnding};
pub use sched_run_machine::{
    Aims, Drives, GivesOutput, Machine, Next, RepeatMachine, Repeats, Retries, Until,
};
pub use sched_task::{
    Clock, How, MidWords, RunFault, SystemClock, SystemWords, Task, TimeSource, Timed,
    VirtualClock, four_words,
};
pub use sched_ticket::{Budget, Pass, PassesOut, Refusal, TicketFault};
pub use sched_ticket_draws::{Draws, OnBudget, OnQuota, Quiet, RefersTo, Unlimited};
pub use sched_ticket_quota::{
    Pass as QuotaPass, PassesOut as QuotaPassesOut, Quota, QuotaFault, Refusal as QuotaRefusal,
    Terms, Usage,
};
pub use sched_time::{Decision, FAR, Interval, Millis, Moment, NoMemory, Tick};
