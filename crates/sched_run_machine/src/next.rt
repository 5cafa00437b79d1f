//! What is next.
ghost use Rattle.std.specs.Prelude.{◌≡◌, ◌<◌, ◌≤◌, IfSome, IsSomeAnd, MatchBool};
ghost use Rattle.sched_run_machine.specs.Next.{start_in};

use sched_task::How;
use sched_time::Moment;

/// What a host is to do for a retry.
#[derive(Clone, Copy, Debug, PartialEq, Eq)]
pub enum Next {
    /// Poll: no run was begun.
    Poll,
    /// Run the call, and report how it went: a run is under way.
    Run,
    /// Wait until this moment, and poll.
    Wait(Moment),
    /// Nothing: the retry is over.
    Over(How),
}

impl Next {
    /// The moment to wait for, if any.
    pub fn start(&self) -> Option<Moment>
        ensures { result ≡ start_in self.now }
    {
        match self {
            Next::Wait(start) => Some(*start),
            Next::Poll | Next::Run | Next::Over(_) => None,
        }
    }
}

/// Whether this moment is waited for, and is later than `now`.
pub fn is_later(due: Option<Moment>, now: Moment) -> bool
    ensures { MatchBool result (IsSomeAnd due (λ m. now < m)) (IfSome due (λ m. m ≤ now)) }
{
    match due {
        Some(start) => now.get() < start.get(),
        None => false,
    }
}
