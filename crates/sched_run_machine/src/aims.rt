//! What machines are for.
ghost use Rattle.std.specs.Prelude.{◌≡◌, Bool};
ghost use Rattle.sched_task_law.specs.Kind.{Kind, keeps, draws};
ghost use Rattle.sched_run_machine.specs.Aims.{Calls};

use sched_effect::Ran;
use sched_task::How;
use sched_time::Millis;

/// Which run ends a machine, and whether it draws a ticket where its schedule goes on.
pub trait Aims: Drop {
    // The kind of task that a machine with this aim makes, by whether its journal is kept.
    ghost kind: { Bool → Kind };

    /// The code with which this run steps the schedule, or how it ends the machine.
    fn called(ran: Ran) -> Result<Millis, How>
        ensures { (kept : Bool) → Calls (kind kept) ran result };

    /// Whether each start planned takes a ticket.
    fn draws() -> bool
        ensures { (kept : Bool) → result ≡ draws (kind kept) };

    // Its journal is kept where that is said.
    ghost as_kept: { (kept : Bool) → keeps (kind kept) ≡ kept };
}

/// The aim of a retry: to run until a success, again after each failure, with a ticket for that.
#[derive(Drop)]
pub struct Retries;

/// The aim of a repeat: to run again after each success, until a failure. It draws no ticket.
#[derive(Drop)]
pub struct Repeats;

impl Aims for Retries {
    ghost use Rattle.std.specs.Prelude.{refl};
    ghost use Rattle.sched_task_law.specs.Kind.{a_retry};

    ghost kind = { a_retry };

    ghost as_kept = { λ _. refl };

    fn called(ran: Ran) -> Result<Millis, How> {
        match ran {
            Ran::Won(_) => Err(How::Won),
            Ran::Lost(code) => Ok(code),
        }
    }

    fn draws() -> bool {
        true
    }
}

impl Aims for Repeats {
    ghost use Rattle.std.specs.Prelude.{refl};
    ghost use Rattle.sched_task_law.specs.Kind.{a_repeat};

    ghost kind = { a_repeat };

    ghost as_kept = { λ _. refl };

    fn called(ran: Ran) -> Result<Millis, How> {
        match ran {
            Ran::Won(code) => Ok(code),
            Ran::Lost(_) => Err(How::Failed),
        }
    }

    fn draws() -> bool {
        false
    }
}
