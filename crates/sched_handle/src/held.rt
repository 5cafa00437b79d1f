//! What a handle holds.
ghost use Rattle.std.specs.Prelude.{◌≡◌, IfOk, IfErr};
ghost use Rattle.sched_handle.specs.Held.{kind_of};
ghost use Rattle.sched_handle.specs.declared.held.Held.TheVariants as what;
ghost use Rattle.sched_handle.specs.declared.status.Status.TheVariants as status;

use crate::status::Status;
use sched_driver_stepper::{Compiled, Stepper};
use sched_limit_handle::Held as Limits;
use sched_pace::OnPace;
use sched_run_machine::{Machine, Until};
use sched_ticket_draws::Drawing;
use sched_ticket_lease::Leased;
use std::alloc::Global;
use std::mem;

/// What a handle holds.
#[derive(Drop)]
pub enum Held {
    /// Room for what is being made.
    Room,
    /// A policy, which other handles and retries may hold too.
    Policy(Compiled),
    /// A pass, with what it draws on.
    Pass(Drawing),
    /// A retry, which keeps no journal, and has a deadline or none.
    Retry(Machine<Until<Stepper>, Drawing>),
    /// A leased pass.
    Leased(Leased),
    /// One limit or several at once, in a block of their own: they are larger than all else.
    Limits(Box<Limits>),
    /// A pass of a pace.
    Pace(OnPace),
}

/// Which kind of thing a handle holds, by the names that `Held` has for them.
#[derive(Clone, Copy, PartialEq, Eq)]
pub enum Kind {
    Room,
    Policy,
    Pass,
    Retry,
    Leased,
    Limits,
    Pace,
}

impl Held {
    /// Which kind of thing it is.
    pub fn kind(&self) -> Kind
        ensures { result ≡ kind_of self.now }
    {
        match self {
            Held::Room => Kind::Room,
            Held::Policy(_) => Kind::Policy,
            Held::Pass(_) => Kind::Pass,
            Held::Retry(_) => Kind::Retry,
            Held::Leased(_) => Kind::Leased,
            Held::Limits(_) => Kind::Limits,
            Held::Pace(_) => Kind::Pace,
        }
    }

    /// The same in a block of its own.
    #[inline(always)]
    pub(crate) fn boxed(self, alloc: Global) -> Result<Box<Held>, Status>
        ensures ok { IfOk result (λ b. b.value ≡ self) }
        ensures err { IfErr result (λ s. s ≡ status.NoMemory) }
    {
        match Box::new(alloc, self) {
            Ok(held) => Ok(held),
            Err(_) => Err(Status::NoMemory),
        }
    }

    /// The same in the place of the room in this block, which needs no drop.
    #[inline(always)]
    pub(crate) fn within(self, mut room: Box<Held>) -> Box<Held>
        requires { room.value ≡ what.Room }
        ensures { result.value ≡ self }
    {
        match mem::replace(&mut *room, self) {
            Held::Room => {}
            Held::Policy(_) => unreachable!(),
            Held::Pass(_) => unreachable!(),
            Held::Retry(_) => unreachable!(),
            Held::Leased(_) => unreachable!(),
            Held::Limits(_) => unreachable!(),
            Held::Pace(_) => unreachable!(),
        }
        room
    }
}
