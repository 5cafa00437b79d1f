//! Handles.
ghost use Rattle.std.specs.Prelude.{◌≡◌, false, Option, Some, None, is_some, option_map, IfOk, IfErr};
ghost use Rattle.sched_handle.specs.declared.held.Held.{Held as What};
ghost use Rattle.sched_handle.specs.declared.held.Held.TheVariants as what;
ghost use Rattle.sched_handle.specs.Handle.{handle_owns, what_coded};
ghost use Rattle.sched_handle.specs.Fills.{Fills, Frees, HasNoPolicy};

use crate::held::{Held, Kind};
use crate::status::Status;
use sched_parts::Parts;
use sched_plan::SharedPlan;
use std::alloc::Global;
use std::marker::Model;
use std::mem;

/// A pointer to what it holds, or a null pointer. C sees the pointer alone.
#[repr(C)]
pub struct Handle {
    ptr: *mut u8,
    alloc: Global,
    pub ghost held: { Option What } by { what_coded },
}

impl Model for Handle {
    ghost also_owns = { λ h. handle_owns h.alloc h.ptr h.held };
}

impl Handle {
    /// Takes what the handle holds out of it.
    pub fn take(&mut self, alloc: Global) -> Option<Box<Held>>
        ensures held { option_map (λ b. b.value) result ≡ self.old.held }
        ensures empty { self.new.held ≡ None }
    {
        let handle = mem::replace(self, Handle::nothing(alloc));
        match handle.into_parts() {
            Some(parts) => Some(parts.into_box()),
            None => None,
        }
    }

    /// Puts this into a handle that holds nothing.
    pub fn put(&mut self, held: Box<Held>)
        requires { self.old.held ≡ None }
        ensures { self.new.held ≡ Some held.value }
    {
        let empty = mem::replace(self, Handle::of_parts(Parts::of(held)));
        match empty.into_parts() {
            None => {}
            Some(_) => unreachable!(),
        }
    }

    ghost use Rattle.std.specs.Borrow.{LendsIf, sem};
    ghost use Rattle.sched_handle.specs.contracts.handle.Handle.{the_row as handle_row};
    ghost use Rattle.sched_handle.specs.contracts.held.Held.{the_row as held_row};

    /// What the handle holds, to be changed where it is.
    pub fn as_mut(&mut self) -> Option<&mut Held>
        ensures* lends { sem 𝓛 (LendsIf handle_row held_row self.entry result
            (λ held. record self.old { held = Some held }) self.old) }
        ensures held { option_map (λ held. held.now) result ≡ self.old.held }
    {
        let ptr = self.ptr as *mut Held;
        if ptr.is_null() {
            return None;
        }
        Some(unsafe { &mut *ptr })
    }

    /// Whether the handle holds something.
    pub fn is_full(&mut self) -> bool
        ensures full { result ≡ is_some self.old.held }
        ensures kept { self.new.held ≡ self.old.held }
        ensures empty { result ≡ false → self.new.held ≡ None }
    {
        match self.as_mut() {
            Some(_) => true,
            None => false,
        }
    }

    /// Puts what was made into a handle that holds nothing, and answers the number of the status.
    pub fn fill(&mut self, made: Result<Box<Held>, Status>) -> u32
        requires { self.old.held ≡ None }
        ensures { Fills made self.old.held result self.new.held }
    {
        match made {
            Ok(held) => {
                self.put(held);
                0
            }
            Err(status) => status.code(),
        }
    }

    /// The plan of the policy that the handle holds, with one more owner.
    pub fn plan(&mut self) -> Result<SharedPlan, Status>
        ensures kept { self.new.held ≡ self.old.held }
        ensures ok { IfOk result (λ plan. self.old.held ≡ Some (what.Policy plan)) }
        ensures err { IfErr result (HasNoPolicy self.old.held) }
    {
        let Some(held) = self.as_mut() else {
            return Err(Status::Empty);
        };
        held.plan()
    }

    /// Frees what the handle holds, where it is of this kind, and answers the number of the status.
    pub fn free(&mut self, alloc: Global, kind: Kind) -> u32
        ensures { Frees kind self.old.held result self.new.held }
    {
        let Some(held) = self.as_mut() else {
            return Status::Empty.code();
        };
        if held.kind() != kind {
            return Status::WrongKind.code();
        }
        drop(self.take(alloc));
        0
    }

    fn of_parts(parts: Parts<Held, Global>) -> Handle
        ensures { result.held ≡ Some parts.value }
    {
        let Parts { ptr, alloc } = parts;
        Handle {
            ptr: ptr as *mut u8,
            alloc,
        }
    }

    fn nothing(alloc: Global) -> Handle
        ensures { result.held ≡ None }
    {
        Handle {
            ptr: std::ptr::null_mut(),
            alloc,
        }
    }

    fn into_parts(self) -> Option<Parts<Held, Global>>
        ensures { option_map (λ parts. parts.value) result ≡ self.held }
    {
        let Handle { ptr, alloc } = self;
        if ptr.is_null() {
            return None;
        }
        Some(Parts {
            ptr: ptr as *mut Held,
            alloc,
        })
    }
}

impl Drop for Handle {
    fn drop(self) {
        if let Some(parts) = self.into_parts() {
            drop(parts.into_box());
        }
    }
}
