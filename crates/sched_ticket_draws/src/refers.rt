//! How a value refers to the budget that others share.
ghost use Rattle.std.specs.Prelude.{◌≡◌, IfOk};

use sched_time::NoMemory;
use std::alloc::Global;
use std::sync::Arc;

/// What leads to a `T` that it shares with others: a reference to it, or an `Arc` of it.
pub trait RefersTo<T>: Drop {
    // What it leads to.
    ghost target: { Self → T };

    /// What it leads to.
    fn target(&self) -> &T
        ensures { result.now ≡ target self.now };

    /// Another value that leads to the same. `NoMemory` where those that lead to it can't be counted any more.
    fn again(&self) -> Result<Self, NoMemory>
        ensures { IfOk result (λ r. target r ≡ target self.now) };
}

impl<'a, T> RefersTo<T> for &'a T {
    ghost target = { λ r. r.now };

    fn target(&self) -> &T {
        *self
    }

    fn again(&self) -> Result<&'a T, NoMemory> {
        Ok(*self)
    }
}

impl<T: Drop> RefersTo<T> for Arc<T> {
    ghost target = { λ r. r.value };

    fn target(&self) -> &T {
        &**self
    }

    fn again(&self) -> Result<Arc<T>, NoMemory> {
        Ok(Arc::try_clone(self)?)
    }
}
