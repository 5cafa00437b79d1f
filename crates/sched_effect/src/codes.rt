//! Codes of numbers, and codes that a function gives.
ghost use Rattle.std.specs.Prelude.{◌≡◌, ℕ};
ghost use Rattle.std.specs.Fn.{FnOnceReturnsAt};
ghost use Rattle.sched_time.specs.Capped.{capped};

use crate::ran::Coded;
use sched_time::Millis;

// The code of a number: the number itself, at most 4611686018427387903.
fn code_of(number: u64) -> Millis
    ensures { result ≡ capped number }
{
    Millis::from(1).times(number)
}

impl Coded for u64 {
    ghost coded = { capped };

    fn code(&self) -> Millis {
        code_of(*self)
    }
}

impl Coded for usize {
    ghost coded = { capped };

    fn code(&self) -> Millis {
        code_of(*self as u64)
    }
}

impl Coded for u32 {
    ghost coded = { λ number. number };

    fn code(&self) -> Millis {
        Millis::from(*self)
    }
}

impl Coded for u16 {
    ghost coded = { λ number. number };

    fn code(&self) -> Millis {
        Millis::from(u32::from(*self))
    }
}

impl Coded for u8 {
    ghost coded = { λ number. number };

    fn code(&self) -> Millis {
        Millis::from(u32::from(*self))
    }
}

impl Coded for () {
    ghost coded = { λ _. 0 };

    fn code(&self) -> Millis {
        Millis::from(0)
    }
}

/// A value with its code: an item or a fault whose type has none of its own, as a `String` or an `io::Error`.
#[derive(Debug, Drop)]
pub struct Tagged<T> {
    pub value: T,
    pub code: Millis,
}

impl<T> Tagged<T> {
    /// The value with the code that this function gives of it, at most 4611686018427387903.
    pub fn by<F: FnOnce(&T) -> u64>(value: T, code: F) -> Tagged<T>
        requires { F.IsAlwaysCallable code }
        ensures value { result.value ≡ value }
        ensures code { (number : ℕ) × FnOnceReturnsAt F.FnOnce code value number × (result.code ≡ capped number) }
    {
        let number = code(&value);
        Tagged {
            value,
            code: code_of(number),
        }
    }
}

impl<T> Coded for Tagged<T> {
    ghost coded = { λ tagged. tagged.code };

    fn code(&self) -> Millis {
        self.code
    }
}
