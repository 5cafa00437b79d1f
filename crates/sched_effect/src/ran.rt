//! How a run went.
ghost use Rattle.std.specs.Prelude.{◌≡◌, ℕ};
ghost use Rattle.sched_effect.specs.Runs.{ran_by};

use sched_time::Millis;

/// What has a number by which schedules and journals know it.
pub trait Coded {
    ghost coded: { Self → ℕ };

    /// The number.
    fn code(&self) -> Millis
        ensures { result ≡ coded self.now };
}

/// How a run went, with the code of its item or of its fault.
#[derive(Clone, Copy, Debug, PartialEq, Eq)]
pub enum Ran {
    /// It succeeded.
    Won(Millis),
    /// It failed.
    Lost(Millis),
}

/// An item or a fault that is its code alone.
#[derive(Clone, Copy, Debug, PartialEq, Eq)]
pub struct Code(pub Millis);

impl Coded for Code {
    ghost coded = { λ c. c.0 };

    fn code(&self) -> Millis {
        self.0
    }
}

/// How a run went, by the codes of its item or its fault.
pub fn ran_of<I: Coded, F: Coded>(run: &Result<I, F>) -> Ran
    ensures { result ≡ ran_by I.coded F.coded run.now }
{
    match run {
        Ok(item) => Ran::Won(item.code()),
        Err(fault) => Ran::Lost(fault.code()),
    }
}
