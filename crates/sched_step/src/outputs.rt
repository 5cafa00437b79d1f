ghost use Rattle.std.specs.Prelude.{◌≡◌, IfOk};
ghost use Rattle.sched_plan.specs.Datum.{unit, num, first_part, second_part};

use sched_plan::Val;
use sched_time::{Millis, NoMemory};
use std::alloc::Global;
use std::mem;

// They are functions of their own, so that a step clears no place for values that it doesn't make.

/// Makes the output nothing.
pub(crate) fn put_unit(output: &mut Val)
    ensures { output.new ≡ unit }
{
    *output = Val::unit();
}

/// Makes the output this number.
pub(crate) fn put_number(output: &mut Val, number: Millis)
    ensures { output.new ≡ num number }
{
    *output = Val::from(number);
}

/// Makes the output a copy of this value. Fails only with `NoMemory`.
#[inline(never)]
pub(crate) fn put_copy(alloc: Global, output: &mut Val, value: &Val) -> Result<(), NoMemory>
    ensures { IfOk result (λ _. output.new ≡ value.now) }
{
    *output = value.copy(alloc)?;
    Ok(())
}

/// Makes the output its first part; nothing where it is no pair.
pub(crate) fn put_first(output: &mut Val)
    ensures { output.new ≡ first_part output.old }
{
    *output = mem::replace(output, Val::unit()).into_first();
}

/// Makes the output its second part; nothing where it is no pair.
pub(crate) fn put_second(output: &mut Val)
    ensures { output.new ≡ second_part output.old }
{
    *output = mem::replace(output, Val::unit()).into_second();
}
