//! Leaves.
ghost use Rattle.std.specs.Prelude.{◌≡◌, IfOk};
ghost use Rattle.serde_json.specs.View.{view};
ghost use Rattle.sched_plan_json_write.specs.Written.{leaf_json};

use crate::forms::{name_alone, of_number, of_two, of_value};
use sched_plan::Leaf;
use sched_time::NoMemory;
use serde_json::{Value, json};
use std::alloc::Global;

/// The value of the leaf. Fails only with `NoMemory`.
pub(crate) fn write_leaf(alloc: Global, leaf: Leaf) -> Result<Value, NoMemory>
    ensures { IfOk result (λ v. view v ≡ leaf_json leaf) }
{
    match leaf {
        // bin/nodes makes these rows.
        Leaf::Forever => name_alone(alloc, "forever"),
        Leaf::Recurs(count) => of_number(alloc, "recurs", count.get()),
        Leaf::Spaced(delay) => of_number(alloc, "spaced", delay.get()),
        Leaf::Fixed(length) => of_number(alloc, "fixed", length.get()),
        Leaf::Windowed(length) => of_number(alloc, "windowed", length.get()),
        Leaf::Linear(delay) => of_number(alloc, "linear", delay.get()),
        Leaf::Exponential { base, factor } => of_two(alloc, "exponential", base.get(), factor),
        Leaf::ExponentialMilli { base, thousandths } => {
            of_two(alloc, "exponential_milli", base.get(), thousandths)
        }
        Leaf::Fibonacci(delay) => of_number(alloc, "fibonacci", delay.get()),
        Leaf::Decorrelated {
            lane,
            base,
            thousandths,
            most,
        } => {
            let items = json!(in alloc; [lane, base.get(), thousandths, most.get()])?;
            of_value(alloc, "decorrelated", items)
        }
        Leaf::Elapsed => name_alone(alloc, "elapsed"),
        Leaf::Identity => name_alone(alloc, "identity"),
        Leaf::Unfold { seed, factor, more } => {
            let items = json!(in alloc; [seed.get(), factor.get(), more.get()])?;
            of_value(alloc, "unfold", items)
        }
        Leaf::Lone(delay) => of_number(alloc, "lone", delay.get()),
        // end
    }
}
