//! The forms of nodes: a name, or an object of one member.
ghost use Rattle.std.specs.Prelude.{◌≡◌, IfOk};
ghost use Rattle.serde_json.specs.Data.{string};
ghost use Rattle.serde_json.specs.View.{view};
ghost use Rattle.sched_plan_json_write.specs.Forms.{named, with_number, with_two, with_number_and, with_both};

use sched_time::NoMemory;
use serde_json::{Value, json};
use std::alloc::Global;

/// `"NAME"`, a node's name alone. Fails only with `NoMemory`.
pub fn name_alone(alloc: Global, name: &str) -> Result<Value, NoMemory>
    ensures { IfOk result (λ v. view v ≡ string name.now) }
{
    Ok(Value::try_from_str(alloc, name)?)
}

/// `{"NAME":A}`, a node's name with one value. Fails only with `NoMemory`.
pub fn of_value(alloc: Global, name: &str, value: Value) -> Result<Value, NoMemory>
    ensures { IfOk result (λ v. view v ≡ named name.now (view value)) }
{
    Ok(json!(in alloc; {(name): value})?)
}

/// `{"NAME":n}`
pub(crate) fn of_number(alloc: Global, name: &str, n: u64) -> Result<Value, NoMemory>
    ensures { IfOk result (λ v. view v ≡ with_number name.now n) }
{
    of_value(alloc, name, Value::from(n))
}

/// `{"NAME":[n,m]}`
pub(crate) fn of_two(alloc: Global, name: &str, n: u64, m: u64) -> Result<Value, NoMemory>
    ensures { IfOk result (λ v. view v ≡ with_two name.now n m) }
{
    let items = json!(in alloc; [n, m])?;
    of_value(alloc, name, items)
}

/// `{"NAME":[n,A]}`
pub(crate) fn of_number_and(
    alloc: Global,
    name: &str,
    n: u64,
    value: Value,
) -> Result<Value, NoMemory>
    ensures { IfOk result (λ v. view v ≡ with_number_and name.now n (view value)) }
{
    let items = json!(in alloc; [n, value])?;
    of_value(alloc, name, items)
}

/// `{"NAME":[A,B]}`
pub(crate) fn of_both(
    alloc: Global,
    name: &str,
    first: Value,
    second: Value,
) -> Result<Value, NoMemory>
    ensures { IfOk result (λ v. view v ≡ with_both name.now (view first) (view second)) }
{
    let items = json!(in alloc; [first, second])?;
    of_value(alloc, name, items)
}
