//! Nodes over a plan whose value is there.
ghost use Rattle.std.specs.Prelude.{◌≡◌, [], ◌∷◌, ◌++◌, map, IfOk};
ghost use Rattle.serde_json.specs.Data.{string, boolean, array};
ghost use Rattle.serde_json.specs.View.{view, items_of};
ghost use Rattle.sched_plan_json_write.specs.Forms.{whole};
ghost use Rattle.sched_plan_json_write.specs.Written.{one_json, side_word, test_word};

use crate::forms::{of_number_and, of_value};
use crate::words;
use sched_plan::{Fold, One, Side, Test};
use sched_time::NoMemory;
use serde_json::{Value, json};
use std::alloc::Global;

/// The value of the node over the plan that has this value. Fails only with `NoMemory`.
pub(crate) fn write_one(alloc: Global, node: One, plan: Value) -> Result<Value, NoMemory>
    ensures { IfOk result (λ v. view v ≡ one_json node (view plan)) }
{
    match node {
        One::Gate {
            side,
            want,
            test,
            bound,
        } => gate(alloc, (side, want, test), bound.get(), plan),
        One::Gather(fold) => gather(alloc, fold, plan),
        One::Jitter { lane, least, most } => jitter(alloc, lane, least, most, plan),
        // bin/nodes makes these rows.
        One::Add(delay) => of_number_and(alloc, "add", delay.get(), plan),
        One::Set(delay) => of_number_and(alloc, "set", delay.get(), plan),
        One::Cap(delay) => of_number_and(alloc, "cap", delay.get(), plan),
        One::AddOut => of_value(alloc, "add_out", plan),
        One::Within(length) => of_number_and(alloc, "within", length.get(), plan),
        One::EndsBy(length) => of_number_and(alloc, "ends_by", length.get(), plan),
        One::Renew(length) => of_number_and(alloc, "renew", length.get(), plan),
        One::RenewIdle(length) => of_number_and(alloc, "renew_idle", length.get(), plan),
        One::First => of_value(alloc, "first", plan),
        One::Second => of_value(alloc, "second", plan),
        One::Nothing => of_value(alloc, "nothing", plan),
        // end
    }
}

// `{"gate":[SIDE,WANT,TEST,bound,A]}`
fn gate(
    alloc: Global,
    words: (Side, bool, Test),
    bound: u64,
    plan: Value,
) -> Result<Value, NoMemory>
    ensures { IfOk result
        (λ v. view v ≡ one_json (One.Gate words.0 words.1 words.2 bound) (view plan)) }
{
    let (side, want, test) = words;
    let items = gate_test(alloc, side, want, test)?;
    let items = gate_items(items, bound, plan)?;
    of_value(alloc, "gate", items)
}

// `{"gather":[FOLD,A]}`
fn gather(alloc: Global, fold: Fold, plan: Value) -> Result<Value, NoMemory>
    ensures { IfOk result (λ v. view v ≡ one_json (One.Gather fold) (view plan)) }
{
    let items = json!(in alloc; [words::fold(fold), plan])?;
    of_value(alloc, "gather", items)
}

// `{"jitter":[LANE,least,most,A]}`
fn jitter(alloc: Global, lane: usize, least: u64, most: u64, plan: Value) -> Result<Value, NoMemory>
    ensures { IfOk result (λ v. view v ≡ one_json (One.Jitter lane least most) (view plan)) }
{
    let items = json!(in alloc; [lane, least, most, plan])?;
    of_value(alloc, "jitter", items)
}

// The first items of a gate: `SIDE`, `WANT` and `TEST`.
fn gate_test(alloc: Global, side: Side, want: bool, test: Test) -> Result<Vec<Value>, NoMemory>
    ensures { IfOk result (λ items. map view items.items ≡
        string (side_word side) ∷ boolean want ∷ string (test_word test) ∷ []) }
{
    let mut items = Vec::new(alloc);
    items.push(Value::try_from_str(alloc, words::side(side))?)?;
    items.push(Value::Bool(want))?;
    items.push(Value::try_from_str(alloc, words::test(test))?)?;
    Ok(items)
}

// `[..,bound,A]`, after the first items.
#[tactic(auto, using(crate::proofs::Writings::two_more))]
fn gate_items(mut items: Vec<Value>, bound: u64, plan: Value) -> Result<Value, NoMemory>
    ensures { IfOk result (λ v.
        view v ≡ array (items_of (map view items.items ++ whole bound ∷ view plan ∷ []))) }
{
    items.push(Value::from(bound))?;
    items.push(plan)?;
    Ok(Value::Array(items))
}
