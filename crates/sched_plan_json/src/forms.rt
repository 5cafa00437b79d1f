//! The forms that a node's value may have: its parameters, and the values of its plans.
ghost use Rattle.std.specs.Prelude.{◌≡◌, ◌≤◌, IfOk, IfErr, IfSome, IfNone, Some, None};
ghost use Rattle.serde_json.specs.Data.{depth, items_depth};
ghost use Rattle.serde_json.specs.View.{view, items_view};
ghost use Rattle.sched_plan.specs.declared.nodes.One.TheVariants.{Gate, Gather, Jitter};
ghost use Rattle.sched_plan_json.specs.Reading.{or_not_a_plan};
ghost use Rattle.sched_plan_json.specs.Forms.{LacksForm, number_in, two_numbers_in, three_numbers_in, four_numbers_in};
ghost use Rattle.sched_plan_json.specs.Forms.{number_and_part, jitter_and_part, gate_and_part, gather_and_part};
ghost use Rattle.sched_plan_json.specs.Forms.{two_of as two_parts, three_of as three_parts, four_of as four_parts};
ghost use Rattle.sched_plan_json.specs.Forms.{five_of as five_parts};
ghost use Rattle.sched_plan_json.specs.PlanOf.{part_of, parts_of, parts_of_items};

use crate::faults::ReadFault;
use crate::words::{fold, side, test};
use sched_plan::{Fold, Side, Test};
use serde_json::Value;

/// The number that the value is, a whole one from 0 to 2^64 - 1.
pub(crate) fn number(value: &Value) -> Result<u64, ReadFault>
    ensures { result ≡ or_not_a_plan (number_in (view value.now)) }
{
    value.as_u64().ok_or(ReadFault::NotAPlan)
}

/// `[n,m]`
pub(crate) fn two_numbers(value: &Value) -> Result<(u64, u64), ReadFault>
    ensures { result ≡ or_not_a_plan (two_numbers_in (parts_of (view value.now))) }
{
    let (first, second) = two_of(items(value)).ok_or(ReadFault::NotAPlan)?;
    Ok((number(first)?, number(second)?))
}

/// `[n,m,k]`
pub(crate) fn three_numbers(value: &Value) -> Result<(u64, u64, u64), ReadFault>
    ensures { result ≡ or_not_a_plan (three_numbers_in (parts_of (view value.now))) }
{
    let (first, second, third) = three_of(items(value)).ok_or(ReadFault::NotAPlan)?;
    Ok((number(first)?, number(second)?, number(third)?))
}

/// `[n,m,k,l]`
pub(crate) fn four_numbers(value: &Value) -> Result<(u64, u64, u64, u64), ReadFault>
    ensures { result ≡ or_not_a_plan (four_numbers_in (parts_of (view value.now))) }
{
    let (first, second, third, fourth) = four_of(items(value)).ok_or(ReadFault::NotAPlan)?;
    Ok((
        number(first)?,
        number(second)?,
        number(third)?,
        number(fourth)?,
    ))
}

/// `[n,A]`
pub(crate) fn number_and_plan(value: &Value) -> Result<(u64, &Value), ReadFault>
    ensures ok { IfOk result
        (λ form. number_and_part (parts_of (view value.now)) ≡
        Some (form.0, part_of (view form.1.now))) }
    ensures nested { IfOk result (λ form. depth (view form.1.now) ≤ depth (view value.now)) }
    ensures err { IfErr result (LacksForm (number_and_part (parts_of (view value.now)))) }
{
    let (first, plan) = two_of(items(value)).ok_or(ReadFault::NotAPlan)?;
    Ok((number(first)?, plan))
}

/// `[LANE,least,most,A]`
pub(crate) fn jitter_and_plan(value: &Value) -> Result<(u64, u64, u64, &Value), ReadFault>
    ensures ok { IfOk result
        (λ form. jitter_and_part (parts_of (view value.now)) ≡
        Some (Jitter form.0 form.1 form.2, part_of (view form.3.now))) }
    ensures nested { IfOk result (λ form. depth (view form.3.now) ≤ depth (view value.now)) }
    ensures err { IfErr result (LacksForm (jitter_and_part (parts_of (view value.now)))) }
{
    let (lane, least, most, plan) = four_of(items(value)).ok_or(ReadFault::NotAPlan)?;
    Ok((number(lane)?, number(least)?, number(most)?, plan))
}

/// `[SIDE,WANT,TEST,bound,A]`
pub(crate) fn gate_and_plan(value: &Value) -> Result<(Side, bool, Test, u64, &Value), ReadFault>
    ensures ok { IfOk result
        (λ form. gate_and_part (parts_of (view value.now)) ≡
        Some (Gate form.0 form.1 form.2 form.3, part_of (view form.4.now))) }
    ensures nested { IfOk result (λ form. depth (view form.4.now) ≤ depth (view value.now)) }
    ensures err { IfErr result (LacksForm (gate_and_part (parts_of (view value.now)))) }
{
    let (first, want, third, bound, plan) = five_of(items(value)).ok_or(ReadFault::NotAPlan)?;
    let want = want.as_bool().ok_or(ReadFault::NotAPlan)?;
    Ok((side(first)?, want, test(third)?, number(bound)?, plan))
}

/// `[FOLD,A]`
pub(crate) fn gather_and_plan(value: &Value) -> Result<(Fold, &Value), ReadFault>
    ensures ok { IfOk result
        (λ form. gather_and_part (parts_of (view value.now)) ≡
        Some (Gather form.0, part_of (view form.1.now))) }
    ensures nested { IfOk result (λ form. depth (view form.1.now) ≤ depth (view value.now)) }
    ensures err { IfErr result (LacksForm (gather_and_part (parts_of (view value.now)))) }
{
    let (first, plan) = two_of(items(value)).ok_or(ReadFault::NotAPlan)?;
    Ok((fold(first)?, plan))
}

/// `[A,B]`
pub(crate) fn two_plans(value: &Value) -> Result<(&Value, &Value), ReadFault>
    ensures ok { IfOk result
        (λ form. two_parts (parts_of (view value.now)) ≡
        Some (part_of (view form.0.now), part_of (view form.1.now))) }
    ensures first { IfOk result (λ form. depth (view form.0.now) ≤ depth (view value.now)) }
    ensures second { IfOk result (λ form. depth (view form.1.now) ≤ depth (view value.now)) }
    ensures err { IfErr result (LacksForm (two_parts (parts_of (view value.now)))) }
{
    two_of(items(value)).ok_or(ReadFault::NotAPlan)
}

// The items of an array; a value that is no array has none.
fn items(value: &Value) -> &[Value]
    ensures parts { parts_of_items (items_view result.now) ≡ parts_of (view value.now) }
    ensures nested { items_depth (items_view result.now) ≤ depth (view value.now) }
{
    match value {
        Value::Array(items) => items.as_slice(),
        _ => &[],
    }
}

// The items, where there are two.
fn two_of(items: &[Value]) -> Option<(&Value, &Value)>
    ensures some { IfSome result
        (λ all. two_parts (parts_of_items (items_view items.now)) ≡
        Some (part_of (view all.0.now), part_of (view all.1.now))) }
    ensures first { IfSome result (λ all. depth (view all.0.now) ≤ items_depth (items_view items.now)) }
    ensures last { IfSome result (λ all. depth (view all.1.now) ≤ items_depth (items_view items.now)) }
    ensures none { IfNone result (two_parts (parts_of_items (items_view items.now)) ≡ None) }
{
    let mut items = items.iter();
    match (items.next(), items.next(), items.next()) {
        (Some(first), Some(second), None) => Some((first, second)),
        _ => None,
    }
}

// The items, where there are three.
fn three_of(items: &[Value]) -> Option<(&Value, &Value, &Value)>
    ensures some { IfSome result
        (λ all. three_parts (parts_of_items (items_view items.now)) ≡
        Some (part_of (view all.0.now), part_of (view all.1.now), part_of (view all.2.now))) }
    ensures none { IfNone result (three_parts (parts_of_items (items_view items.now)) ≡ None) }
{
    let mut items = items.iter();
    match (items.next(), items.next(), items.next(), items.next()) {
        (Some(first), Some(second), Some(third), None) => Some((first, second, third)),
        _ => None,
    }
}

// The items, where there are four.
fn four_of(items: &[Value]) -> Option<(&Value, &Value, &Value, &Value)>
    ensures some { IfSome result
        (λ all. four_parts (parts_of_items (items_view items.now)) ≡
        Some (
          part_of (view all.0.now),
          part_of (view all.1.now),
          part_of (view all.2.now),
          part_of (view all.3.now),
        )) }
    ensures last { IfSome result (λ all. depth (view all.3.now) ≤ items_depth (items_view items.now)) }
    ensures none { IfNone result (four_parts (parts_of_items (items_view items.now)) ≡ None) }
{
    let mut items = items.iter();
    match (
        items.next(),
        items.next(),
        items.next(),
        items.next(),
        items.next(),
    ) {
        (Some(first), Some(second), Some(third), Some(fourth), None) => {
            Some((first, second, third, fourth))
        }
        _ => None,
    }
}

// The items, where there are five.
fn five_of(items: &[Value]) -> Option<(&Value, &Value, &Value, &Value, &Value)>
    ensures some { IfSome result
        (λ all. five_parts (parts_of_items (items_view items.now)) ≡
        Some (
          part_of (view all.0.now),
          part_of (view all.1.now),
          part_of (view all.2.now),
          part_of (view all.3.now),
          part_of (view all.4.now),
        )) }
    ensures last { IfSome result (λ all. depth (view all.4.now) ≤ items_depth (items_view items.now)) }
    ensures none { IfNone result (five_parts (parts_of_items (items_view items.now)) ≡ None) }
{
    let mut items = items.iter();
    let first_four = (items.next(), items.next(), items.next(), items.next());
    match (first_four, items.next(), items.next()) {
        ((Some(first), Some(second), Some(third), Some(fourth)), Some(fifth), None) => {
            Some((first, second, third, fourth, fifth))
        }
        _ => None,
    }
}
