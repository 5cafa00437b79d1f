ghost use Rattle.std.specs.Prelude.{◌≡◌, ◌≤◌, ◌↔◌, ◌++◌, IsTrue, IsSome, IfSome, IfOk, OnOk, string_bytes};
ghost use Rattle.sched_time.specs.declared.numbers.TheConstants.{FAR};
ghost use Rattle.sched_plan.specs.Datum.{unit, num, pair, list, items_of, as_number, first_part, second_part};
ghost use Rattle.sched_plan.specs.DatumText.{text_of, items_text};

use sched_time::{Millis, NoMemory};
use std::alloc::Global;
use std::fmt::Write;
use std::marker::Model;

/// A value that a schedule takes or gives: nothing, a number, a pair or a list.
#[cycle(val)]
#[derive(Drop)]
pub struct Val {
    shape: ValShape,
}

/// What a value is made of.
#[cycle(val)]
#[derive(Drop)]
pub enum ValShape {
    /// Nothing.
    Unit,
    /// A number.
    Num(Millis),
    /// Two values as one.
    Pair(Box<(Val, Val)>),
    /// Values in order.
    List(Vec<Val>),
}

impl Model for Val {
    ghost use Rattle.sched_plan.specs.Datum.{Datum};
    ghost use Rattle.sched_plan.specs.DatumCode.{coded_datum};
    ghost use Rattle.sched_plan.specs.DatumSize.{datum_size};

    ghost Value = { Datum };

    ghost coded = { coded_datum };

    ghost use Rattle.sched_plan.specs.Val.{datum_of};

    ghost view = { λ v. datum_of v.shape };

    ghost size = { datum_size };

    ghost use Rattle.sched_plan.specs.ValFalls.{deep_le-datum_size};

    ghost size_decreases = { λ v h. deep_le-datum_size v.shape };
}

impl Val {
    ghost use Rattle.sched_plan.specs.Val.{datum_of};

    /// Nothing.
    pub fn unit() -> Val
        ensures { result ≡ unit }
    {
        Val {
            shape: ValShape::Unit,
        }
    }

    /// The number, or `None` past `FAR`.
    pub fn num(number: u64) -> Option<Val>
        ensures in_range { IsSome result ↔ (number ≤ FAR) }
        ensures value { IfSome result (λ v. v ≡ num number) }
    {
        let number = Millis::new(number)?;
        Some(Val::from(number))
    }

    /// Both values as one. Fails only with `NoMemory`; both values are then dropped.
    pub fn pair(alloc: Global, first: Val, second: Val) -> Result<Val, NoMemory>
        ensures { IfOk result (λ v. v ≡ pair first second) }
    {
        Ok(Val::of_both(Box::new(alloc, (first, second))?))
    }

    /// Both values as one, in the box that they stand in.
    pub fn of_both(both: Box<(Val, Val)>) -> Val
        ensures { result ≡ pair both.value.0 both.value.1 }
    {
        Val {
            shape: ValShape::Pair(both),
        }
    }

    /// The values in order.
    pub fn list(items: Vec<Val>) -> Val
        ensures { result ≡ list (items_of items.items) }
    {
        Val {
            shape: ValShape::List(items),
        }
    }

    /// The shape at the top, for a caller to match on.
    pub fn shape(&self) -> &ValShape
        ensures { datum_of result.now ≡ self.now }
    {
        &self.shape
    }

    /// The number, or `None` where the value is no number.
    pub fn as_num(&self) -> Option<Millis>
        ensures { result ≡ as_number self.now }
    {
        match &self.shape {
            ValShape::Num(number) => Some(*number),
            _ => None,
        }
    }

    /// The first part of a pair; nothing where the value is no pair.
    pub fn into_first(self) -> Val
        ensures { result ≡ first_part self }
    {
        match self.shape {
            ValShape::Pair(both) => Box::into_inner(both).0,
            _ => Val::unit(),
        }
    }

    /// The second part of a pair; nothing where the value is no pair.
    pub fn into_second(self) -> Val
        ensures { result ≡ second_part self }
    {
        match self.shape {
            ValShape::Pair(both) => Box::into_inner(both).1,
            _ => Val::unit(),
        }
    }

    /// An equal value. Fails only with `NoMemory`.
    #[cycle(copy)]
    #[inline(always)]
    pub fn copy(&self, alloc: Global) -> Result<Val, NoMemory>
        ensures { IfOk result (λ v. v ≡ self.now) }
    {
        match &self.shape {
            ValShape::Unit => Ok(Val::unit()),
            ValShape::Num(number) => Ok(Val::from(*number)),
            ValShape::Pair(both) => copy_both(alloc, both),
            ValShape::List(items) => copy_list(alloc, items),
        }
    }

    /// Whether both values are equal.
    #[cycle(same)]
    pub fn same(&self, other: &Val) -> bool
        ensures { IsTrue result ↔ (self.now ≡ other.now) }
    {
        match (&self.shape, &other.shape) {
            (ValShape::Unit, ValShape::Unit) => true,
            (ValShape::Num(a), ValShape::Num(b)) => a == b,
            (ValShape::Pair(a), ValShape::Pair(b)) => a.0.same(&b.0) && a.1.same(&b.1),
            (ValShape::List(a), ValShape::List(b)) => same_items(a, b),
            _ => false,
        }
    }

    /// The value as text: `()`, a decimal number, `(a, b)` or `[a, b, c]`. Fails only with `NoMemory`.
    pub fn text(&self, alloc: Global) -> Result<String, NoMemory>
        ensures { IfOk result (λ text. string_bytes text ≡ text_of self.now) }
    {
        let mut out = String::new(alloc);
        self.write_to(&mut out)?;
        Ok(out)
    }

    // Adds the value's text at the end.
    #[cycle(text)]
    fn write_to(&self, out: &mut String) -> Result<(), NoMemory>
        ensures { OnOk result (string_bytes out.new ≡ string_bytes out.old ++ text_of self.now) }
    {
        match &self.shape {
            ValShape::Unit => out.push_str("()")?,
            ValShape::Num(number) => write!(out, "{}", number.get())?,
            ValShape::Pair(both) => {
                out.push_str("(")?;
                both.0.write_to(out)?;
                out.push_str(", ")?;
                both.1.write_to(out)?;
                out.push_str(")")?;
            }
            ValShape::List(items) => {
                out.push_str("[")?;
                write_items(items, out)?;
                out.push_str("]")?;
            }
        }
        Ok(())
    }
}

// The pair of equal values.
#[cycle(copy)]
#[inline(never)]
fn copy_both(alloc: Global, both: &(Val, Val)) -> Result<Val, NoMemory>
    ensures { IfOk result (λ v. v ≡ pair both.now.0 both.now.1) }
{
    let first = both.0.copy(alloc)?;
    let second = both.1.copy(alloc)?;
    Val::pair(alloc, first, second)
}

// The list of equal values in the same order.
#[cycle(copy)]
#[inline(never)]
fn copy_list(alloc: Global, items: &Vec<Val>) -> Result<Val, NoMemory>
    ensures { IfOk result (λ v. v ≡ list (items_of items.now.items)) }
{
    Ok(Val::list(copy_items(alloc, items)?))
}

/// Equal values in the same order. Fails only with `NoMemory`.
#[cycle(copy)]
#[inline(always)]
pub fn copy_items(alloc: Global, items: &Vec<Val>) -> Result<Vec<Val>, NoMemory>
    ensures { IfOk result (λ copies. copies.items ≡ items.now.items) }
{
    let mut copies = Vec::with_capacity(alloc, items.len())?;
    for item in items {
        copies.push(item.copy(alloc)?)?;
    }
    Ok(copies)
}

// Whether both have equal values in the same order.
#[cycle(same)]
fn same_items(items: &Vec<Val>, others: &Vec<Val>) -> bool
    ensures { IsTrue result ↔ (items.now.items ≡ others.now.items) }
{
    if items.len() != others.len() {
        return false;
    }
    for (at, item) in items.iter().enumerate() {
        if !item.same(&others[at]) {
            return false;
        }
    }
    true
}

// Adds the texts of the items at the end, with commas between them.
#[cycle(text)]
fn write_items(items: &Vec<Val>, out: &mut String) -> Result<(), NoMemory>
    ensures { OnOk result
        (string_bytes out.new ≡ string_bytes out.old ++ items_text (items_of items.now.items)) }
{
    for (at, item) in items.iter().enumerate() {
        if at > 0 {
            out.push_str(", ")?;
        }
        item.write_to(out)?;
    }
    Ok(())
}

impl From<Millis> for Val {
    ghost from_gives = { λ number v. v ≡ num number };

    fn from(number: Millis) -> Self {
        Val {
            shape: ValShape::Num(number),
        }
    }
}
