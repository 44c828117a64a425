//! The least value of a slot.

ghost use Rattle.std.specs.Prelude.{◌≡◌, ◌++◌, ◌∷◌, [], List, IfOk, IfSome};
ghost use Rattle.lf_core.specs.declared.values.Value.{Value};
ghost use Rattle.lf_format.specs.Keeps.{HoldsSome, TakesPlain};
ghost use Rattle.lf_format.specs.Slots.{Holds};
ghost use Rattle.lf_gen.specs.Compared.{IsLeastOf};
ghost use Rattle.lf_gen.specs.Least.{IsLeastValue};

use crate::enough::enough_values;
use crate::key::Key;
use lf_core::{OutOfMemory, Value};
use lf_format::Slot;
use std::alloc::Global;
use std::cmp::Ordering;

/// The held value with the least slot text by the order of lines; of those that print it, the least.
pub fn least_value(alloc: Global, slot: &Slot) -> Result<Value, OutOfMemory>
    requires some { HoldsSome slot.now }
    requires takes { TakesPlain slot.now.kind slot.now.code }
    ensures { IfOk result (λ v. IsLeastValue slot.now v) }
{
    let values = enough_values(alloc, slot)?;
    let least = least_of(alloc, slot, values.as_slice())?;
    match least {
        Some(value) => Ok(value),
        None => unreachable!(),
    }
}

/// The least of the values that the slot holds, and none where it holds none of them.
fn least_of(alloc: Global, slot: &Slot, values: &[Value]) -> Result<Option<Value>, OutOfMemory>
    requires { TakesPlain slot.now.kind slot.now.code }
    ensures { IfOk result (IsLeastOf slot.now values.now) }
{
    let mut least = None;
    for value in values {
        least = lesser(alloc, slot, least, value)?;
    }
    Ok(least)
}

/// The least value with one more looked at.
fn lesser(
    alloc: Global,
    slot: &Slot,
    least: Option<Value>,
    value: &Value,
) -> Result<Option<Value>, OutOfMemory>
    requires takes { TakesPlain slot.now.kind slot.now.code }
    requires held { IfSome least (Holds slot.now) }
    ensures { IfOk result (λ next. (values : List Value) → IsLeastOf slot.now values least → IsLeastOf slot.now (values ++ value.now ∷ []) next) }
{
    if !slot.holds(value) {
        return Ok(least);
    }
    let Some(other) = least else {
        return Ok(Some(value.copy()?));
    };
    let key = Key::of(alloc, slot, value)?;
    match key.compare(&Key::of(alloc, slot, &other)?) {
        Ordering::Less => Ok(Some(value.copy()?)),
        _ => Ok(Some(other)),
    }
}
