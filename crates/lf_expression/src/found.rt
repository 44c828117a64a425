//! The value of an expression for those who look at it where it is.

ghost use Rattle.std.specs.Prelude.{◌≡◌, ◌↔◌, All, IfOk, IsTrue, Some};
ghost use Rattle.lf_core.specs.declared.values.Value.TheVariants as value;
ghost use Rattle.lf_expression.specs.Answers.{found_said, IsDated};
ghost use Rattle.lf_expression.specs.Exprs.{expr_said};
ghost use Rattle.lf_expression.specs.Values.{nth, expr_value};

use crate::expr::Expr;
use crate::values::answer_of;
use lf_core::{OutOfMemory, Value};
use std::alloc::Global;

/// The value of an expression: none, one that the record holds, or one that was made.
#[derive(Drop)]
pub enum Found<'a> {
    Undefined,
    Held(&'a Value),
    Made(Value),
}

impl<'a> Found<'a> {
    fn is_missing(&self) -> bool
        ensures { IsTrue result ↔ (found_said self.now ≡ Some value.Missing) }
    {
        match self {
            Found::Held(Value::Missing) | Found::Made(Value::Missing) => true,
            _ => false,
        }
    }
}

/// The value of the slot of the number.
fn slot_found<'a>(rec: &'a [Value], k: u32) -> Found<'a>
    ensures { found_said result ≡ nth k rec.now }
{
    if k == 0 {
        return Found::Undefined;
    }
    match rec.get((k - 1) as usize) {
        None => Found::Undefined,
        Some(value) => Found::Held(value),
    }
}

/// The value of the expression as one of its own.
fn made<'a>(alloc: Global, expr: &Expr, rec: &[Value]) -> Result<Found<'a>, OutOfMemory>
    requires { All IsDated rec.now }
    ensures { IfOk result (λ found. found_said found ≡ expr_value (expr_said expr.now) rec.now) }
{
    let answer = answer_of(alloc, expr, rec)?;
    match answer.into_value(alloc)? {
        None => Ok(Found::Undefined),
        Some(value) => Ok(Found::Made(value)),
    }
}

/// The value of the expression on the record. What the record holds isn't copied.
pub fn expr_value<'a>(
    alloc: Global,
    expr: &'a Expr,
    rec: &'a [Value],
) -> Result<Found<'a>, OutOfMemory>
    requires { All IsDated rec.now }
    ensures { IfOk result (λ found. found_said found ≡ expr_value (expr_said expr.now) rec.now) }
{
    match expr {
        Expr::Slot(k) => Ok(slot_found(rec, *k)),
        Expr::OrElse(first, second) => {
            let found = expr_value(alloc, first, rec)?;
            if found.is_missing() {
                return expr_value(alloc, second, rec);
            }
            Ok(found)
        }
        _ => made(alloc, expr, rec),
    }
}
