//! The kinds of expressions.

ghost use Rattle.std.specs.Prelude.{◌≡◌};
ghost use Rattle.lf_format.specs.Keeps.{slots_in};
ghost use Rattle.lf_expression.specs.Exprs.{expr_said, operation_said};
ghost use Rattle.lf_expression.specs.Kinds.{same_kind, wanted_kind, given_kind, slot_has_kind, has_kind};
ghost use Rattle.lf_expression.specs.Values.{nth};

use crate::expr::{Expr, Operation};
use lf_format::{Format, ValueKind};

fn is_same(one: ValueKind, other: ValueKind) -> bool
    ensures { result ≡ same_kind one other }
{
    one == other
}

impl Operation {
    /// The kind that the call wants of its first argument.
    fn wanted(self) -> ValueKind
        ensures { result ≡ wanted_kind (operation_said self) }
    {
        match self {
            Operation::Part(_) => ValueKind::Text,
            Operation::Div(_) | Operation::Mul(_) => ValueKind::Number,
            _ => ValueKind::Moment,
        }
    }

    /// The kind that the call has.
    fn given(self) -> ValueKind
        ensures { result ≡ given_kind (operation_said self) }
    {
        match self {
            Operation::Utc | Operation::Zoned(_) | Operation::WholeSecond => ValueKind::Moment,
            Operation::Date => ValueKind::Day,
            Operation::Clock => ValueKind::Clock,
            Operation::Part(_) => ValueKind::Text,
            _ => ValueKind::Number,
        }
    }
}

/// Whether the slot of the number is there and has the kind.
fn slot_has_kind(source: &Format, kind: ValueKind, k: u32) -> bool
    ensures { result ≡ slot_has_kind kind (nth k (slots_in source.now.pieces)) }
{
    if k == 0 || source.slots() < k {
        return false;
    }
    is_same(kind, source.slot(k).kind.value_kind())
}

/// Whether the expression has the kind, over the slots of the source.
pub fn has_kind(source: &Format, kind: ValueKind, expr: &Expr) -> bool
    ensures { result ≡ has_kind (slots_in source.now.pieces) kind (expr_said expr.now) }
{
    match expr {
        Expr::Missing => true,
        Expr::Number(_) => is_same(kind, ValueKind::Number),
        Expr::Text(_) => is_same(kind, ValueKind::Text),
        Expr::Slot(k) => slot_has_kind(source, kind, *k),
        Expr::OrElse(first, second) => {
            has_kind(source, kind, first) && has_kind(source, kind, second)
        }
        Expr::AtTime(first, second) => {
            is_same(kind, ValueKind::Moment)
                && has_kind(source, ValueKind::Day, first)
                && has_kind(source, ValueKind::Clock, second)
        }
        Expr::Spaced(first, second) => {
            is_same(kind, ValueKind::Text)
                && has_kind(source, ValueKind::Text, first)
                && has_kind(source, ValueKind::Text, second)
        }
        Expr::Applied(operation, first) => {
            is_same(kind, operation.given()) && has_kind(source, operation.wanted(), first)
        }
    }
}
