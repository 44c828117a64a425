//! The faults of an assignment that is spelled right, and the form that assignments fill.

ghost use Rattle.std.specs.Prelude.{◌≡◌, Some};
ghost use Rattle.lf_format.specs.Keeps.{slots_in};
ghost use Rattle.lf_expression.specs.Exprs.{expr_said};
ghost use Rattle.lf_expression.specs.Values.{nth};
ghost use Rattle.lf_map.specs.Filling.{first_stray, assign_fault, is_given};
ghost use Rattle.lf_map.specs.Forms.{form_said, given_said};

use crate::fault::MapFault;
use crate::reading::Assign;
use lf_expression::{Expr, has_kind};
use lf_format::Format;

/// The first number of a source slot, from the left, that isn't one of so many slots.
fn first_stray(slots: u32, expr: &Expr) -> Option<u32>
    ensures { result ≡ first_stray slots (expr_said expr.now) }
{
    match expr {
        Expr::Slot(k) => if 1 <= *k && *k <= slots {
            None
        } else {
            Some(*k)
        }
        Expr::OrElse(first, second) | Expr::AtTime(first, second) | Expr::Spaced(first, second) => {
            match first_stray(slots, first) {
                None => first_stray(slots, second),
                Some(k) => Some(k),
            }
        }
        Expr::Applied(_, first) => first_stray(slots, first),
        _ => None,
    }
}

fn has_one(one: &Option<Expr>) -> bool
    ensures { result ≡ is_given (Some (given_said one.now)) }
{
    match one {
        None => false,
        Some(_) => true,
    }
}

/// Whether the slot of the number has an expression.
fn is_given(form: &[Option<Expr>], k: u32) -> bool
    ensures { result ≡ is_given (nth k (form_said form.now)) }
{
    if k == 0 {
        return false;
    }
    match form.get((k - 1) as usize) {
        None => false,
        Some(one) => has_one(one),
    }
}

/// The fault of the assignment.
pub(crate) fn assign_fault(
    source: &Format,
    target: &Format,
    form: &[Option<Expr>],
    assign: &Assign,
) -> Option<MapFault>
    ensures { result ≡ assign_fault (slots_in source.now.pieces) (slots_in target.now.pieces) (form_said form.now) assign.now.target (expr_said assign.now.expr) }
{
    let k = assign.target;
    if k == 0 || target.slots() < k {
        return Some(MapFault::NoSlot(k));
    }
    if let Some(n) = first_stray(source.slots(), &assign.expr) {
        return Some(MapFault::NoSlot(n));
    }
    if is_given(form, k) {
        return Some(MapFault::Twice(k));
    }
    if !has_kind(source, target.slot(k).kind.value_kind(), &assign.expr) {
        return Some(MapFault::Untyped(k));
    }
    None
}
