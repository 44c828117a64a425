//! What a field map writes of a record.

ghost use Rattle.std.specs.Prelude.{◌≡◌, ◌+◌, ◌≤◌, All, Some, length, IfOk};
ghost use Rattle.lf_limits.specs.Limits.{most_slots};
ghost use Rattle.lf_format.specs.Keeps.{EachKept, KeepsSlot, slots_in};
ghost use Rattle.lf_format.specs.Lines.{IsRecordOf};
ghost use Rattle.lf_expression.specs.Answers.{IsDated};
ghost use Rattle.lf_expression.specs.Exprs.{expr_said, exprs_said};
ghost use Rattle.lf_expression.specs.Values.{expr_value};
ghost use Rattle.lf_map.specs.Mapped.{mapped_record};
ghost use Rattle.lf_map.specs.Written.{IsAdded, AddsRest, IsWritten};

use crate::field_map::FieldMap;
use lf_core::{Bytes, OutOfMemory, Record, Value};
use lf_expression::{Expr, Found, expr_value};
use lf_format::{Piece, Slot};
use std::alloc::Global;

/// Appends what the slot prints for the value, if it holds it.
fn write_held(slot: &Slot, value: &Value, into: &mut Bytes) -> Result<bool, OutOfMemory>
    requires { KeepsSlot slot.now }
    ensures { IfOk result (λ held. IsAdded held slot.now (Some value.now) into.old into.new) }
{
    if !slot.holds(value) {
        return Ok(false);
    }
    slot.write_value(value, into)?;
    Ok(true)
}

/// Appends what the slot prints for the expression's value on the record, if it holds it.
fn write_expr(
    alloc: Global,
    slot: &Slot,
    expr: &Expr,
    rec: &[Value],
    into: &mut Bytes,
) -> Result<bool, OutOfMemory>
    requires kept { KeepsSlot slot.now }
    requires dated { All IsDated rec.now }
    ensures { IfOk result (λ held. IsAdded held slot.now (expr_value (expr_said expr.now) rec.now) into.old into.new) }
{
    match expr_value(alloc, expr, rec)? {
        Found::Undefined => Ok(false),
        Found::Held(value) => write_held(slot, value, into),
        Found::Made(value) => write_held(slot, &value, into),
    }
}

/// Appends the line of the pieces that are left, of which the first slot has the number, up to the first slot that holds no such value.
fn write_pieces(
    alloc: Global,
    k: u32,
    pieces: &[Piece],
    exprs: &[Expr],
    rec: &[Value],
    into: &mut Bytes,
) -> Result<Option<u32>, OutOfMemory>
    requires kept { EachKept pieces.now }
    requires dated { All IsDated rec.now }
    requires count { length exprs.now ≡ length (slots_in pieces.now) }
    requires room { k + length exprs.now ≤ 1 + most_slots }
    ensures { IfOk result (λ unmapped. AddsRest k pieces.now (mapped_record (exprs_said exprs.now) rec.now) unmapped into.old into.new) }
{
    match pieces.split_first() {
        None => Ok(None),
        Some((Piece::Literal(text), more)) => {
            into.extend(text.as_slice())?;
            write_pieces(alloc, k, more, exprs, rec, into)
        }
        Some((Piece::Slot(slot), more)) => match exprs.split_first() {
            None => unreachable!(),
            Some((expr, others)) => {
                if !write_expr(alloc, slot, expr, rec, into)? {
                    return Ok(Some(k));
                }
                write_pieces(alloc, k + 1, more, others, rec, into)
            }
        },
    }
}

/// Appends the target's line of the mapped record, without its end. Where a slot holds no such value, nothing is
/// appended, and the number of the first such slot comes back.
pub fn write_mapped(
    alloc: Global,
    map: &FieldMap,
    rec: &Record,
    into: &mut Bytes,
) -> Result<Option<u32>, OutOfMemory>
    requires { IsRecordOf map.now.source.pieces rec.now }
    ensures { IfOk result (λ unmapped. IsWritten map.now rec.now unmapped into.old into.new) }
{
    let len = into.len();
    match write_pieces(
        alloc,
        1,
        map.target.pieces(),
        map.exprs.as_slice(),
        rec.as_slice(),
        into,
    )? {
        None => Ok(None),
        Some(k) => {
            into.truncate(len);
            Ok(Some(k))
        }
    }
}
