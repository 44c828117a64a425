//! The orders of records and of runs.

use lf_core::{Record, Run, Value};
use lf_format::{Absent, Format, Piece, Slot};
use std::cmp::Ordering;

/// The text by which the slot's values are ordered.
fn order_text<'a>(slot: &Slot, value: &'a Value) -> &'a [u8] {
    match (value, slot.absent) {
        (Value::Text(text), _) => text.as_slice(),
        (_, Absent::Dash | Absent::DashTwo) => b"-",
        _ => b"",
    }
}

fn is_present(value: &Value) -> bool {
    match value {
        Value::Missing => false,
        _ => true,
    }
}

fn value_cmp(slot: &Slot, one: &Value, other: &Value) -> Ordering {
    match order_text(slot, one).cmp(order_text(slot, other)) {
        Ordering::Equal => is_present(one).cmp(&is_present(other)),
        order => order,
    }
}

fn values_cmp(pieces: &[Piece], one: &[Value], other: &[Value]) -> Ordering {
    match (pieces.split_first(), one.split_first(), other.split_first()) {
        (Some((Piece::Literal(_), pieces)), _, _) => values_cmp(pieces, one, other),
        (Some((Piece::Slot(slot), pieces)), Some((first, one)), Some((second, other))) => {
            match value_cmp(slot, first, second) {
                Ordering::Equal => values_cmp(pieces, one, other),
                order => order,
            }
        }
        _ => Ordering::Equal,
    }
}

/// The first slot whose values differ tells.
pub(crate) fn record_cmp(format: &Format, one: &Record, other: &Record) -> Ordering {
    values_cmp(format.pieces(), one.as_slice(), other.as_slice())
}

/// The first place where the marks differ tells; where they are equal, the points do.
pub(crate) fn run_cmp(one: &Run, other: &Run) -> Ordering {
    for (step, across) in one.as_slice().iter().zip(other.as_slice()) {
        let order = (step.mark, step.to).cmp(&(across.mark, across.to));
        if order != Ordering::Equal {
            return order;
        }
    }
    Ordering::Equal
}
