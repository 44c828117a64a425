//! The next record of a format.

ghost use Rattle.std.specs.Prelude.{◌≡◌, ◌++◌, List, IfOk, OnOk, OnErr};
ghost use Rattle.lf_core.specs.declared.values.Value.{Value};
ghost use Rattle.lf_format.specs.Keeps.{EachKept, KeepsSlot};
ghost use Rattle.lf_format.specs.Lines.{IsRecordOf};
ghost use Rattle.lf_gen.specs.Drawn.{IsDrawn, IsDrawnValue, record_state, slot_state};

use crate::candidate::candidate;
use crate::least::least_value;
use lf_core::{OutOfMemory, Record, Value};
use lf_format::{Format, Piece, Slot};
use std::alloc::Global;

/// The candidate where the slot holds it, and else the slot's least value.
fn draw_value(alloc: Global, slot: &Slot, state: &mut u64) -> Result<Value, OutOfMemory>
    requires { KeepsSlot slot.now }
    ensures value { IfOk result (λ v. IsDrawnValue slot.now state.old v) }
    ensures state { OnOk result (state.new ≡ slot_state slot.now state.old) }
{
    let Some(value) = candidate(alloc, &slot.kind, state)? else {
        return least_value(alloc, slot);
    };
    if slot.holds(&value) {
        return Ok(value);
    }
    least_value(alloc, slot)
}

/// Appends a value for each slot.
fn add_values(
    alloc: Global,
    pieces: &[Piece],
    state: &mut u64,
    into: &mut Record,
) -> Result<(), OutOfMemory>
    requires { EachKept pieces.now }
    ensures values { OnOk result ((added : List Value) × (into.new ≡ into.old ++ added) × IsDrawn pieces.now state.old added) }
    ensures state { OnOk result (state.new ≡ record_state pieces.now state.old) }
{
    match pieces.split_first() {
        None => Ok(()),
        Some((Piece::Literal(_), rest)) => add_values(alloc, rest, state, into),
        Some((Piece::Slot(slot), rest)) => {
            into.push(draw_value(alloc, slot, state)?)?;
            add_values(alloc, rest, state, into)
        }
    }
}

/// The record that the generator draws. The state is then the one after its draws, and after want of
/// memory the one before them.
pub fn next_record(alloc: Global, format: &Format, state: &mut u64) -> Result<Record, OutOfMemory>
    ensures drawn { IfOk result (λ rec. IsDrawn format.now.pieces state.old rec) }
    ensures held { IfOk result (λ rec. IsRecordOf format.now.pieces rec) }
    ensures state { OnOk result (state.new ≡ record_state format.now.pieces state.old) }
    ensures err { OnErr result (state.new ≡ state.old) }
{
    let mut record = Record::new(alloc);
    let mut after = *state;
    add_values(alloc, format.pieces(), &mut after, &mut record)?;
    *state = after;
    Ok(record)
}
