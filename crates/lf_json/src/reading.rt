//! Records read from lines of JSON.
ghost use Rattle.std.specs.Prelude.{◌≡◌, ◌⊎◌, ◌+◌, ◌≤◌, length, map, IfOk, IfErr, OnOk};
ghost use Rattle.lf_limits.specs.Limits.{most_slots};
ghost use Rattle.serde_json.specs.View.{view};
ghost use Rattle.lf_format.specs.Keeps.{slots_in};
ghost use Rattle.lf_format.specs.Lines.{IsRecordOf};
ghost use Rattle.lf_json.specs.Reading.{json_of, AddsValues, IsWrongFrom, ReadsArray, ReadsJson, StandForAll};

use crate::bad_record::BadRecord;
use crate::items::read_item;
use lf_core::Record;
use lf_format::{Format, Piece};
use serde_json::Value as Json;
use std::alloc::Global;

/// The JSON value that the line is.
fn parse(alloc: Global, line: &[u8]) -> Result<Json, BadRecord>
    ensures ok { IfOk result (λ json. json_of line.now ≡ Some (view json)) }
    ensures err { IfErr result (λ bad. (bad ≡ BadRecord.OutOfMemory)
        ⊎ ((bad ≡ BadRecord.NotJson) × (json_of line.now ≡ None))) }
{
    match Json::from_slice(alloc, line) {
        Ok(json) => Ok(json),
        Err(error) => {
            if error.is_memory() {
                return Err(BadRecord::OutOfMemory);
            }
            Err(BadRecord::NotJson)
        }
    }
}

/// Appends the values that the JSON values stand for, after so many slots.
fn read_values(
    alloc: Global,
    pieces: &[Piece],
    items: &[Json],
    before: u32,
    into: &mut Record,
) -> Result<(), BadRecord>
    requires same { length items.now ≡ length (slots_in pieces.now) }
    requires few { before + length (slots_in pieces.now) ≤ most_slots }
    ensures ok { OnOk result (AddsValues into.old into.new (slots_in pieces.now) (map view items.now)) }
    ensures err { IfErr result (λ bad. (bad ≡ BadRecord.OutOfMemory)
        ⊎ IsWrongFrom before (slots_in pieces.now) (map view items.now) bad) }
{
    match pieces.split_first() {
        None => Ok(()),
        Some((Piece::Literal(_), rest)) => read_values(alloc, rest, items, before, into),
        Some((Piece::Slot(slot), rest)) => {
            let Some((item, others)) = items.split_first() else {
                unreachable!()
            };
            let Some(value) = read_item(alloc, slot, item)? else {
                return Err(BadRecord::WrongValue(before + 1));
            };
            into.push(value)?;
            read_values(alloc, rest, others, before + 1, into)
        }
    }
}

/// The record that the JSON values of an array stand for.
fn read_array(alloc: Global, items: &[Json], format: &Format) -> Result<Record, BadRecord>
    ensures ok { IfOk result (StandForAll (slots_in format.now.pieces) (map view items.now)) }
    ensures err { IfErr result (λ bad. (bad ≡ BadRecord.OutOfMemory)
        ⊎ ReadsArray (slots_in format.now.pieces) (map view items.now) (Err bad)) }
{
    let count = items.len() as u64;
    if count != u64::from(format.slots()) {
        return Err(BadRecord::WrongCount(count));
    }
    let mut rec = Record::new(alloc);
    read_values(alloc, format.pieces(), items, 0, &mut rec)?;
    Ok(rec)
}

/// Reads a line of JSON as a record of the format.
pub fn read_record(alloc: Global, line: &[u8], format: &Format) -> Result<Record, BadRecord>
    ensures ok { IfOk result (λ rec. ReadsJson format.now.pieces line.now (Ok rec)) }
    ensures held { IfOk result (IsRecordOf format.now.pieces) }
    ensures err { IfErr result (λ bad. (bad ≡ BadRecord.OutOfMemory)
        ⊎ ReadsJson format.now.pieces line.now (Err bad)) }
{
    let json = parse(alloc, line)?;
    let Some(items) = json.as_array() else {
        return Err(BadRecord::NotJson);
    };
    read_array(alloc, items.as_slice(), format)
}
