//! The records of a format whose values have few letters, and the lines that they print.

use lf_core::{Bytes, OutOfMemory, Record, Value};
use lf_format::{Format, Piece, Slot};
use std::alloc::Global;

/// Adds the texts that begin so and have so many more of the letters.
fn push_texts(
    begin: &Bytes,
    letters: &[u8],
    more: u8,
    into: &mut Vec<Bytes>,
) -> Result<(), OutOfMemory> {
    if more == 0 {
        into.push(begin.copy()?)?;
        return Ok(());
    }
    for letter in letters {
        let mut text = begin.copy()?;
        text.push(*letter)?;
        push_texts(&text, letters, more - 1, into)?;
    }
    Ok(())
}

/// The texts of at most so many of the letters, the shorter first; in rising order where the letters are.
pub(crate) fn texts_of(alloc: Global, letters: &[u8], most: u8) -> Result<Vec<Bytes>, OutOfMemory> {
    let mut texts = Vec::new(alloc);
    for len in 0..=most {
        push_texts(&Bytes::new(alloc), letters, len, &mut texts)?;
    }
    Ok(texts)
}

/// Adds the value where the slot holds it.
fn push_held(slot: &Slot, value: Value, into: &mut Vec<Value>) -> Result<(), OutOfMemory> {
    if slot.holds(&value) {
        into.push(value)?;
    }
    Ok(())
}

/// What the slot holds: none, and those of the texts that are no longer than `room`.
fn values_of(
    alloc: Global,
    slot: &Slot,
    texts: &[Bytes],
    room: usize,
) -> Result<Vec<Value>, OutOfMemory> {
    let mut values = Vec::new(alloc);
    push_held(slot, Value::Missing, &mut values)?;
    for text in texts {
        if text.len() <= room {
            push_held(slot, Value::Text(text.copy()?), &mut values)?;
        }
    }
    Ok(values)
}

fn value_len(value: &Value) -> usize {
    match value {
        Value::Text(text) => text.len(),
        _ => 0,
    }
}

/// Adds the records that begin so and go on with values of the pieces, whose letters are `room` at most together.
fn push_records(
    alloc: Global,
    pieces: &[Piece],
    texts: &[Bytes],
    begin: &Record,
    room: usize,
    into: &mut Vec<Record>,
) -> Result<(), OutOfMemory> {
    match pieces.split_first() {
        None => {
            into.push(begin.copy()?)?;
            Ok(())
        }
        Some((Piece::Literal(_), rest)) => push_records(alloc, rest, texts, begin, room, into),
        Some((Piece::Slot(slot), rest)) => {
            for value in &values_of(alloc, slot, texts, room)? {
                let mut record = begin.copy()?;
                record.push(value.copy()?)?;
                let left = room.saturating_sub(value_len(value));
                push_records(alloc, rest, texts, &record, left, into)?;
            }
            Ok(())
        }
    }
}

/// The line of a record of the format.
pub(crate) fn line_of(
    alloc: Global,
    format: &Format,
    record: &Record,
) -> Result<Option<Bytes>, OutOfMemory> {
    if !format.check_record(record) {
        return Ok(None);
    }
    let mut line = Bytes::new(alloc);
    format.write_line(record, &mut line)?;
    Ok(Some(line))
}

/// The line of each record of these texts, with at most so many letters together.
pub(crate) fn lines_of(
    alloc: Global,
    format: &Format,
    texts: &[Bytes],
    most: u8,
) -> Result<Vec<Bytes>, OutOfMemory> {
    let mut records = Vec::new(alloc);
    let begin = Record::new(alloc);
    let room = usize::from(most);
    push_records(alloc, format.pieces(), texts, &begin, room, &mut records)?;
    let mut lines = Vec::new(alloc);
    for record in &records {
        if let Some(line) = line_of(alloc, format, record)? {
            lines.push(line)?;
        }
    }
    Ok(lines)
}
