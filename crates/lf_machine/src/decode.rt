//! The record that a run tells.

ghost use Rattle.lf_limits.specs.Limits.{most_size};
ghost use Rattle.std.specs.Prelude.{◌≡◌, ℕ, ◌-◌, ◌<◌, ◌≤◌, ◌^◌, ◌++◌, List, IfOk, OnOk, length, nat_le, take_while};
ghost use Rattle.lf_core.specs.declared.values.Value.{Value};
ghost use Rattle.lf_machine.specs.Decoding.{told_letter, told_letters, tells_dash, IsOfValue, IsOfRecord};
ghost use Rattle.lf_machine.specs.LineMachine.{line_machine, record_moves};
ghost use Rattle.lf_machine.specs.Runs.{HasLine, IsRecordOfRun};

use crate::machine::FormatMachine;
use crate::piece_part::{Part, PiecePart};
use crate::row::marks_of;
use crate::slot_part::is_blank_absent;
use lf_core::{Domain, Move, OutOfMemory, Record, Run, Value};
use lf_format::Slot;
use std::alloc::Global;

impl FormatMachine {
    /// The record whose run this is.
    pub fn decode(&self, run: &Run) -> Result<Record, OutOfMemory>
        requires { HasLine (line_machine self.now) run.now }
        ensures { IfOk result (λ rec. IsRecordOfRun self.now (line_machine self.now) (record_moves self.now) run.now rec) }
    {
        let mut record = Record::new(self.allocator());
        self.runs();
        decode_parts(self.allocator(), self.parts(), run.as_slice(), &mut record)?;
        Ok(record)
    }
}

/// Adds the values that the moves tell. Of the moves, the first ones are the first part's.
fn decode_parts(
    alloc: Global,
    parts: &[PiecePart],
    moves: &[Move],
    into: &mut Record,
) -> Result<(), OutOfMemory>
    requires { length parts.now ≤ most_size }
    ensures { (rec : List Value) → IsOfRecord parts.now moves.now rec → OnOk result (into.new ≡ into.old ++ rec) }
{
    match parts.split_first() {
        None => Ok(()),
        Some((part, rest)) => {
            let above = marks_of(rest);
            let (own, later) = moves.split_at(front_len(moves, above));
            match part.part() {
                Part::Literal(_) => {
                    decode_parts(alloc, rest, later, into)?;
                    Ok(())
                }
                Part::Slot(slot) => {
                    into.push(decode_slot(alloc, slot.slot(), own, above)?)?;
                    decode_parts(alloc, rest, later, into)?;
                    Ok(())
                }
            }
        }
    }
}

/// The value that the moves tell; their marks are raised by `above`.
fn decode_slot(alloc: Global, slot: &Slot, moves: &[Move], above: u32) -> Result<Value, OutOfMemory>
    requires { above < 2 ^ 22 }
    ensures { (v : Value) → IsOfValue slot.now above moves.now v → IfOk result (λ w. w ≡ v) }
{
    if is_dash(moves, above) {
        return Ok(Value::Missing);
    }
    let letters = letters_of(alloc, moves, above)?;
    if letters.as_slice().is_empty() & is_blank_absent(slot.absent) {
        return Ok(Value::Missing);
    }
    match slot.kind.read_plain(alloc, letters.as_slice())? {
        Some(value) => Ok(value),
        None => Ok(Value::Missing),
    }
}

/// How many moves have marks that are raised by `above`, before the first that has not.
fn front_len(moves: &[Move], above: u32) -> usize
    ensures { result ≡ length (take_while (λ m. nat_le above m.mark) moves.now) }
{
    moves.iter().take_while(|m| above <= m.mark).count()
}

/// Whether the first move is that of the dash of absence.
fn is_dash(moves: &[Move], above: u32) -> bool
    requires { above < 2 ^ 22 }
    ensures { result ≡ tells_dash above moves.now }
{
    match moves.split_first() {
        None => false,
        Some((first, _)) => first.mark == above + 1,
    }
}

/// The letters that the moves tell.
fn letters_of(alloc: Global, moves: &[Move], above: u32) -> Result<Vec<u8>, OutOfMemory>
    ensures { IfOk result (λ letters. letters.items ≡ told_letters above moves.now) }
{
    Ok(
        moves
            .iter()
            .filter_map(|m| letter_of(above, m.mark))
            .collect(alloc)?,
    )
}

/// The letter that the mark tells.
fn letter_of(above: u32, mark: u32) -> Option<u8>
    ensures { result ≡ told_letter above mark }
{
    let own = mark.saturating_sub(above);
    if 3 <= own && own <= 258 {
        return Some((own - 3) as u8);
    }
    None
}
