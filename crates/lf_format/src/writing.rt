//! The line of a record, written piece by piece.

ghost use Rattle.std.specs.Prelude.{◌≡◌, ◌++◌, ◌↔◌, IsTrue, true, All, OnOk, OnErr};
ghost use Rattle.lf_core.specs.Adds.{AddsFront};
ghost use Rattle.lf_core.specs.declared.values.Value.{Value};
ghost use Rattle.lf_escape.specs.Codes.{coded};
ghost use Rattle.lf_escape.specs.Codings.{coding_takes, coding_word};
ghost use Rattle.lf_format.specs.Keeps.{KeepsSlot, EachKept};
ghost use Rattle.lf_format.specs.Kinds.{HoldsKind};
ghost use Rattle.lf_format.specs.Lines.{IsRecordOf, line_text};
ghost use Rattle.lf_format.specs.Slots.{Holds, coded_text, in_quotes, missing_text, slot_text};

use crate::format::Piece;
use crate::slot::{Absent, Slot};
use lf_core::{Bytes, Domain, OutOfMemory, Value};
use lf_escape::{Code, Coding};

/// Appends the words of the letters, and each run of letters that are their own words whole.
fn write_words(code: Coding, letters: &[u8], into: &mut Bytes) -> Result<(), OutOfMemory>
    requires { All (λ letter. coding_takes code letter ≡ true) letters.now }
    ensures ok { OnOk result (into.new ≡ into.old ++ coded (coding_word code) letters.now) }
    ensures err { OnErr result (AddsFront into.old into.new (coded (coding_word code) letters.now)) }
{
    let mut rest = letters;
    'runs: loop {
        let (bare, more) = rest.split_at(code.bare_len(rest));
        into.extend(bare)?;
        let Some((letter, after)) = more.split_first() else {
            return Ok(());
        };
        into.extend(code.word_of(*letter).as_slice())?;
        rest = after;
    }
}

/// Appends the coded text of a text. Letters that stand for themselves are copied whole.
fn write_letters(code: Coding, letters: &[u8], into: &mut Bytes) -> Result<(), OutOfMemory>
    requires { All (λ letter. coding_takes code letter ≡ true) letters.now }
    ensures ok { OnOk result (into.new ≡ into.old ++ coded (coding_word code) letters.now) }
    ensures err { OnErr result (AddsFront into.old into.new (coded (coding_word code) letters.now)) }
{
    match code {
        Coding::Raw => into.extend(letters),
        _ => write_words(code, letters, into),
    }
}

/// Appends the coded text of a present value.
fn write_coded(slot: &Slot, value: &Value, into: &mut Bytes) -> Result<(), OutOfMemory>
    requires kept { KeepsSlot slot.now }
    requires held { HoldsKind slot.now.kind value.now }
    ensures ok { OnOk result (into.new ≡ into.old ++ coded_text slot.now value.now) }
    ensures err { OnErr result (AddsFront into.old into.new (coded_text slot.now value.now)) }
{
    match value {
        Value::Text(text) => write_letters(slot.code, text.as_slice(), into),
        _ => slot.kind.write_plain(value, into),
    }
}

/// The bytes that stand for absence.
fn absence(absent: Absent, quoted: bool) -> &'static [u8]
    ensures { result.now ≡ missing_text absent quoted }
{
    match absent {
        Absent::No => b"",
        Absent::Dash | Absent::DashTwo => b"-",
        Absent::Blank => { if quoted { b"\"\"" } else { b"" } }
    }
}

/// Appends what the slot prints for a value that isn't missing.
fn write_present(slot: &Slot, value: &Value, into: &mut Bytes) -> Result<(), OutOfMemory>
    requires kept { KeepsSlot slot.now }
    requires held { HoldsKind slot.now.kind value.now }
    ensures ok { OnOk result (into.new ≡ into.old ++ in_quotes slot.now.quoted (coded_text slot.now value.now)) }
    ensures err { OnErr result (AddsFront into.old into.new (in_quotes slot.now.quoted (coded_text slot.now value.now))) }
{
    if !slot.quoted {
        return write_coded(slot, value, into);
    }
    into.push(b'"')?;
    write_coded(slot, value, into)?;
    into.push(b'"')
}

impl Slot {
    /// Appends what the slot prints for the value.
    pub fn write_value(&self, value: &Value, into: &mut Bytes) -> Result<(), OutOfMemory>
        requires kept { KeepsSlot self.now }
        requires held { Holds self.now value.now }
        ensures ok { OnOk result (into.new ≡ into.old ++ slot_text self.now value.now) }
        ensures err { OnErr result (AddsFront into.old into.new (slot_text self.now value.now)) }
    {
        match value {
            Value::Missing => into.extend(absence(self.absent, self.quoted)),
            _ => write_present(self, value, into),
        }
    }
}

/// Appends the line of the values.
pub(crate) fn write_pieces(
    pieces: &[Piece],
    values: &[Value],
    into: &mut Bytes,
) -> Result<(), OutOfMemory>
    requires kept { EachKept pieces.now }
    requires held { IsRecordOf pieces.now values.now }
    ensures ok { OnOk result (into.new ≡ into.old ++ line_text pieces.now values.now) }
    ensures err { OnErr result (AddsFront into.old into.new (line_text pieces.now values.now)) }
{
    match pieces.split_first() {
        None => Ok(()),
        Some((Piece::Literal(text), rest)) => {
            into.extend(text.as_slice())?;
            write_pieces(rest, values, into)
        }
        Some((Piece::Slot(slot), rest)) => match values.split_first() {
            None => unreachable!(),
            Some((value, more)) => {
                slot.write_value(value, into)?;
                write_pieces(rest, more, into)
            }
        },
    }
}

/// Whether the values are one for each slot, in order, each of them held.
pub(crate) fn are_held(pieces: &[Piece], values: &[Value]) -> bool
    ensures { IsTrue result ↔ IsRecordOf pieces.now values.now }
{
    match pieces.split_first() {
        None => values.is_empty(),
        Some((Piece::Literal(_), rest)) => are_held(rest, values),
        Some((Piece::Slot(slot), rest)) => match values.split_first() {
            None => false,
            Some((value, more)) => slot.holds(value) && are_held(rest, more),
        },
    }
}
