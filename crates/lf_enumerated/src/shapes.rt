//! Small formats.

ghost use Rattle.std.specs.Prelude.{◌≡◌, ◌≢◌, [], ◌∷◌, IfOk, false};
ghost use Rattle.lf_core.specs.Class.{is_letter};
ghost use Rattle.lf_format.specs.Keeps.{KeepsSlot};

use lf_core::{Bytes, Class, OutOfMemory, Str};
use lf_domain::TextSet;
use lf_format::{Absent, Coding, Format, Kind, LineEnd, Piece, Slot};
use std::alloc::Global;
use std::test::Fail;

/// A slot of texts.
#[derive(Clone, Copy)]
pub(crate) struct Row {
    letters: &'static str,
    least: u8,
    most: Option<u8>,
    code: Coding,
    absent: Absent,
    present: bool,
    quoted: bool,
}

impl Row {
    /// Texts of at least so many of the letters.
    pub(crate) fn of(letters: &'static str, least: u8, code: Coding, absent: Absent) -> Row {
        Row {
            letters,
            least,
            most: None,
            code,
            absent,
            present: false,
            quoted: false,
        }
    }

    pub(crate) fn at_most(self, most: u8) -> Row {
        Row {
            most: Some(most),
            ..self
        }
    }

    pub(crate) fn present(self) -> Row {
        Row {
            present: true,
            ..self
        }
    }

    pub(crate) fn quoted(self) -> Row {
        Row {
            quoted: true,
            ..self
        }
    }
}

/// The row's texts, without line feeds.
fn texts_of(row: &Row) -> TextSet
    ensures { is_letter result.class 10 ≡ false }
{
    let mut class = Class::of(1, 0);
    for letter in row.letters.as_bytes() {
        class = class.with(*letter);
    }
    TextSet {
        class: class.without(b'\n'),
        min: u32::from(row.least),
        max: row.most.map(u32::from),
    }
}

fn slot_of(alloc: Global, row: &Row) -> Result<Slot, Fail>
    ensures { IfOk result KeepsSlot }
{
    let slot = Slot {
        name: Str::of(alloc, "%a")?,
        kind: Kind::Text(texts_of(row)),
        code: row.code,
        absent: row.absent,
        present: row.present,
        quoted: row.quoted,
    };
    if slot.holds_any()? {
        return Ok(slot);
    }
    Err("a slot without values".into())
}

fn literal_of(alloc: Global, byte: u8) -> Result<Bytes, OutOfMemory>
    ensures { IfOk result (λ text. text ≡ byte ∷ []) }
{
    let mut text = Bytes::new(alloc);
    text.push(byte)?;
    Ok(text)
}

fn two(alloc: Global, first: Slot, second: Slot) -> Result<Format, OutOfMemory>
    requires first { KeepsSlot first }
    requires second { KeepsSlot second }
{
    let pieces = vec![in alloc; Piece::Slot(first), Piece::Slot(second)]?;
    Ok(Format::new(pieces, LineEnd::Lf, false))
}

fn parted(alloc: Global, first: Slot, byte: u8, second: Slot) -> Result<Format, OutOfMemory>
    requires first { KeepsSlot first }
    requires second { KeepsSlot second }
    requires byte { byte ≢ 10 }
{
    let literal = literal_of(alloc, byte)?;
    let pieces = vec![in alloc;
        Piece::Slot(first),
        Piece::Literal(literal),
        Piece::Slot(second),
    ]?;
    Ok(Format::new(pieces, LineEnd::Lf, false))
}

fn three(alloc: Global, first: Slot, second: Slot, third: Slot) -> Result<Format, OutOfMemory>
    requires first { KeepsSlot first }
    requires second { KeepsSlot second }
    requires third { KeepsSlot third }
{
    let pieces = vec![in alloc; Piece::Slot(first), Piece::Slot(second), Piece::Slot(third)]?;
    Ok(Format::new(pieces, LineEnd::Lf, false))
}

/// Two slots, with a literal of one byte between them or none, or three slots.
pub(crate) fn format_of(alloc: Global, rows: &[Row], between: Option<u8>) -> Result<Format, Fail> {
    match (rows, between) {
        ([first, second], None) => Ok(two(alloc, slot_of(alloc, first)?, slot_of(alloc, second)?)?),
        ([first, second], Some(byte)) => {
            if byte == b'\n' {
                return Err("a line feed".into());
            }
            let first = slot_of(alloc, first)?;
            let second = slot_of(alloc, second)?;
            Ok(parted(alloc, first, byte, second)?)
        }
        ([first, second, third], None) => {
            let first = slot_of(alloc, first)?;
            let second = slot_of(alloc, second)?;
            let third = slot_of(alloc, third)?;
            Ok(three(alloc, first, second, third)?)
        }
        _ => Err("another shape".into()),
    }
}
