//! Formats and their pieces.

ghost use Rattle.std.specs.Prelude.{◌≡◌, ◌-◌, ◌≤◌, ◌++◌, ◌↔◌, length, slice_index_or, IsTrue, IfOk, OnOk, OnErr};
ghost use Rattle.lf_limits.specs.Limits.{most_slots};
ghost use Rattle.lf_core.specs.Adds.{AddsFront};
ghost use Rattle.lf_format.specs.Keeps.{KeepsFormat, slots_in};
ghost use Rattle.lf_format.specs.Lines.{IsRecordOf, line_text};
ghost use Rattle.lf_format.specs.Two.{with_two};

use crate::slot::Slot;
use crate::two::tell_apart;
use crate::writing::{are_held, write_pieces};
use lf_core::{Bytes, OutOfMemory, Record};
use std::alloc::Global;
use std::marker::Model;

/// A part of a line: bytes that each line has there, or a value.
#[derive(Debug, Drop)]
pub enum Piece {
    Literal(Bytes),
    Slot(Slot),
}

/// What ends a line.
#[derive(Clone, Copy, Debug, PartialEq, Eq)]
pub enum LineEnd {
    /// A line feed.
    Lf,
    /// A carriage return and a line feed.
    CrLf,
}

/// The pieces of a line in order, the line's end, and whether lines that begin with `#` are notes.
#[derive(Debug, Drop)]
pub struct Format {
    pieces: Vec<Piece>,
    end: LineEnd,
    notes: bool,
}

impl Model for Format {
    ghost use Rattle.lf_format.specs.Shape.{Shape};
    ghost use Rattle.lf_format.specs.Keeps.{KeepsFormat};

    ghost Value = { Shape };

    ghost view = { λ f. record { pieces = f.pieces.items; end = f.end; notes = f.notes } };

    ghost invariant = { λ f. KeepsFormat f.pieces.items };
}

impl Format {
    /// A format of at least one piece, of which no two neighbours are literals.
    pub fn new(pieces: Vec<Piece>, end: LineEnd, notes: bool) -> Format
        requires { KeepsFormat pieces.items }
        ensures { result ≡ record { pieces = pieces.items; end = end; notes = notes } }
    {
        Format { pieces, end, notes }
    }

    /// The pieces, in order.
    pub fn pieces(&self) -> &[Piece]
        ensures pieces { result.now ≡ self.now.pieces }
        ensures keeps { KeepsFormat self.now.pieces }
    {
        self.pieces.as_slice()
    }

    /// How many slots the format has.
    pub fn slots(&self) -> u32
        ensures { result ≡ length (slots_in self.now.pieces) }
    {
        count_slots(self.pieces.as_slice())
    }

    /// The slot of the number, counted from 1.
    pub fn slot(&self, k: u32) -> &Slot
        requires least { 1 ≤ k }
        requires most { k ≤ length (slots_in self.now.pieces) }
        ensures { result.now ≡ slice_index_or (slots_in self.now.pieces) (k - 1) result.now }
    {
        slot_at(self.pieces.as_slice(), k)
    }

    /// What ends a line that is written.
    pub fn end(&self) -> LineEnd
        ensures { result ≡ self.now.end }
    {
        self.end
    }

    /// Whether lines that begin with `#` are notes.
    pub fn notes(&self) -> bool
        ensures { result ≡ self.now.notes }
    {
        self.notes
    }

    /// Whether the record has one value for each slot, in order, each of them held.
    pub fn check_record(&self, rec: &Record) -> bool
        ensures { IsTrue result ↔ IsRecordOf self.now.pieces rec.now }
    {
        are_held(self.pieces.as_slice(), rec.as_slice())
    }

    /// Appends the line of the record, without its end.
    pub fn write_line(&self, rec: &Record, into: &mut Bytes) -> Result<(), OutOfMemory>
        requires { IsRecordOf self.now.pieces rec.now }
        ensures ok { OnOk result (into.new ≡ into.old ++ line_text self.now.pieces rec.now) }
        ensures err { OnErr result (AddsFront into.old into.new (line_text self.now.pieces rec.now)) }
    {
        write_pieces(self.pieces.as_slice(), rec.as_slice(), into)
    }

    /// An equal format, on the same allocator.
    pub fn copy(&self) -> Result<Format, OutOfMemory>
        ensures { IfOk result (λ copy. copy ≡ self.now) }
    {
        let pieces = copy_pieces(*self.pieces.allocator(), self.pieces.as_slice())?;
        Ok(Format::new(pieces, self.end, self.notes))
    }

    /// The same format with `DashTwo` in place of every `Dash`.
    pub fn with_two(self) -> Format
        ensures { result ≡ with_two self }
    {
        let mut pieces = self.pieces;
        tell_apart(pieces.as_mut_slice());
        Format::new(pieces, self.end, self.notes)
    }
}

impl Piece {
    /// An equal piece, on the same allocator.
    pub fn copy(&self) -> Result<Piece, OutOfMemory>
        ensures { IfOk result (λ copy. copy ≡ self.now) }
    {
        match self {
            Piece::Literal(text) => Ok(Piece::Literal(text.copy()?)),
            Piece::Slot(slot) => Ok(Piece::Slot(slot.copy()?)),
        }
    }
}

fn copy_pieces(alloc: Global, pieces: &[Piece]) -> Result<Vec<Piece>, OutOfMemory>
    ensures { IfOk result (λ copy. copy.items ≡ pieces.now) }
{
    let mut copy = Vec::new(alloc);
    for piece in pieces {
        copy.push(piece.copy()?)?;
    }
    Ok(copy)
}

fn count_slots(pieces: &[Piece]) -> u32
    requires { length (slots_in pieces.now) ≤ most_slots }
    ensures { result ≡ length (slots_in pieces.now) }
{
    match pieces.split_first() {
        None => 0,
        Some((Piece::Literal(_), rest)) => count_slots(rest),
        Some((Piece::Slot(_), rest)) => 1 + count_slots(rest),
    }
}

/// The slot of the number among the pieces, counted from 1.
fn slot_at(pieces: &[Piece], k: u32) -> &Slot
    requires least { 1 ≤ k }
    requires most { k ≤ length (slots_in pieces.now) }
    ensures { result.now ≡ slice_index_or (slots_in pieces.now) (k - 1) result.now }
{
    match pieces.split_first() {
        None => unreachable!(),
        Some((Piece::Literal(_), rest)) => slot_at(rest, k),
        Some((Piece::Slot(slot), rest)) => {
            if k == 1 {
                return slot;
            }
            slot_at(rest, k - 1)
        }
    }
}
