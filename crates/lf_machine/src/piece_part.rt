//! A piece as a part of its format's machine.

ghost use Rattle.lf_limits.specs.Limits.{most_size};
ghost use Rattle.std.specs.Prelude.{◌≡◌, ◌+◌, ◌<◌, ◌≤◌, ◌++◌, All, IfOk, OnOk, length, map};
ghost use Rattle.lf_machine.specs.LineBytes.{IsByte, IsOfBytes};
ghost use Rattle.lf_machine.specs.LiteralNumbers.{literal_at};
ghost use Rattle.lf_machine.specs.PieceNumbers.{piece_count, piece_enters, piece_moves, piece_is_done, piece_is_empty};
ghost use Rattle.lf_machine.specs.Parted.{piece_of};
ghost use Rattle.lf_machine.specs.Places.{IsNear, placed};

use crate::place::{Moves, Place};
use crate::slot_part::{SlotPart, is_empty_text};
use lf_core::{Bytes, OutOfMemory};
use lf_format::Piece;
use std::alloc::Global;
use std::marker::Model;

/// What a part is of: the bytes of a literal, or a slot.
#[derive(Drop)]
pub enum Part {
    Literal(Bytes),
    Slot(SlotPart),
}

/// A piece as a part of its format's machine. A literal has a point after each byte.
#[derive(Drop)]
pub struct PiecePart {
    part: Part,
}

impl Model for PiecePart {
    ghost use Rattle.lf_format.specs.declared.format.Piece.{Piece};
    ghost use Rattle.lf_machine.specs.Parted.{piece_of, IsShort};

    ghost Value = { Piece };

    ghost view = { λ p. piece_of p.part };

    ghost invariant = { λ p. IsShort (piece_of p.part) };
}

impl PiecePart {
    /// The piece as a part, which copies it.
    pub fn of(alloc: Global, piece: &Piece) -> Result<PiecePart, OutOfMemory>
        requires { piece_count piece.now ≤ most_size }
        ensures ok { IfOk result (λ part. part ≡ piece.now) }
        ensures bytes { OnOk result (IsOfBytes piece.now) }
    {
        match piece {
            Piece::Literal(text) => {
                read_bytes(text.as_slice());
                let text = text.copy()?;
                Ok(PiecePart {
                    part: Part::Literal(text),
                })
            }
            Piece::Slot(slot) => {
                let slot = SlotPart::of(alloc, slot)?;
                Ok(PiecePart {
                    part: Part::Slot(slot),
                })
            }
        }
    }

    /// What the part is of.
    pub fn part(&self) -> &Part
        ensures { piece_of result.now ≡ self.now }
    {
        &self.part
    }

    /// How many points the part has.
    pub fn points(&self) -> u32
        ensures { result ≡ piece_count self.now }
    {
        match &self.part {
            Part::Literal(text) => text.len() as u32,
            Part::Slot(slot) => slot.points(),
        }
    }

    /// Whether the piece may print nothing.
    pub fn is_empty(&self) -> bool
        ensures { result ≡ piece_is_empty self.now }
    {
        match &self.part {
            Part::Literal(text) => is_empty_text(text.as_slice()),
            Part::Slot(slot) => slot.is_empty(),
        }
    }

    /// Whether the piece may end at the point.
    pub fn is_done(&self, point: u32) -> bool
        ensures { result ≡ piece_is_done self.now point }
    {
        match &self.part {
            Part::Literal(text) => point as usize + 1 == text.len(),
            Part::Slot(slot) => slot.is_done(point),
        }
    }

    /// Adds the moves into the piece.
    pub fn push_enter(&self, byte: u8, place: Place, into: &mut Moves) -> Result<(), OutOfMemory>
        requires { IsNear place }
        ensures ok { OnOk result (into.new.items ≡ into.old.items ++ map (placed place) (piece_enters self.now byte)) }
    {
        match &self.part {
            Part::Literal(text) => push_literal(text.as_slice(), 0, byte, place, into),
            Part::Slot(slot) => slot.push_enter(byte, place, into),
        }
    }

    /// Adds the moves at a point of the piece.
    pub fn push_moves(
        &self,
        point: u32,
        byte: u8,
        place: Place,
        into: &mut Moves,
    ) -> Result<(), OutOfMemory>
        requires { IsNear place }
        ensures ok { OnOk result (into.new.items ≡ into.old.items ++ map (placed place) (piece_moves self.now point byte)) }
    {
        match &self.part {
            Part::Literal(text) => {
                push_literal(text.as_slice(), point as usize + 1, byte, place, into)
            }
            Part::Slot(slot) => slot.push_moves(point, byte, place, into),
        }
    }
}

/// Adds the move over the literal's byte at the place.
fn push_literal(
    text: &[u8],
    at: usize,
    byte: u8,
    place: Place,
    into: &mut Moves,
) -> Result<(), OutOfMemory>
    requires short { length text.now ≤ most_size }
    requires near { IsNear place }
    ensures ok { OnOk result (into.new.items ≡ into.old.items ++ map (placed place) (literal_at text.now at byte)) }
{
    if at < text.len() {
        return place.put_if(text[at] == byte, 0, at as u32, into);
    }
    Ok(())
}

/// What is read from memory is made of bytes.
fn read_bytes(_text: &[u8])
    ensures { All IsByte _text.now }
{}
