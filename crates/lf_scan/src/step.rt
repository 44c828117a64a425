//! The steps of a plan, one a piece.
ghost use Rattle.std.specs.Prelude.{◌≡◌, IfOk, IfSome};
ghost use Rattle.lf_core.specs.Adds.{BeginsWith};
ghost use Rattle.lf_scan.specs.Reads.{Continues};
ghost use Rattle.lf_scan.specs.Steps.{piece_of};

use crate::slot_step::SlotStep;
use lf_core::{Bytes, OutOfMemory};
use lf_format::Piece;
use lf_letters::after_literal;
use lf_stamp::Recent;
use std::alloc::Global;

/// How a piece is read.
#[derive(Debug, Drop)]
pub enum Step {
    Literal(Bytes),
    Slot(SlotStep),
}

impl Step {
    /// The step of the piece, which the byte is guessed to follow.
    pub(crate) fn of(piece: &Piece, stop: Option<u8>) -> Result<Step, OutOfMemory>
        ensures { IfOk result (λ step. piece_of step ≡ piece.now) }
    {
        match piece {
            Piece::Literal(text) => {
                let text = text.copy()?;
                Ok(Step::Literal(text))
            }
            Piece::Slot(slot) => {
                let slot = SlotStep::of(slot, stop)?;
                Ok(Step::Slot(slot))
            }
        }
    }

    /// Reads what the piece prints, and adds a value's JSON with the byte before it; tells what is left, and the byte
    /// before the next value. None where the text doesn't fit.
    pub(crate) fn read<'a>(
        &self,
        alloc: Global,
        before: u8,
        recent: &mut Recent,
        text: &'a [u8],
        into: &mut Bytes,
    ) -> Result<Option<(&'a [u8], u8)>, OutOfMemory>
        ensures read { IfOk result (λ found. IfSome found (λ next. Continues (piece_of self.now) before next.1 text.now next.0.now into.old into.new)) }
        ensures kept { BeginsWith into.new into.old }
    {
        match self {
            Step::Literal(literal) => {
                let Some(left) = after_literal(literal.as_slice(), text) else {
                    return Ok(None);
                };
                Ok(Some((left, before)))
            }
            Step::Slot(slot) => {
                into.push(before)?;
                let Some(left) = slot.read(alloc, recent, text, into)? else {
                    return Ok(None);
                };
                Ok(Some((left, b',')))
            }
        }
    }
}
