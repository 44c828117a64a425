//! The plan of a format.
ghost use Rattle.std.specs.Prelude.{◌≡◌, ◌++◌, IfOk};
ghost use Rattle.lf_scan.specs.Steps.{pieces_of};

use crate::step::Step;
use lf_core::OutOfMemory;
use lf_format::{Format, Piece};
use std::alloc::Global;
use std::marker::Model;

/// How the lines of a format are read by guess and check.
#[derive(Debug, Drop)]
pub struct Plan {
    steps: Vec<Step>,
}

impl Model for Plan {
    ghost use Rattle.std.specs.Prelude.{List};
    ghost use Rattle.lf_scan.specs.Steps.{pieces_of};
    ghost use Rattle.lf_format.specs.declared.format.Piece.{Piece as OnePiece};

    ghost Value = { List OnePiece };

    ghost view = { λ p. pieces_of p.steps.items };
}

impl Plan {
    /// The plan of the format.
    pub fn of(alloc: Global, format: &Format) -> Result<Plan, OutOfMemory>
        ensures { IfOk result (λ plan. plan ≡ format.now.pieces) }
    {
        let mut steps = Vec::new(alloc);
        push_steps(format.pieces(), &mut steps)?;
        Ok(Plan { steps })
    }

    pub(crate) fn steps(&self) -> &[Step]
        ensures { pieces_of result.now ≡ self.now }
    {
        self.steps.as_slice()
    }
}

/// Adds a step for each piece.
fn push_steps(pieces: &[Piece], into: &mut Vec<Step>) -> Result<(), OutOfMemory>
    ensures { IfOk result (λ _. pieces_of into.new.items ≡ pieces_of into.old.items ++ pieces.now) }
{
    let Some((piece, more)) = pieces.split_first() else {
        return Ok(());
    };
    let step = Step::of(piece, first_byte(more))?;
    into.push(step)?;
    push_steps(more, into)
}

/// The byte with which a literal before the other pieces begins.
fn first_byte(pieces: &[Piece]) -> Option<u8> {
    match pieces.split_first() {
        Some((Piece::Literal(text), _)) => text.as_slice().first().copied(),
        _ => None,
    }
}
