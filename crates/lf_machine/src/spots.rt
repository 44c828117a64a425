//! By point, the part that it is of.

ghost use Rattle.lf_machine.specs.Sums.{most_sum};
ghost use Rattle.std.specs.Prelude.{◌≡◌, ◌+◌, ◌<◌, ◌≤◌, ◌++◌, OnOk, length};
ghost use Rattle.lf_machine.specs.LineMachine.{line_points};
ghost use Rattle.lf_machine.specs.PieceNumbers.{piece_count};
ghost use Rattle.lf_machine.specs.Spots.{piece_spots, spots_from};

use crate::piece_part::PiecePart;
use lf_core::OutOfMemory;

/// Which part a point is of, where the points of that part begin, and whether the part may end at the point.
#[derive(Clone, Copy, Default)]
pub struct Spot {
    pub part: u32,
    pub base: u32,
    pub done: bool,
}

/// Adds a spot for each point of the parts, the first of which has the number and the base.
pub fn push_spots(
    parts: &[PiecePart],
    number: u32,
    base: u32,
    spots: &mut Vec<Spot>,
) -> Result<(), OutOfMemory>
    requires few { number + length parts.now ≤ most_sum }
    requires points { base + line_points parts.now ≤ most_sum }
    ensures ok { OnOk result (spots.new.items ≡ spots.old.items ++ spots_from number base parts.now) }
{
    match parts.split_first() {
        None => Ok(()),
        Some((part, rest)) => {
            push_own(part, number, base, spots)?;
            push_spots(rest, number + 1, base + part.points(), spots)
        }
    }
}

/// Adds a spot for each point of the part, which has the number and the base.
fn push_own(
    part: &PiecePart,
    number: u32,
    base: u32,
    spots: &mut Vec<Spot>,
) -> Result<(), OutOfMemory>
    ensures ok { OnOk result (spots.new.items ≡ spots.old.items ++ piece_spots number base part.now (piece_count part.now)) }
{
    for point in 0..part.points() {
        let done = part.is_done(point);
        spots.push(Spot {
            part: number,
            base,
            done,
        })?;
    }
    Ok(())
}
