//! Parts in a row: the moves into them and from their points.

ghost use Rattle.lf_limits.specs.Limits.{most_size};
ghost use Rattle.lf_machine.specs.Sums.{most_sum};
ghost use Rattle.std.specs.Prelude.{◌≡◌, ◌+◌, ◌<◌, ◌≤◌, ◌^◌, ◌++◌, OnOk, length};
ghost use Rattle.lf_machine.specs.LineMachine.{line_points, line_marks, line_enter, line_moves, line_empty, line_done};
ghost use Rattle.lf_machine.specs.Spots.{IsOfFirst};

use crate::piece_part::PiecePart;
use crate::place::{Moves, Place};
use crate::spots::Spot;
use lf_core::OutOfMemory;

/// How many marks the moves of a piece have.
pub const MARKS: u32 = 259;

/// How many marks the moves of the parts have.
pub fn marks_of(parts: &[PiecePart]) -> u32
    requires { length parts.now ≤ most_size }
    ensures exact { result ≡ line_marks parts.now }
    ensures most { result < 2 ^ 22 }
{
    MARKS * parts.len() as u32
}

/// How many points the parts have.
pub fn points_of(parts: &[PiecePart]) -> u32
    requires { line_points parts.now < most_sum }
    ensures { result ≡ line_points parts.now }
{
    match parts.split_first() {
        None => 0,
        Some((part, rest)) => part.points() + points_of(rest),
    }
}

/// Adds the moves into the parts, whose points begin at the base.
pub fn push_entry(
    parts: &[PiecePart],
    base: u32,
    byte: u8,
    into: &mut Moves,
) -> Result<(), OutOfMemory>
    requires few { length parts.now ≤ most_size }
    requires points { base + line_points parts.now ≤ most_sum }
    ensures ok { OnOk result (into.new.items ≡ into.old.items ++ line_enter parts.now base byte) }
{
    match parts.split_first() {
        None => Ok(()),
        Some((part, rest)) => {
            let place = Place {
                above: marks_of(rest),
                base,
            };
            if part.is_empty() {
                push_entry(rest, base + part.points(), byte, into)?;
                return part.push_enter(byte, place, into);
            }
            part.push_enter(byte, place, into)
        }
    }
}

/// Adds the moves at a point of the first part.
pub fn push_at(
    parts: &[PiecePart],
    spot: Spot,
    point: u32,
    byte: u8,
    into: &mut Moves,
) -> Result<(), OutOfMemory>
    requires few { length parts.now ≤ most_size }
    requires points { spot.base + line_points parts.now ≤ most_sum }
    requires first { IsOfFirst parts.now spot.base point spot.done }
    ensures ok { OnOk result (into.new.items ≡ into.old.items ++ line_moves parts.now spot.base point byte) }
{
    match parts.split_first() {
        None => Ok(()),
        Some((part, rest)) => {
            let place = Place {
                above: marks_of(rest),
                base: spot.base,
            };
            if spot.done {
                push_entry(rest, spot.base + part.points(), byte, into)?;
                return part.push_moves(point - spot.base, byte, place, into);
            }
            part.push_moves(point - spot.base, byte, place, into)
        }
    }
}

/// Whether the parts may print nothing.
pub fn all_empty(parts: &[PiecePart]) -> bool
    ensures { result ≡ line_empty parts.now }
{
    match parts.split_first() {
        None => true,
        Some((part, rest)) => part.is_empty() && all_empty(rest),
    }
}

/// Whether the line may stop at a point of the first part.
pub fn done_at(parts: &[PiecePart], spot: Spot, _point: u32) -> bool
    requires { IsOfFirst parts.now spot.base _point spot.done }
    ensures { result ≡ line_done parts.now spot.base _point }
{
    match parts.split_first() {
        None => false,
        Some((_, rest)) => spot.done && all_empty(rest),
    }
}
