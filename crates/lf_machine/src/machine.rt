//! The machine of a format: its points, moves and ends.

ghost use Rattle.lf_limits.specs.Limits.{most_size};
ghost use Rattle.std.specs.Prelude.{◌≡◌, ◌<◌, ◌≤◌, ◌+◌, ◌++◌, IfOk, OnOk, drop, length};
ghost use Rattle.lf_format.specs.Keeps.{EachKept};
ghost use Rattle.lf_format.specs.Size.{size_of};
ghost use Rattle.lf_machine.specs.LineBytes.{LiteralsAreBytes};
ghost use Rattle.lf_machine.specs.LineMachine.{line_machine, line_points, record_moves};
ghost use Rattle.lf_machine.specs.RecordOrder.{KeepsOrder};
ghost use Rattle.lf_machine.specs.Runs.{HasRuns};
ghost use Rattle.lf_machine.specs.Spots.{IsSpotOf};

use crate::piece_part::PiecePart;
use crate::place::Moves;
use crate::row::{all_empty, done_at, points_of, push_at, push_entry};
use crate::spots::{Spot, push_spots};
use lf_core::{Marked, OutOfMemory};
use lf_format::{Format, Piece};
use std::alloc::Global;
use std::marker::Model;

/// The marked machine of a format, a function of its pieces alone.
#[derive(Drop)]
pub struct FormatMachine {
    parts: Vec<PiecePart>,
    spots: Vec<Spot>,
    count: u32,
}

impl Model for FormatMachine {
    ghost use Rattle.std.specs.Prelude.{List};
    ghost use Rattle.lf_format.specs.declared.format.Piece.{Piece};
    ghost use Rattle.lf_machine.specs.Built.{IsBuilt};

    ghost Value = { List Piece };

    ghost view = { λ m. m.parts.items };

    ghost invariant = { λ m. IsBuilt m.parts.items m.spots.items m.count };
}

impl FormatMachine {
    /// The machine of the format. Two builds of equal formats give equal machines.
    pub fn build(alloc: Global, format: &Format) -> Result<FormatMachine, OutOfMemory>
        requires { size_of format.now.pieces ≤ most_size }
        ensures { IfOk result (λ machine. machine ≡ format.now.pieces) }
    {
        FormatMachine::assemble(alloc, format)
    }

    fn assemble(alloc: Global, format: &Format) -> Result<FormatMachine, OutOfMemory>
        requires { line_points format.now.pieces < most_size }
        ensures { IfOk result (λ machine. machine ≡ format.now.pieces) }
    {
        let mut parts = Vec::new(alloc);
        push_parts(alloc, format.pieces(), &mut parts)?;
        let mut spots = Vec::new(alloc);
        push_spots(parts.as_slice(), 0, 1, &mut spots)?;
        let count = points_of(parts.as_slice()) + 1;
        Ok(FormatMachine {
            parts,
            spots,
            count,
        })
    }

    /// The machine has exactly one whole run for each record, over its line, and no other.
    pub fn runs(&self)
        ensures { HasRuns self.now (line_machine self.now) (record_moves self.now) }
    {
        let _count = self.count;
    }

    /// Of two whole runs on one line the lesser is the lesser record's.
    pub fn keeps_order(&self)
        ensures { KeepsOrder self.now (record_moves self.now) }
    {
        let _count = self.count;
    }

    /// The machine has at most as many points as its format's size says.
    pub fn is_small(&self)
        ensures { (line_machine self.now).count ≤ size_of self.now }
    {}

    pub(crate) fn allocator(&self) -> Global {
        *self.parts.allocator()
    }

    pub(crate) fn parts(&self) -> &[PiecePart]
        ensures parts { result.now ≡ self.now }
        ensures kept { EachKept self.now }
        ensures few { length result.now ≤ most_size }
    {
        self.parts.as_slice()
    }

    /// Adds the moves at a point.
    fn push_point(&self, point: u32, byte: u8, into: &mut Moves) -> Result<(), OutOfMemory>
        requires { point < (line_machine self.now).count }
        ensures ok { OnOk result (into.new.items ≡ into.old.items ++ (line_machine self.now).moves point byte) }
    {
        if point == 0 {
            return push_entry(self.parts.as_slice(), 1, byte, into);
        }
        let spot = self.spot(point);
        push_at(self.parts_from(spot.part), spot, point, byte, into)
    }

    /// The spot of the point.
    fn spot(&self, point: u32) -> Spot
        requires least { 1 ≤ point }
        requires most { point < (line_machine self.now).count }
        ensures { IsSpotOf self.now 1 point result.part result.base result.done }
    {
        self.spots[point as usize - 1]
    }

    /// The parts from the one of the number on.
    fn parts_from(&self, number: u32) -> &[PiecePart]
        requires { number < length self.now }
        ensures parts { result.now ≡ drop number self.now }
        ensures few { length result.now ≤ most_size }
    {
        self.parts.as_slice().split_at(number as usize).1
    }
}

/// Adds the parts of the pieces.
fn push_parts(
    alloc: Global,
    pieces: &[Piece],
    parts: &mut Vec<PiecePart>,
) -> Result<(), OutOfMemory>
    requires { line_points pieces.now ≤ most_size }
    ensures ok { OnOk result (parts.new.items ≡ parts.old.items ++ pieces.now) }
    ensures bytes { OnOk result (LiteralsAreBytes pieces.now) }
{
    match pieces.split_first() {
        None => Ok(()),
        Some((piece, rest)) => {
            parts.push(PiecePart::of(alloc, piece)?)?;
            push_parts(alloc, rest, parts)
        }
    }
}

impl Marked for FormatMachine {
    ghost use Rattle.lf_machine.specs.LineMachine.{line_machine, line-marked};

    ghost machine = { line_machine };

    ghost laws = { line-marked };

    fn points(&self) -> u32 {
        self.count
    }

    fn start(&self) -> u32 {
        0
    }

    fn moves(&self, point: u32, byte: u8, into: &mut Moves) -> Result<(), OutOfMemory> {
        into.clear();
        let done = self.push_point(point, byte, into);
        if done.is_err() {
            into.clear();
        }
        done
    }

    fn ends(&self, point: u32) -> bool {
        if point == 0 {
            return all_empty(self.parts.as_slice());
        }
        let spot = self.spot(point);
        done_at(self.parts_from(spot.part), spot, point)
    }
}
