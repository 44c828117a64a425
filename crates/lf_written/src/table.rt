//! The moves and ends of a machine, written out as a table.
ghost use Rattle.std.specs.Prelude.{◌≡◌, ◌<◌, map, IfOk};
ghost use Rattle.std.specs.List.{range_with_len};
ghost use Rattle.lf_core.specs.Marked.{Machine};
ghost use Rattle.lf_core.specs.Written.{written, points_of, moves_at, is_end_at};

use crate::cells::{Cells, cells_of};
use lf_core::{Marked, Move, OutOfMemory};
use std::alloc::Global;
use std::marker::Model;

/// A machine's moves and ends, written out: the moves from a point on a byte are found by two loads.
/// 8 bytes are used for each point and byte, 8 for each move and 1 for each point.
#[derive(Drop)]
pub struct Table {
    points: u32,
    start: u32,
    cells: Cells,
    ends: Vec<bool>,
}

impl Model for Table {
    ghost use Rattle.lf_core.specs.Written.{WrittenMachine};
    ghost use Rattle.lf_written.specs.Cells.{laid_out, AreLaid};

    ghost Value = { WrittenMachine };

    ghost view = { λ t. laid_out t.points t.start t.cells.starts.items t.cells.moves.items t.ends.items };

    ghost invariant = { λ t. AreLaid t.points t.cells.starts.items t.cells.moves.items t.ends.items };
}

impl Table {
    /// The machine, written out. Each of its moves is asked for once.
    pub fn of<M: Marked>(alloc: Global, m: &M) -> Result<Table, OutOfMemory>
        ensures { IfOk result (λ table. table ≡ written (M.machine m.now)) }
    {
        let cells = cells_of(alloc, m)?;
        let ends = ends_of(alloc, m)?;
        Ok(Table {
            points: m.points(),
            start: m.start(),
            cells,
            ends,
        })
    }

    /// How many points there are.
    pub fn points(&self) -> u32
        ensures { result ≡ points_of self.now }
    {
        self.points
    }

    /// The first point.
    pub fn start(&self) -> u32
        ensures { result ≡ self.now.start }
    {
        self.start
    }

    /// The moves from the point on the byte.
    pub fn moves(&self, point: u32, byte: u8) -> &[Move]
        requires { point < points_of self.now }
        ensures { result.now ≡ moves_at self.now point byte }
    {
        let cell = point as usize * 256 + byte as usize;
        self.cells.at(cell)
    }

    /// Whether the point is an end.
    pub fn is_end(&self, point: u32) -> bool
        requires { point < points_of self.now }
        ensures { result ≡ is_end_at self.now point }
    {
        self.ends[point as usize]
    }
}

/// Whether each point is an end.
fn ends_of<M: Marked>(alloc: Global, m: &M) -> Result<Vec<bool>, OutOfMemory>
    ensures { IfOk result (λ ends.
        ends.items ≡ map (M.machine m.now).is_end (range_with_len 0 (M.machine m.now).count)) }
{
    let mut ends = Vec::new(alloc);
    for point in 0..m.points() {
        ends.push(m.ends(point))?;
    }
    Ok(ends)
}
