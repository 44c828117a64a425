//! A machine's moves in one list.
ghost use Rattle.std.specs.Prelude.{◌≡◌, ℕ, ◌<◌, ◌≤◌, ◌+◌, ◌*◌, ◌++◌, [], ◌∷◌, length, OnOk, IfOk};
ghost use Rattle.lf_core.specs.Marked.{Machine};
ghost use Rattle.lf_written.specs.Cells.{start_of, moves_in, AreCells, HoldMoves};

use lf_core::{Marked, Move, OutOfMemory};
use smallvec::SmallVec;
use std::alloc::Global;

/// The moves from one point on one byte are a cell. The cell of point `p` and byte `b` is the one of number
/// `256 * p + b`; its moves go from its own start to the next cell's.
#[derive(Drop)]
pub(crate) struct Cells {
    pub(crate) starts: Vec<usize>,
    pub(crate) moves: Vec<Move>,
}

impl Cells {
    /// The moves of the cell.
    pub(crate) fn at(&self, cell: usize) -> &[Move]
        requires among { cell + 1 < length self.now.starts.items }
        requires ordered { start_of self.now.starts.items cell ≤ start_of self.now.starts.items (cell + 1) }
        requires within { start_of self.now.starts.items (cell + 1) ≤ length self.now.moves.items }
        ensures { result.now ≡ moves_in self.now.starts.items self.now.moves.items cell }
    {
        let from = self.starts[cell];
        let to = self.starts[cell + 1];
        &self.moves[from..to]
    }
}

/// No cell: the next one's start alone.
fn no_cells(alloc: Global) -> Result<Cells, OutOfMemory>
    ensures starts { IfOk result (λ cells. cells.starts.items ≡ 0 ∷ []) }
    ensures moves { IfOk result (λ cells. cells.moves.items ≡ []) }
{
    let mut starts = Vec::new(alloc);
    starts.push(0)?;
    Ok(Cells {
        starts,
        moves: Vec::new(alloc),
    })
}

/// Adds the moves from the point on the byte. `list` is room to work in.
fn add_cell<M: Marked>(
    m: &M,
    point: u32,
    byte: u8,
    list: &mut SmallVec<Move, 4, Global>,
    cells: &mut Cells,
) -> Result<(), OutOfMemory>
    requires { point < (M.machine m.now).count }
    ensures moves { OnOk result
        (cells.new.moves.items ≡ cells.old.moves.items ++ (M.machine m.now).moves point byte) }
    ensures starts { OnOk result
        (cells.new.starts.items ≡ cells.old.starts.items ++ length cells.new.moves.items ∷ []) }
{
    m.moves(point, byte, list)?;
    cells.moves.extend_from_slice(list.as_slice())?;
    let next = cells.moves.len();
    cells.starts.push(next)?;
    Ok(())
}

/// The cells of a machine's points.
pub(crate) fn cells_of<M: Marked>(alloc: Global, m: &M) -> Result<Cells, OutOfMemory>
    ensures cells { IfOk result (λ cells.
        AreCells cells.starts.items cells.moves.items ((M.machine m.now).count * 256)) }
    ensures moves { IfOk result (λ cells. HoldMoves (M.machine m.now) cells.starts.items cells.moves.items) }
{
    let mut list = SmallVec::new(alloc);
    let mut cells = no_cells(alloc)?;
    for cell in 0..m.points() as usize * 256 {
        let point = (cell / 256) as u32;
        let byte = (cell % 256) as u8;
        add_cell(m, point, byte, &mut list, &mut cells)?;
    }
    Ok(cells)
}
