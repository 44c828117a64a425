//! One whole run on a line.
ghost use Rattle.std.specs.Prelude.{◌≡◌, ◌<◌, List, Contains, MatchOption, IfOk};
ghost use Rattle.lf_core.specs.Marked.{IsMachine, IsWholeRun};

use crate::backward::{end_place, walk_back};
use crate::blocks::{BLOCK, back_over, block_at, checkpoints};
use crate::forward::Search;
use lf_core::{Marked, OutOfMemory, Run};
use std::alloc::Global;

/// Finds a whole run by the sets of points that the line's beginnings lead to.
pub struct SetReader;

impl SetReader {
    /// A whole run on the line; None exactly where there is none.
    /// Memory is used for 16 bytes each byte of the line, 16 each point that is reached after each byte of one block of
    /// 1,024 bytes, and 4 each point that is reached where a block begins. A line of several blocks is gone over twice.
    pub fn run<M: Marked>(alloc: Global, m: &M, line: &[u8]) -> Result<Option<Run>, OutOfMemory>
        ensures { IfOk result (λ found. MatchOption found
            ((run : List _) → IsWholeRun (M.machine m.now) line.now run → ⊥)
            (λ run. IsWholeRun (M.machine m.now) line.now run)) }
    {
        let last = line.len().saturating_sub(1) / BLOCK;
        let mut search = Search::new(alloc, m.points(), line.len().min(BLOCK) + 1)?;
        let sets = checkpoints(alloc, m, line, last, &mut search)?;
        let block = block_at(line, last * BLOCK);
        let level = search.trace(m, &sets[last], block)?;
        let nodes = search.forest.nodes.as_slice();
        let Some(end) = end_place(m, nodes, level) else {
            return Ok(None);
        };
        let mut back = Vec::with_capacity(alloc, line.len())?;
        let mut point = walk_back(m, &sets[last], block, nodes, end, &mut back)?;
        for k in 0..last {
            let at = last - 1 - k;
            let block = block_at(line, at * BLOCK);
            point = back_over(m, &sets[at], block, point, &mut search, &mut back)?;
        }
        Ok(Some(Run::turned(back)))
    }
}
