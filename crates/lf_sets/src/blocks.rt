//! A line in blocks.
ghost use Rattle.std.specs.Prelude.{◌≡◌, ℕ, ◌+◌, ◌*◌, ◌<◌, ◌≤◌, ◌++◌, List, length, take, drop, reverse, OnOk, IfOk, Contains, slice_index_or};
ghost use Rattle.lf_core.specs.Marked.{Machine};
ghost use Rattle.lf_core.specs.Runs.{RunsToEnd};
ghost use Rattle.lf_sets.specs.Reached.{IsLedTo, ArePoints, AreReached};

use crate::backward::{point_place, walk_back};
use crate::forward::Search;
use lf_core::{Marked, Move, OutOfMemory};
use std::alloc::Global;

/// The bytes of a block. The last of a line may be shorter.
pub(crate) const BLOCK: usize = 1024;

/// The block that begins at the byte.
pub(crate) fn block_at(line: &[u8], first: usize) -> &[u8]
    requires { first ≤ length line.now }
    ensures full { first + BLOCK ≤ length line.now → length result.now ≡ BLOCK }
    ensures last { length line.now ≤ first + BLOCK → result.now ≡ drop first line.now }
    ensures is { result.now ≡ take (length result.now) (drop first line.now) }
{
    let rest = line.split_at(first).1;
    if rest.len() <= BLOCK {
        return rest;
    }
    rest.split_at(BLOCK).0
}

/// By block up to the last one, the points that are reached where it begins.
pub(crate) fn checkpoints<M: Marked>(
    alloc: Global,
    m: &M,
    line: &[u8],
    last: usize,
    search: &mut Search,
) -> Result<Vec<Vec<u32>>, OutOfMemory>
    requires last { last * BLOCK ≤ length line.now }
    requires places { length search.old.forest.places.items ≡ (M.machine m.now).count }
    ensures len { IfOk result (λ sets. length sets.items ≡ last + 1) }
    ensures each { IfOk result (λ sets. (k : ℕ) (v : _) → k ≤ last → v ≡ slice_index_or sets.items k v →
        AreReached (M.machine m.now) (take (k * BLOCK) line.now) v.items) }
    ensures places { OnOk result (length search.new.forest.places.items ≡ (M.machine m.now).count) }
{
    let mut sets = Vec::new(alloc);
    sets.push(vec![in alloc; m.start()]?)?;
    for k in 0..last {
        let level = search.trace(m, &sets[k], block_at(line, k * BLOCK))?;
        sets.push(search.points_from(alloc, level)?)?;
    }
    Ok(sets)
}

/// Goes over the block once more, and back from the point to one of the points; gives that one.
pub(crate) fn back_over<M: Marked>(
    m: &M,
    points: &[u32],
    block: &[u8],
    point: u32,
    search: &mut Search,
    back: &mut Vec<Move>,
) -> Result<u32, OutOfMemory>
    requires points { ArePoints (M.machine m.now) points.now }
    requires point { IsLedTo (M.machine m.now) points.now block.now point }
    requires places { length search.old.forest.places.items ≡ (M.machine m.now).count }
    ensures from { IfOk result (λ p. Contains points.now p) }
    ensures ends { IfOk result (λ p. (rest : List ℕ) →
        RunsToEnd (M.machine m.now) point rest (reverse back.old.items) →
        RunsToEnd (M.machine m.now) p (block.now ++ rest) (reverse back.new.items)) }
    ensures places { OnOk result (length search.new.forest.places.items ≡ (M.machine m.now).count) }
{
    let level = search.trace(m, points, block)?;
    let nodes = search.forest.nodes.as_slice();
    let place = point_place(nodes, level, point);
    walk_back(m, points, block, nodes, place, back)
}
