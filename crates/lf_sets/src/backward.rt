//! The way back along the moves that led to a node.
ghost use Rattle.std.specs.Prelude.{◌≡◌, ℕ, ◌<◌, ◌≤◌, ◌++◌, List, length, reverse, true, MatchOption, OnOk, IfOk, Contains};
ghost use Rattle.lf_core.specs.Marked.{Machine};
ghost use Rattle.lf_core.specs.Runs.{RunsToEnd};
ghost use Rattle.lf_sets.specs.Forests.{point_at, HasPoint, IsTrail};

use crate::forest::Node;
use lf_core::{Marked, Move, OutOfMemory};
use std::alloc::Global;

/// The place of a node of the level that begins at the place, of an end.
pub(crate) fn end_place<M: Marked>(m: &M, nodes: &[Node], level: usize) -> Option<usize>
    requires { (place : ℕ) → level ≤ place → place < length nodes.now →
        point_at nodes.now place < (M.machine m.now).count }
    ensures { MatchOption result
        ((p : ℕ) → HasPoint nodes.now level p → (M.machine m.now).is_end p ≡ true → ⊥)
        (λ at. (level ≤ at) × (at < length nodes.now) × ((M.machine m.now).is_end (point_at nodes.now at) ≡ true)) }
{
    for at in level..nodes.len() {
        if m.ends(nodes[at].point) {
            return Some(at);
        }
    }
    None
}

/// The place of the point's node, in the level that begins at the place.
pub(crate) fn point_place(nodes: &[Node], level: usize, point: u32) -> usize
    requires { HasPoint nodes.now level point }
    ensures from { level ≤ result }
    ensures below { result < length nodes.now }
    ensures is { point_at nodes.now result ≡ point }
{
    let mut at = level;
    'nodes: while nodes[at].point != point {
        at += 1;
    }
    at
}

/// Puts the moves that led over the block to the node behind those after it, the last first; gives the point that
/// they lead from. The machine is named for the contract alone.
pub(crate) fn walk_back<M: Marked>(
    _m: &M,
    points: &[u32],
    block: &[u8],
    nodes: &[Node],
    end: usize,
    back: &mut Vec<Move>,
) -> Result<u32, OutOfMemory>
    requires { IsTrail (M.machine _m.now) points.now block.now nodes.now (length block.now) end }
    ensures from { IfOk result (λ p. Contains points.now p) }
    ensures ends { IfOk result (λ p. (rest : List ℕ) →
        RunsToEnd (M.machine _m.now) (point_at nodes.now end) rest (reverse back.old.items) →
        RunsToEnd (M.machine _m.now) p (block.now ++ rest) (reverse back.new.items)) }
{
    let mut at = end;
    for _k in 0..block.len() {
        let node = &nodes[at];
        back.push(Move {
            mark: node.mark,
            to: node.point,
        })?;
        at = node.before;
    }
    Ok(points[at])
}
