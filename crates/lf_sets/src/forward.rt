//! Steps of all points at once.
ghost use Rattle.std.specs.Prelude.{◌≡◌, ℕ, ◌+◌, ◌<◌, ◌≤◌, ◌↔◌, length, OnOk, IfOk, Contains};
ghost use Rattle.lf_core.specs.Marked.{Machine, IsMachine};
ghost use Rattle.lf_sets.specs.Reached.{ArePoints};
ghost use Rattle.lf_sets.specs.Forests.{point_at, HasPoint, IsNumbered, GainsStep, IsTraced};

use crate::forest::Forest;
use lf_core::{Marked, Move, OutOfMemory};
use smallvec::SmallVec;
use std::alloc::Global;

/// The points reached in a block, with room that is used again for each byte.
#[derive(Drop)]
pub(crate) struct Search {
    pub(crate) forest: Forest,
    moves: SmallVec<Move, 4, Global>,
}

impl Search {
    /// A search of a machine with that many points, with room for so many nodes.
    pub(crate) fn new(alloc: Global, points: u32, room: usize) -> Result<Search, OutOfMemory>
        ensures { IfOk result (λ s. length s.forest.places.items ≡ points) }
    {
        Ok(Search {
            forest: Forest::new(alloc, points, room)?,
            moves: SmallVec::new(alloc),
        })
    }

    /// Adds the points to which the byte leads from one node.
    fn step_from<M: Marked>(
        &mut self,
        m: &M,
        byte: u8,
        at: usize,
        level: usize,
    ) -> Result<(), OutOfMemory>
        requires at { at < length self.old.forest.nodes.items }
        requires point { point_at self.old.forest.nodes.items at < (M.machine m.now).count }
        requires level { level ≤ length self.old.forest.nodes.items }
        requires numbered { IsNumbered level self.old.forest.nodes.items self.old.forest.places.items }
        requires places { length self.old.forest.places.items ≡ (M.machine m.now).count }
        ensures gains { OnOk result (GainsStep (M.machine m.now) byte level at (at + 1)
            self.old.forest.nodes.items self.new.forest.nodes.items) }
        ensures numbered { OnOk result (IsNumbered level self.new.forest.nodes.items self.new.forest.places.items) }
        ensures places { OnOk result (length self.new.forest.places.items ≡ (M.machine m.now).count) }
    {
        let point = self.forest.nodes[at].point;
        m.moves(point, byte, &mut self.moves)?;
        self.forest.add_moves(at, level, self.moves.as_slice())
    }

    /// Adds a level: the points to which the byte leads from the last level, which begins at the place. It has none twice.
    fn step<M: Marked>(&mut self, m: &M, byte: u8, last: usize) -> Result<(), OutOfMemory>
        requires last { last ≤ length self.old.forest.nodes.items }
        requires points { (place : ℕ) → last ≤ place → place < length self.old.forest.nodes.items →
            point_at self.old.forest.nodes.items place < (M.machine m.now).count }
        requires places { length self.old.forest.places.items ≡ (M.machine m.now).count }
        ensures gains { OnOk result (GainsStep (M.machine m.now) byte (length self.old.forest.nodes.items) last
            (length self.old.forest.nodes.items) self.old.forest.nodes.items self.new.forest.nodes.items) }
        ensures numbered { OnOk result
            (IsNumbered (length self.old.forest.nodes.items) self.new.forest.nodes.items self.new.forest.places.items) }
        ensures places { OnOk result (length self.new.forest.places.items ≡ (M.machine m.now).count) }
    {
        let level = self.forest.nodes.len();
        for at in last..level {
            self.step_from(m, byte, at, level)?;
        }
        Ok(())
    }

    /// Goes over the block from the points, and tells where the last level begins.
    pub(crate) fn trace<M: Marked>(
        &mut self,
        m: &M,
        points: &[u32],
        block: &[u8],
    ) -> Result<usize, OutOfMemory>
        requires points { ArePoints (M.machine m.now) points.now }
        requires places { length self.old.forest.places.items ≡ (M.machine m.now).count }
        ensures traced { IfOk result (λ level. IsTraced (M.machine m.now) points.now block.now (length block.now)
            self.new.forest.nodes.items level) }
        ensures numbered { IfOk result (λ level. 0 < length block.now →
            IsNumbered level self.new.forest.nodes.items self.new.forest.places.items) }
        ensures places { OnOk result (length self.new.forest.places.items ≡ (M.machine m.now).count) }
    {
        self.forest.plant(points)?;
        let mut last = 0;
        for byte in block {
            let level = self.forest.nodes.len();
            self.step(m, *byte, last)?;
            last = level;
        }
        Ok(last)
    }

    /// The points of the level that begins at the place.
    pub(crate) fn points_from(&self, alloc: Global, level: usize) -> Result<Vec<u32>, OutOfMemory>
        requires { level ≤ length self.now.forest.nodes.items }
        ensures { IfOk result (λ points. (p : ℕ) →
            Contains points.items p ↔ HasPoint self.now.forest.nodes.items level p) }
    {
        let mut points = Vec::new(alloc);
        for at in level..self.forest.nodes.len() {
            points.push(self.forest.nodes[at].point)?;
        }
        Ok(points)
    }
}
