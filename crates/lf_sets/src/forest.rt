//! Points that moves led to, each with the way back.
ghost use Rattle.std.specs.Prelude.{◌≡◌, ◌<◌, ◌≤◌, ◌↔◌, length, All, OnOk, IfOk, IsTrue};
ghost use Rattle.lf_sets.specs.Forests.{HasPoint, IsNumbered, Gains, GainsMoves, IsPlanted};

use lf_core::{Move, OutOfMemory};
use std::alloc::Global;

/// A point, and the move that led to it.
#[derive(Clone, Copy, Debug)]
pub(crate) struct Node {
    pub(crate) point: u32,
    pub(crate) mark: u32,
    /// The place of the node that the move leads from.
    pub(crate) before: usize,
}

/// Nodes, level by level: first the points that a block begins with, then those after each byte.
#[derive(Drop)]
pub(crate) struct Forest {
    pub(crate) nodes: Vec<Node>,
    /// By point, the place of its newest node, if it had one. So no level need be cleared.
    places: Vec<usize>,
}

impl Forest {
    /// No nodes, but room for so many, and for the numbers of that many points.
    pub(crate) fn new(alloc: Global, points: u32, room: usize) -> Result<Forest, OutOfMemory>
        ensures { IfOk result (λ f. length f.places.items ≡ points) }
    {
        let places = vec![in alloc; 0usize; points as usize]?;
        Ok(Forest {
            nodes: Vec::with_capacity(alloc, room)?,
            places,
        })
    }

    /// Drops the nodes, and makes a level of these points.
    pub(crate) fn plant(&mut self, points: &[u32]) -> Result<(), OutOfMemory>
        ensures planted { OnOk result (IsPlanted points.now self.new.nodes.items) }
        ensures places { OnOk result (length self.new.places.items ≡ length self.old.places.items) }
    {
        self.nodes.clear();
        for point in points {
            self.nodes.push(Node {
                point: *point,
                mark: 0,
                before: 0,
            })?;
        }
        Ok(())
    }

    /// Whether the level that begins at the place has the point.
    fn has(&self, point: u32, level: usize) -> bool
        requires point { point < length self.now.places.items }
        requires numbered { IsNumbered level self.now.nodes.items self.now.places.items }
        ensures { IsTrue result ↔ HasPoint self.now.nodes.items level point }
    {
        let place = self.places[point as usize];
        if place < level {
            return false;
        }
        if place >= self.nodes.len() {
            return false;
        }
        self.nodes[place].point == point
    }

    /// Adds the node to the level, if the level has no node of its point.
    fn add(&mut self, node: Node, level: usize) -> Result<(), OutOfMemory>
        requires point { node.point < length self.old.places.items }
        requires level { level ≤ length self.old.nodes.items }
        requires numbered { IsNumbered level self.old.nodes.items self.old.places.items }
        ensures gains { OnOk result (Gains level node self.old.nodes.items self.new.nodes.items) }
        ensures numbered { OnOk result (IsNumbered level self.new.nodes.items self.new.places.items) }
        ensures places { OnOk result (length self.new.places.items ≡ length self.old.places.items) }
    {
        if self.has(node.point, level) {
            return Ok(());
        }
        self.places[node.point as usize] = self.nodes.len();
        self.nodes.push(node)?;
        Ok(())
    }

    /// Adds where the moves lead from the node at the place.
    pub(crate) fn add_moves(
        &mut self,
        at: usize,
        level: usize,
        moves: &[Move],
    ) -> Result<(), OutOfMemory>
        requires points { All (λ x. x.to < length self.old.places.items) moves.now }
        requires level { level ≤ length self.old.nodes.items }
        requires numbered { IsNumbered level self.old.nodes.items self.old.places.items }
        ensures gains { OnOk result (GainsMoves level at moves.now self.old.nodes.items self.new.nodes.items) }
        ensures numbered { OnOk result (IsNumbered level self.new.nodes.items self.new.places.items) }
        ensures places { OnOk result (length self.new.places.items ≡ length self.old.places.items) }
    {
        for step in moves {
            let node = Node {
                point: step.to,
                mark: step.mark,
                before: at,
            };
            self.add(node, level)?;
        }
        Ok(())
    }
}
