//! The tables of a machine: its reached sets of points, numbered, and where each byte leads from each.

ghost use Rattle.std.specs.Prelude.{◌≡◌, List, reverse, IfOk, MatchBool, MatchOption};
ghost use Rattle.lf_core.specs.declared.marked.Move.{Move};
ghost use Rattle.lf_core.specs.Marked.{IsMachine, IsWholeRun};
ghost use Rattle.lf_core.specs.Written.{machine_of};
ghost use Rattle.lf_limits.specs.Limits.{most_sets};
ghost use Rattle.lf_tables.specs.Reached.{ReachesMoreSets};

use crate::classes::{Classes, classes_of};
use crate::grid::Grid;
use crate::search::{Found, ends_of, search};
use lf_core::{Move, OutOfMemory, Run};
use lf_written::Table;
use std::alloc::Global;
use std::marker::Model;
use std::snapshot::Snapshot;

/// A machine's reached sets of points, and where each byte leads from each. Clauses see the machine.
#[derive(Drop)]
pub struct Tables {
    grid: Grid,
}

impl Model for Tables {
    ghost use Rattle.lf_core.specs.Written.{WrittenMachine};

    ghost Value = { WrittenMachine };

    ghost view = { λ t. t.grid.machine.value };
}

impl Tables {
    /// The tables of the machine that is written out; None exactly where more sets of points are reached than tables
    /// may have. The empty set counts where it is reached.
    pub fn build(alloc: Global, table: &Table) -> Result<Option<Tables>, OutOfMemory>
        requires { IsMachine (machine_of table.now) }
        ensures { IfOk result (λ found. MatchOption found
            (ReachesMoreSets (machine_of table.now) most_sets)
            (λ tables. (tables ≡ table.now) × (ReachesMoreSets (machine_of table.now) most_sets → ⊥))) }
    {
        let Classes { class_of, firsts } = classes_of(alloc, table)?;
        let Some(found) = search(alloc, table, &firsts)? else {
            return Ok(None);
        };
        let Found {
            sets,
            nexts,
            starts,
            backs,
        } = found;
        let ends = ends_of(alloc, table, &sets.lists)?;
        let classes = firsts.len();
        let grid = Grid {
            machine: Snapshot::of(table),
            sets: Snapshot::of(&sets.lists),
            class_of,
            classes,
            nexts,
            starts,
            backs,
            ends,
        };
        Ok(Some(Tables { grid }))
    }

    /// Puts a whole run on the line into `moves`, the last move first; false exactly where there is none.
    /// `trail` is room to work in. What stood in both lists is dropped.
    pub fn run_into(
        &self,
        line: &[u8],
        trail: &mut Vec<u16>,
        moves: &mut Vec<Move>,
    ) -> Result<bool, OutOfMemory>
        ensures { IfOk result (λ found. MatchBool found
            (IsWholeRun (machine_of self.now) line.now (reverse moves.new.items))
            ((run : List Move) → IsWholeRun (machine_of self.now) line.now run → ⊥)) }
    {
        let last = self.grid.forward(line, trail)?;
        let Some(end) = self.grid.ends[last as usize] else {
            return Ok(false);
        };
        self.grid.backward(line, trail, end, moves)?;
        Ok(true)
    }

    /// A whole run on the line; None exactly where there is none.
    pub fn run(&self, alloc: Global, line: &[u8]) -> Result<Option<Run>, OutOfMemory>
        ensures { IfOk result (λ found. MatchOption found
            ((run : List Move) → IsWholeRun (machine_of self.now) line.now run → ⊥)
            (λ run. IsWholeRun (machine_of self.now) line.now run)) }
    {
        let mut trail = Vec::with_capacity(alloc, line.len())?;
        let mut moves = Vec::with_capacity(alloc, line.len())?;
        if !self.run_into(line, &mut trail, &mut moves)? {
            return Ok(None);
        }
        Ok(Some(Run::turned(moves)))
    }
}
