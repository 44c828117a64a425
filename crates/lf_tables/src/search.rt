//! The search for all sets that are reached.
ghost use Rattle.std.specs.Prelude.{◌≡◌, ℕ, ◌+◌, ◌*◌, ◌<◌, ◌≤◌, [], ◌∷◌, length, map, slice_index, slice_index_or, ◌++◌, OnOk, IfOk, MatchOption, MatchBool, Contains, Option};
ghost use Rattle.std.specs.Bool.{OnTrue};
ghost use Rattle.std.specs.Option.{ForSome};
ghost use Rattle.lf_core.specs.Marked.{IsMachine};
ghost use Rattle.lf_core.specs.Written.{machine_of};
ghost use Rattle.lf_limits.specs.Limits.{most_sets};
ghost use Rattle.lf_tables.specs.Reached.{ReachesMoreSets};
ghost use Rattle.lf_tables.specs.Tabled.{cells_of, cell_at, set_at, HasWays, AreStored, IsEndOf};
ghost use Rattle.lf_tables.specs.Found.{AreNumbered, AreFound};
ghost use Rattle.lf_tables.specs.Movers.{AreMoversByClass};

use crate::movers::Movers;
use crate::sets::Sets;
use crate::ways::{Back, points_of, ways_back};
use lf_core::OutOfMemory;
use lf_written::Table;
use std::alloc::Global;

/// Sets, and cells from the first set and class on.
#[derive(Drop)]
pub(crate) struct Found {
    pub(crate) sets: Sets,
    /// By cell, the next set.
    pub(crate) nexts: Vec<u16>,
    /// By cell, where the ways back begin.
    pub(crate) starts: Vec<usize>,
    pub(crate) backs: Vec<Back>,
}

impl Found {
    /// The set of the start alone.
    fn new(alloc: Global, table: &Table, firsts: &[u8]) -> Result<Found, OutOfMemory>
        ensures numbered { IfOk result (λ f. AreNumbered (λ v. v.items) f.sets.numbers (map (λ v. v.items) f.sets.lists.items)) }
        ensures found { IfOk result (λ f. AreFound (machine_of table.now) firsts.now (map (λ v. v.items) f.sets.lists.items) (cells_of f.nexts.items f.starts.items) f.backs.items) }
        ensures even { IfOk result (λ f. length f.nexts.items ≡ length f.starts.items) }
    {
        let _many = firsts.len();
        let mut sets = Sets::new(alloc);
        let points = vec![in alloc; table.start()]?;
        sets.number_of(alloc, points)?;
        Ok(Found {
            sets,
            nexts: Vec::new(alloc),
            starts: Vec::new(alloc),
            backs: Vec::new(alloc),
        })
    }

    /// Whether the cell has these ways back.
    fn has_ways(&self, cell: usize, ways: &[Back]) -> bool
        requires low { cell < length self.now.nexts.items }
        requires even { length self.now.nexts.items ≡ length self.now.starts.items }
        requires stored { AreStored (map (λ v. v.items) self.now.sets.lists.items) (cells_of self.now.nexts.items self.now.starts.items) self.now.backs.items }
        ensures { OnTrue result (HasWays (map (λ v. v.items) self.now.sets.lists.items) self.now.backs.items (cell_at (cells_of self.now.nexts.items self.now.starts.items) cell) ways.now) }
    {
        let set = &self.sets.lists[self.nexts[cell] as usize];
        if set.len() != ways.len() {
            return false;
        }
        let start = self.starts[cell];
        for place in 0..ways.len() {
            if self.backs[start + place] != ways[place] {
                return false;
            }
        }
        true
    }

    /// The first of the cells from this one on that has these ways back.
    fn cell_like(&self, first: usize, ways: &[Back]) -> Option<usize>
        requires even { length self.now.nexts.items ≡ length self.now.starts.items }
        requires stored { AreStored (map (λ v. v.items) self.now.sets.lists.items) (cells_of self.now.nexts.items self.now.starts.items) self.now.backs.items }
        ensures { ForSome result (λ cell. (cell < length self.now.nexts.items)
            × HasWays (map (λ v. v.items) self.now.sets.lists.items) self.now.backs.items (cell_at (cells_of self.now.nexts.items self.now.starts.items) cell) ways.now) }
    {
        for cell in first..self.nexts.len() {
            if self.has_ways(cell, ways) {
                return Some(cell);
            }
        }
        None
    }

    /// Adds this cell once more.
    fn repeat(&mut self, cell: usize) -> Result<(), OutOfMemory>
        requires low { cell < length self.old.nexts.items }
        requires even { length self.old.nexts.items ≡ length self.old.starts.items }
        ensures sets { self.new.sets ≡ self.old.sets }
        ensures backs { self.new.backs ≡ self.old.backs }
        ensures nexts { OnOk result (self.new.nexts.items ≡ self.old.nexts.items ++ slice_index self.old.nexts.items cell ∷ []) }
        ensures starts { OnOk result (self.new.starts.items ≡ self.old.starts.items ++ slice_index self.old.starts.items cell ∷ []) }
    {
        let next = self.nexts[cell];
        let start = self.starts[cell];
        self.nexts.push(next)?;
        self.starts.push(start)?;
        Ok(())
    }

    /// Adds the next cell; false where its set would be one too many.
    fn add_cell(
        &mut self,
        alloc: Global,
        table: &Table,
        firsts: &[u8],
        movers: &Movers,
    ) -> Result<bool, OutOfMemory>
        requires lawful { IsMachine (machine_of table.now) }
        requires movers { AreMoversByClass (machine_of table.now) firsts.now (map (λ v. v.items) movers.now.lists.items) }
        requires low { (k : ℕ) → k < length firsts.now → slice_index firsts.now k < 256 }
        requires even { length self.old.nexts.items ≡ length self.old.starts.items }
        requires room { length self.old.nexts.items < length self.old.sets.lists.items * length firsts.now }
        requires numbered { AreNumbered (λ v. v.items) self.old.sets.numbers (map (λ v. v.items) self.old.sets.lists.items) }
        requires found { AreFound (machine_of table.now) firsts.now (map (λ v. v.items) self.old.sets.lists.items) (cells_of self.old.nexts.items self.old.starts.items) self.old.backs.items }
        ensures numbered { OnOk result
            (AreNumbered (λ v. v.items) self.new.sets.numbers (map (λ v. v.items) self.new.sets.lists.items)) }
        ensures more { IfOk result (λ more. MatchBool more
            (AreFound (machine_of table.now) firsts.now (map (λ v. v.items) self.new.sets.lists.items) (cells_of self.new.nexts.items self.new.starts.items) self.new.backs.items
            × (length self.new.nexts.items ≡ length self.new.starts.items)
            × (length self.new.nexts.items ≡ length self.old.nexts.items + 1))
            (ReachesMoreSets (machine_of table.now) most_sets)) }
    {
        let cell = self.nexts.len();
        let class = cell % firsts.len();
        let points = &self.sets.lists[cell / firsts.len()];
        let backs = ways_back(alloc, table, points, firsts[class], movers.of_class(class))?;
        if let Some(like) = self.cell_like(cell - class, backs.as_slice()) {
            self.repeat(like)?;
            return Ok(true);
        }
        let set = points_of(alloc, &backs)?;
        let Some(next) = self.sets.number_of(alloc, set)? else {
            return Ok(false);
        };
        let start = self.backs.len();
        self.nexts.push(next)?;
        self.starts.push(start)?;
        self.backs.extend_from_slice(&backs)?;
        Ok(true)
    }
}

/// All sets that are reached, with all cells; None where there are too many.
pub(crate) fn search(
    alloc: Global,
    table: &Table,
    firsts: &[u8],
) -> Result<Option<Found>, OutOfMemory>
    requires lawful { IsMachine (machine_of table.now) }
    requires few { length firsts.now ≤ 256 }
    requires low { (k : ℕ) → k < length firsts.now → slice_index firsts.now k < 256 }
    ensures { IfOk result (λ found. MatchOption found
        (ReachesMoreSets (machine_of table.now) most_sets)
        (λ f. AreNumbered (λ v. v.items) f.sets.numbers (map (λ v. v.items) f.sets.lists.items)
        × AreFound (machine_of table.now) firsts.now (map (λ v. v.items) f.sets.lists.items) (cells_of f.nexts.items f.starts.items) f.backs.items
        × (length f.nexts.items ≡ length f.starts.items)
        × (length f.nexts.items ≡ length f.sets.lists.items * length firsts.now))) }
{
    let movers = Movers::new(alloc, table, firsts)?;
    let mut found = Found::new(alloc, table, firsts)?;
    'cells: while found.nexts.len() < found.sets.lists.len() * firsts.len() {
        if !found.add_cell(alloc, table, firsts, &movers)? {
            return Ok(None);
        }
    }
    Ok(Some(found))
}

/// The place of an end among the points.
fn end_among(table: &Table, points: &[u32]) -> Option<usize>
    requires { (p : ℕ) → Contains points.now p → p < (machine_of table.now).count }
    ensures { IsEndOf (machine_of table.now) points.now result }
{
    for (place, point) in points.iter().enumerate() {
        if table.is_end(*point) {
            return Some(place);
        }
    }
    None
}

/// By set, the place of an end.
pub(crate) fn ends_of(
    alloc: Global,
    table: &Table,
    lists: &[Vec<u32>],
) -> Result<Vec<Option<usize>>, OutOfMemory>
    requires { (s p : ℕ) → s < length lists.now → Contains (set_at (map (λ v. v.items) lists.now) s) p → p < (machine_of table.now).count }
    ensures each { IfOk result (λ ends. length ends.items ≡ length lists.now) }
    ensures ends { IfOk result (λ ends. (s : ℕ) (e : Option ℕ) → s < length lists.now → e ≡ slice_index_or ends.items s e →
        IsEndOf (machine_of table.now) (set_at (map (λ v. v.items) lists.now) s) e) }
{
    let mut ends = Vec::with_capacity(alloc, lists.len())?;
    for points in lists {
        ends.push(end_among(table, points))?;
    }
    Ok(ends)
}
