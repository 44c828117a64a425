//! Sets of points from which the rest of a line leads to an end.
ghost use Rattle.std.specs.Prelude.{◌≡◌, ◌<◌, [], true, All, Contains, MatchOption, IfOk, length};
ghost use Rattle.lf_core.specs.Marked.{IsMachine};
ghost use Rattle.lf_core.specs.Written.{machine_of};
ghost use Rattle.lf_witness.specs.Sets.{has_point, LeadsInto, AreBefore, AreEnding, AreSets};

use lf_core::{Move, OutOfMemory};
use lf_written::Table;
use std::alloc::Global;

/// A move that leads into the set.
fn onward(moves: &[Move], after: &[bool]) -> Option<Move>
    requires { All (λ x. x.to < length after.now) moves.now }
    ensures { MatchOption result (LeadsInto moves.now after.now → ⊥)
        (λ x. Contains moves.now x × (has_point after.now x.to ≡ true)) }
{
    for x in moves {
        if after[x.to as usize] {
            return Some(*x);
        }
    }
    None
}

/// The points that are ends.
fn ends_of(alloc: Global, table: &Table) -> Result<Vec<bool>, OutOfMemory>
    ensures { IfOk result (λ set. AreEnding (machine_of table.now) [] set.items) }
{
    let mut set = Vec::new(alloc);
    for point in 0..table.points() {
        set.push(table.is_end(point))?;
    }
    Ok(set)
}

/// The points from which a byte leads into the set.
fn before(alloc: Global, table: &Table, after: &[bool], byte: u8) -> Result<Vec<bool>, OutOfMemory>
    requires lawful { IsMachine (machine_of table.now) }
    requires after { length after.now ≡ (machine_of table.now).count }
    ensures { IfOk result (λ set. AreBefore (machine_of table.now) byte after.now set.items) }
{
    let mut set = Vec::new(alloc);
    for point in 0..table.points() {
        let moves = table.moves(point, byte);
        set.push(onward(moves, after).is_some())?;
    }
    Ok(set)
}

/// By number of bytes left, the points from which the rest of the line leads to an end.
pub(crate) fn sets_of(
    alloc: Global,
    table: &Table,
    line: &[u8],
) -> Result<Vec<Vec<bool>>, OutOfMemory>
    requires { IsMachine (machine_of table.now) }
    ensures { IfOk result (λ sets. AreSets (machine_of table.now) line.now sets.items) }
{
    let mut sets = Vec::new(alloc);
    sets.push(ends_of(alloc, table)?)?;
    for k in 0..line.len() {
        let set = before(alloc, table, &sets[k], line[line.len() - 1 - k])?;
        sets.push(set)?;
    }
    Ok(sets)
}
