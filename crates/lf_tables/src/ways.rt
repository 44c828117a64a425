//! Where a byte leads from the points of a set, and the ways back.
ghost use Rattle.std.specs.Prelude.{◌≡◌, ℕ, ◌<◌, ◌≤◌, [], ◌∷◌, length, map, OnOk, IfOk, Contains};
ghost use Rattle.lf_core.specs.Marked.{IsMachine};
ghost use Rattle.lf_core.specs.Written.{machine_of};
ghost use Rattle.lf_tables.specs.Ways.{to_at, IsRising, GainsMoves, AreWays};
ghost use Rattle.lf_tables.specs.Found.{AreRising};
ghost use Rattle.lf_tables.specs.Movers.{AreMovers, GainsFrom};

use lf_core::{Move, OutOfMemory};
use lf_written::Table;
use std::alloc::Global;

/// A move, and the place in a set of the point that it leads from.
#[derive(Clone, Copy, Debug, PartialEq, Eq)]
pub(crate) struct Back {
    pub(crate) before: usize,
    pub(crate) step: Move,
}

/// The first place whose move doesn't lead below the point.
fn place_for(backs: &[Back], point: u32) -> usize
    requires { IsRising backs.now }
    ensures within { result ≤ length backs.now }
    ensures below { (k : ℕ) → k < result → to_at backs.now k < point }
    ensures above { (k : ℕ) → result ≤ k → k < length backs.now → point ≤ to_at backs.now k }
{
    let mut at = backs.len();
    'places: while at > 0 {
        if backs[at - 1].step.to < point {
            return at;
        }
        at -= 1;
    }
    at
}

/// Adds the way back in its order, if there is none from its point.
fn add(backs: &mut Vec<Back>, back: Back) -> Result<(), OutOfMemory>
    requires { IsRising backs.old.items }
    ensures { OnOk result (GainsMoves back.before (back.step ∷ []) backs.old.items backs.new.items) }
{
    let at = place_for(backs, back.step.to);
    if at < backs.len() {
        if backs[at].step.to == back.step.to {
            return Ok(());
        }
    }
    backs.insert(at, back)?;
    Ok(())
}

/// Adds where the moves lead from the point at the place.
fn add_moves(backs: &mut Vec<Back>, before: usize, moves: &[Move]) -> Result<(), OutOfMemory>
    requires { IsRising backs.old.items }
    ensures { OnOk result (GainsMoves before moves.now backs.old.items backs.new.items) }
{
    for step in moves {
        let back = Back {
            before,
            step: *step,
        };
        add(backs, back)?;
    }
    Ok(())
}

/// Adds where the byte leads from the point, if it is one of the points.
fn add_mover(
    backs: &mut Vec<Back>,
    table: &Table,
    points: &[u32],
    mover: u32,
    byte: u8,
) -> Result<(), OutOfMemory>
    requires rising { IsRising backs.old.items }
    requires points { AreRising points.now }
    requires mover { mover < (machine_of table.now).count }
    ensures { OnOk result (GainsFrom (machine_of table.now) points.now byte mover backs.old.items backs.new.items) }
{
    let Ok(before) = points.binary_search(&mover) else {
        return Ok(());
    };
    add_moves(backs, before, table.moves(mover, byte))?;
    Ok(())
}

/// A way back from each point to which the byte leads from the points, by the points from which it leads somewhere.
fn ways_by_movers(
    alloc: Global,
    table: &Table,
    points: &[u32],
    byte: u8,
    movers: &[u32],
) -> Result<Vec<Back>, OutOfMemory>
    requires points { (p : ℕ) → Contains points.now p → p < (machine_of table.now).count }
    requires rising { AreRising points.now }
    requires movers { AreMovers (machine_of table.now) byte (machine_of table.now).count movers.now }
    ensures { IfOk result (λ backs. AreWays (machine_of table.now) points.now byte (length points.now) backs.items) }
{
    let mut backs = Vec::new(alloc);
    for mover in movers {
        add_mover(&mut backs, table, points, *mover, byte)?;
    }
    Ok(backs)
}

/// A way back from each point to which the byte leads from the points, by these one after another.
fn ways_by_points(
    alloc: Global,
    table: &Table,
    points: &[u32],
    byte: u8,
) -> Result<Vec<Back>, OutOfMemory>
    requires { (p : ℕ) → Contains points.now p → p < (machine_of table.now).count }
    ensures { IfOk result (λ backs. AreWays (machine_of table.now) points.now byte (length points.now) backs.items) }
{
    let mut backs = Vec::new(alloc);
    for place in 0..points.len() {
        add_moves(&mut backs, place, table.moves(points[place], byte))?;
    }
    Ok(backs)
}

/// A way back from each point to which the byte leads from the points, in rising order.
/// `movers` are the points from which the byte leads somewhere: the shorter list is gone through.
pub(crate) fn ways_back(
    alloc: Global,
    table: &Table,
    points: &[u32],
    byte: u8,
    movers: &[u32],
) -> Result<Vec<Back>, OutOfMemory>
    requires points { (p : ℕ) → Contains points.now p → p < (machine_of table.now).count }
    requires rising { AreRising points.now }
    requires movers { AreMovers (machine_of table.now) byte (machine_of table.now).count movers.now }
    ensures { IfOk result (λ backs. AreWays (machine_of table.now) points.now byte (length points.now) backs.items) }
{
    if movers.len() < points.len() {
        return ways_by_movers(alloc, table, points, byte, movers);
    }
    ways_by_points(alloc, table, points, byte)
}

/// The points that the ways lead back from.
pub(crate) fn points_of(alloc: Global, backs: &[Back]) -> Result<Vec<u32>, OutOfMemory>
    ensures { IfOk result (λ points. points.items ≡ map (λ back. back.step.to) backs.now) }
{
    let points = backs.iter().map(|back| back.step.to).collect(alloc)?;
    Ok(points)
}
