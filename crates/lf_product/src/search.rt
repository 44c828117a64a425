//! The search for distances: backward from pairs of ends, level by level.
ghost use Rattle.std.specs.Prelude.{◌≡◌, ℕ, ◌+◌, ◌*◌, ◌<◌, ◌≤◌, [], true, false, Bool, OnOk, IfOk};
ghost use Rattle.lf_core.specs.Marked.{Machine, IsMachine};
ghost use Rattle.lf_product.specs.Distance.{Suffices};
ghost use Rattle.lf_product.specs.Cells.{steps_at, IsExact};
ghost use Rattle.lf_core.specs.Written.{machine_of};
ghost use Rattle.lf_limits.specs.Limits.{most_size};
ghost use Rattle.lf_product.specs.Arcs.{lists_of};
ghost use Rattle.lf_product.specs.Level.{Complete, AllBefore, IsWhole, Standing, Going, Follows, AreArrivals, IsCovered, AreBefore, StepBy, Tell};

use crate::arrivals::{Arrival, arrivals_of};
use crate::pages::{NONE, Pages};
use crate::pair::SmallPair;
use lf_core::OutOfMemory;
use lf_written::Table;
use std::alloc::Global;

/// Gives the pair its distance, if it has none yet. It waits then, where a step can lead to it.
fn reach(
    table: &Table,
    distances: &mut Pages,
    waiting: &mut Vec<SmallPair>,
    pair: SmallPair,
    steps: u32,
) -> Result<(), OutOfMemory>
    requires standing { Standing (machine_of table.now) NONE steps distances.old waiting.old.items }
    requires left { pair.left < (machine_of table.now).count }
    requires right { pair.right < (machine_of table.now).count }
    requires way { Suffices (machine_of table.now) steps pair.left pair.right pair.differed }
    ensures going { OnOk result (Going (machine_of table.now) NONE steps
        distances.old waiting.old.items distances.new waiting.new.items) }
    ensures has { OnOk result (steps_at distances.new pair.left pair.right pair.differed < NONE) }
{
    if distances.get(pair) != NONE {
        return Ok(());
    }
    distances.set(pair, steps)?;
    if pair.left != pair.right {
        if !pair.differed {
            return Ok(());
        }
    }
    waiting.push(pair)?;
    Ok(())
}

/// Gives the pair its distance where that is so, if it has none yet.
fn reach_if(
    is_so: bool,
    table: &Table,
    distances: &mut Pages,
    waiting: &mut Vec<SmallPair>,
    pair: SmallPair,
    steps: u32,
) -> Result<(), OutOfMemory>
    requires standing { Standing (machine_of table.now) NONE steps distances.old waiting.old.items }
    requires left { pair.left < (machine_of table.now).count }
    requires right { pair.right < (machine_of table.now).count }
    requires way { is_so ≡ true → Suffices (machine_of table.now) steps pair.left pair.right pair.differed }
    ensures going { OnOk result (Going (machine_of table.now) NONE steps
        distances.old waiting.old.items distances.new waiting.new.items) }
    ensures has { OnOk result (is_so ≡ true → steps_at distances.new pair.left pair.right pair.differed < NONE) }
{
    if is_so {
        return reach(table, distances, waiting, pair, steps);
    }
    Ok(())
}

/// Reaches the pairs from which these two moves lead to the pair.
fn reach_by(
    table: &Table,
    distances: &mut Pages,
    waiting: &mut Vec<SmallPair>,
    x: &Arrival,
    y: &Arrival,
    pair: SmallPair,
    steps: u32,
) -> Result<(), OutOfMemory>
    requires standing { Standing (machine_of table.now) NONE steps distances.old waiting.old.items }
    requires left { x.now.from < (machine_of table.now).count }
    requires right { y.now.from < (machine_of table.now).count }
    requires step { StepBy (machine_of table.now) x.now y.now pair }
    requires way { Follows (machine_of table.now) steps pair }
    ensures going { OnOk result (Going (machine_of table.now) NONE steps
        distances.old waiting.old.items distances.new waiting.new.items) }
    ensures has { OnOk result (IsCovered ((machine_of table.now).count) NONE distances.new x.now y.now pair) }
{
    if !x.bytes.meets(&y.bytes) {
        return Ok(());
    }
    let same = pair.left == pair.right && x.mark == y.mark;
    let before = SmallPair {
        left: x.from as u16,
        right: y.from as u16,
        differed: true,
    };
    reach_if(pair.differed, table, distances, waiting, before, steps)?;
    let before = SmallPair {
        differed: false,
        ..before
    };
    reach_if(
        pair.differed != same,
        table,
        distances,
        waiting,
        before,
        steps,
    )
}

/// The lists that tell the steps to the pair: marks count only where its points are one.
fn telling<'a>(
    marked: &'a [Vec<Arrival>],
    joined: &'a [Vec<Arrival>],
    pair: SmallPair,
) -> &'a [Vec<Arrival>]
    ensures { (m : Machine) → AreArrivals m true (lists_of marked.now) → AreArrivals m false (lists_of joined.now)
        → Tell m (lists_of result.now) pair }
{
    if pair.left == pair.right {
        return marked;
    }
    joined
}

/// Reaches each pair from which a step leads to the pair.
fn reach_from(
    table: &Table,
    distances: &mut Pages,
    waiting: &mut Vec<SmallPair>,
    arrivals: &[Vec<Arrival>],
    pair: SmallPair,
    steps: u32,
) -> Result<(), OutOfMemory>
    requires standing { Standing (machine_of table.now) NONE steps distances.old waiting.old.items }
    requires arrivals { Tell (machine_of table.now) (lists_of arrivals.now) pair }
    requires left { pair.left < (machine_of table.now).count }
    requires right { pair.right < (machine_of table.now).count }
    requires way { Follows (machine_of table.now) steps pair }
    ensures going { OnOk result (Going (machine_of table.now) NONE steps
        distances.old waiting.old.items distances.new waiting.new.items) }
    ensures has { OnOk result (AreBefore (machine_of table.now) NONE distances.new pair) }
{
    for x in &arrivals[pair.left as usize] {
        for y in &arrivals[pair.right as usize] {
            reach_by(table, distances, waiting, x, y, pair, steps)?;
        }
    }
    Ok(())
}

/// One level of the search.
fn next_level(
    alloc: Global,
    table: &Table,
    distances: &mut Pages,
    marked: &[Vec<Arrival>],
    joined: &[Vec<Arrival>],
    level: &[SmallPair],
    steps: u32,
) -> Result<Vec<SmallPair>, OutOfMemory>
    requires marked { AreArrivals (machine_of table.now) true (lists_of marked.now) }
    requires joined { AreArrivals (machine_of table.now) false (lists_of joined.now) }
    requires more { steps + 1 < NONE }
    requires standing { Standing (machine_of table.now) NONE steps distances.old level.now }
    ensures going { IfOk result (λ next. Going (machine_of table.now) NONE (steps + 1)
        distances.old [] distances.new next.items) }
    ensures has { OnOk result (AllBefore (machine_of table.now) NONE distances.new level.now) }
{
    let mut waiting = Vec::new(alloc);
    for pair in level {
        let arrivals = telling(marked, joined, *pair);
        reach_from(table, distances, &mut waiting, arrivals, *pair, steps + 1)?;
    }
    Ok(waiting)
}

/// The pairs of two ends.
fn first_level(
    alloc: Global,
    table: &Table,
    distances: &mut Pages,
) -> Result<Vec<SmallPair>, OutOfMemory>
    requires lawful { IsMachine (machine_of table.now) }
    requires few { (machine_of table.now).count ≤ most_size }
    requires whole { IsWhole (machine_of table.now) distances.old }
    requires none { (a b : ℕ) (d : Bool) → a < (machine_of table.now).count → b < (machine_of table.now).count →
        steps_at distances.old a b d ≡ NONE }
    ensures going { IfOk result (λ next. Going (machine_of table.now) NONE 0
        distances.old [] distances.new next.items) }
    ensures has { OnOk result (Complete (machine_of table.now) ((machine_of table.now).count) 0 distances.new) }
{
    let mut waiting = Vec::new(alloc);
    for left in 0..table.points() {
        if table.is_end(left) {
            for right in 0..table.points() {
                if table.is_end(right) {
                    reach(
                        table,
                        distances,
                        &mut waiting,
                        SmallPair {
                            left: left as u16,
                            right: right as u16,
                            differed: true,
                        },
                        0,
                    )?;
                }
            }
        }
    }
    Ok(waiting)
}

/// The distances of a machine that is written out.
pub(crate) fn distances_of(alloc: Global, table: &Table) -> Result<Pages, OutOfMemory>
    requires lawful { IsMachine (machine_of table.now) }
    requires few { (machine_of table.now).count ≤ most_size }
    ensures exact { IfOk result
        (λ ds. IsExact (machine_of table.now) ((machine_of table.now).count) NONE ds) }
    ensures whole { IfOk result (λ ds. IsWhole (machine_of table.now) ds) }
{
    let marked = arrivals_of(alloc, table, true)?;
    let joined = arrivals_of(alloc, table, false)?;
    let mut distances = Pages::none(alloc, table.points())?;
    let mut level = first_level(alloc, table, &mut distances)?;
    let mut steps = 0;
    'levels: while !level.is_empty() {
        level = next_level(
            alloc,
            table,
            &mut distances,
            &marked,
            &joined,
            &level,
            steps,
        )?;
        steps += 1;
    }
    Ok(distances)
}
