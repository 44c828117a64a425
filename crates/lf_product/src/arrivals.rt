//! The moves of a machine, by where they lead.
ghost use Rattle.std.specs.Prelude.{◌≡◌, ℕ, ◌<◌, ◌≤◌, ◌⊎◌, ◌++◌, ◌∷◌, [], Contains, length, OnOk, IfOk, slice_index_or, slice_set};
ghost use Rattle.lf_core.specs.Marked.{IsMachine};
ghost use Rattle.lf_core.specs.Written.{machine_of, moves_at, points_of};
ghost use Rattle.lf_limits.specs.Limits.{most_size};
ghost use Rattle.lf_product.specs.Arcs.{seen as seen_of, IsSeen, Departs, HaveBytes, lists_of};
ghost use Rattle.lf_product.specs.Level.{AreArrivals};

use crate::byte_set::ByteSet;
use lf_core::{Move, OutOfMemory};
use lf_written::Table;
use std::alloc::Global;

/// The moves that lead from one point to one other with one mark.
#[derive(Clone, Copy, Debug)]
struct Departure {
    mark: u32,
    to: u32,
    bytes: ByteSet,
}

/// The same, seen from where they lead.
#[derive(Clone, Copy, Debug)]
pub(crate) struct Arrival {
    pub(crate) from: u32,
    pub(crate) mark: u32,
    pub(crate) bytes: ByteSet,
}

/// Counts in one more move.
fn add_departure(departures: &mut Vec<Departure>, byte: u8, step: Move) -> Result<(), OutOfMemory>
    ensures kept { OnOk result
        ((x : Move) (b : ℕ) → Departs departures.old.items x b → Departs departures.new.items x b) }
    ensures added { OnOk result (Departs departures.new.items step byte) }
    ensures only { OnOk result
        ((x : Move) (b : ℕ) → b < 256 → Departs departures.new.items x b →
        Departs departures.old.items x b ⊎ ((x ≡ step) × (b ≡ byte))) }
    ensures some { OnOk result (HaveBytes departures.old.items → HaveBytes departures.new.items) }
{
    for i in 0..departures.len() {
        if departures[i].mark == step.mark && departures[i].to == step.to {
            let d = &mut departures[i];
            d.bytes = d.bytes.with(byte);
            return Ok(());
        }
    }
    departures.push(Departure {
        mark: step.mark,
        to: step.to,
        bytes: ByteSet::new().with(byte),
    })?;
    Ok(())
}

/// The move, or where marks don't count the same with mark 0.
fn seen(marked: bool, step: Move) -> Move
    ensures { result ≡ seen_of marked step }
{
    if marked {
        return step;
    }
    Move {
        mark: 0,
        to: step.to,
    }
}

/// The moves from a point, joined by mark, where marks count, and target.
fn departures_of(
    alloc: Global,
    table: &Table,
    from: u32,
    marked: bool,
) -> Result<Vec<Departure>, OutOfMemory>
    requires { from < points_of table.now }
    ensures from { IfOk result
        (λ ds. (x : Move) (b : ℕ) → b < 256 → Departs ds.items x b →
        IsSeen marked (moves_at table.now from b) x) }
    ensures all { IfOk result
        (λ ds. (x : Move) (b : ℕ) → b < 256 → Contains (moves_at table.now from b) x →
        Departs ds.items (seen_of marked x) b) }
    ensures some { IfOk result (λ ds. HaveBytes ds.items) }
{
    let mut departures = Vec::new(alloc);
    for byte in 0..256u32 {
        let byte = byte as u8;
        for step in table.moves(from, byte) {
            add_departure(&mut departures, byte, seen(marked, *step))?;
        }
    }
    Ok(departures)
}

/// Puts an arrival into the list of where it leads.
fn add_arrival(
    arrivals: &mut Vec<Vec<Arrival>>,
    to: u32,
    arrival: Arrival,
) -> Result<(), OutOfMemory>
    requires { to < length arrivals.old.items }
    ensures { OnOk result
        (lists_of arrivals.new.items ≡
        slice_set (lists_of arrivals.old.items) to (slice_index_or (lists_of arrivals.old.items) to [] ++ arrival ∷ [])) }
{
    let there = &mut arrivals[to as usize];
    there.push(arrival)?;
    Ok(())
}

/// An empty list for each point.
fn no_arrivals(alloc: Global, points: usize) -> Result<Vec<Vec<Arrival>>, OutOfMemory>
    ensures len { IfOk result (λ v. length v.items ≡ points) }
    ensures empty { IfOk result (λ v. (to : ℕ) → slice_index_or (lists_of v.items) to [] ≡ []) }
{
    let mut arrivals = Vec::new(alloc);
    for _k in 0..points {
        arrivals.push(Vec::new(alloc))?;
    }
    Ok(arrivals)
}

/// By point, the moves that lead there, with their marks or without.
pub(crate) fn arrivals_of(
    alloc: Global,
    table: &Table,
    marked: bool,
) -> Result<Vec<Vec<Arrival>>, OutOfMemory>
    requires lawful { IsMachine (machine_of table.now) }
    requires few { (machine_of table.now).count ≤ most_size }
    ensures { IfOk result (λ v. AreArrivals (machine_of table.now) marked (lists_of v.items)) }
{
    let mut arrivals = no_arrivals(alloc, table.points() as usize)?;
    for from in 0..table.points() {
        let departures = departures_of(alloc, table, from, marked)?;
        for d in &departures {
            let arrival = Arrival {
                from,
                mark: d.mark,
                bytes: d.bytes,
            };
            add_arrival(&mut arrivals, d.to, arrival)?;
        }
    }
    Ok(arrivals)
}
