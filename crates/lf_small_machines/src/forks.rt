//! Small machines that are worked out by hand.

use crate::small_machines::{POINTS, SmallMachine};
use lf_core::OutOfMemory;
use std::alloc::Global;

/// On `a` one move, or two, from the first point; on `b` one from there to the fourth. The first and the fourth are ends.
pub(crate) fn fork(alloc: Global, forked: bool) -> Result<SmallMachine, OutOfMemory> {
    let mut m = SmallMachine::new(alloc, 0)?;
    m.add(0, b'a', 1)?;
    if forked {
        m.add(0, b'a', 8)?;
    }
    m.add(1, b'b', 3)?;
    m.add(2, b'b', 3)?;
    m.end_at(0);
    m.end_at(3);
    Ok(m)
}

/// The same, and on `c` one move from each of the four that stays.
pub(crate) fn staying_fork(alloc: Global, forked: bool) -> Result<SmallMachine, OutOfMemory> {
    let mut m = fork(alloc, forked)?;
    for point in 0..4u8 {
        m.add(point, b'c', 6 + point)?;
    }
    Ok(m)
}

/// Adds the last move, and of the first ten those whose binary digit the number has.
fn add_digits(m: &mut SmallMachine, from: u8, byte: u8, number: u32) -> Result<(), OutOfMemory> {
    for digit in 0..10u32 {
        if (number >> digit) % 2 == 1 {
            m.add(from, byte, digit as u8)?;
        }
    }
    m.add(from, byte, 11)
}

/// Adds no move on a byte below `a`, two on `a`, and on each byte above it moves that no other point and byte have.
fn add_row(m: &mut SmallMachine, from: u8) -> Result<(), OutOfMemory> {
    m.add(from, b'a', 7)?;
    m.add(from, b'a', 8)?;
    for above in 0..158u32 {
        add_digits(m, from, (above + 98) as u8, from as u32 * 158 + above)?;
    }
    Ok(())
}

/// The same moves from each point on the bytes up to `a`. The second point is the start, and the fourth is the end.
pub(crate) fn full_machine(alloc: Global) -> Result<SmallMachine, OutOfMemory> {
    let mut m = SmallMachine::new(alloc, 1)?;
    for from in 0..POINTS {
        add_row(&mut m, from)?;
    }
    m.end_at(3);
    Ok(m)
}
