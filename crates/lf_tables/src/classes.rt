//! Bytes that no move tells apart.
ghost use Rattle.std.specs.Prelude.{◌≡◌, ◌+◌, ◌<◌, ◌≤◌, length, slice_index, OnOk, IfOk};
ghost use Rattle.lf_core.specs.Marked.{Machine};
ghost use Rattle.lf_core.specs.Written.{machine_of};
ghost use Rattle.lf_tables.specs.Classes.{AreAlike, AreFirsts, AreClasses};

use lf_core::OutOfMemory;
use lf_written::Table;
use std::alloc::Global;

/// By byte the number of its class, and by class its first byte.
#[derive(Drop)]
pub(crate) struct Classes {
    pub(crate) class_of: Vec<u8>,
    pub(crate) firsts: Vec<u8>,
}

/// The first byte that has the same first byte as this one so far, and the same moves from the point.
fn first_like(table: &Table, firsts: &[u8], point: u32, byte: u8) -> u8
    requires point { point < (machine_of table.now).count }
    requires each { length firsts.now ≡ 256 }
    ensures low { result ≤ byte }
    ensures same { slice_index firsts.now result ≡ slice_index firsts.now byte }
    ensures moves { (machine_of table.now).moves point result ≡ (machine_of table.now).moves point byte }
{
    let first = firsts[byte as usize];
    for other in first..byte {
        if firsts[other as usize] == first {
            if table.moves(point, other) == table.moves(point, byte) {
                return other;
            }
        }
    }
    byte
}

/// Tells apart the bytes whose moves from the point differ, from the last byte on.
fn tell_apart(table: &Table, point: u32, firsts: &mut [u8])
    requires point { point < (machine_of table.now).count }
    requires firsts { AreFirsts (machine_of table.now) point firsts.old }
    ensures { AreFirsts (machine_of table.now) (point + 1) firsts.new }
{
    for above in 0..256usize {
        let byte = 255 - above;
        firsts[byte] = first_like(table, firsts, point, byte as u8);
    }
}

/// By byte, the first one that no move tells from it.
fn firsts_of(alloc: Global, table: &Table) -> Result<Vec<u8>, OutOfMemory>
    ensures { IfOk result (λ firsts. AreFirsts (machine_of table.now) (machine_of table.now).count firsts.items) }
{
    let mut firsts = vec![in alloc; 0; 256]?;
    for point in 0..table.points() {
        tell_apart(table, point, &mut firsts);
    }
    Ok(firsts)
}

impl Classes {
    /// Puts the next byte into the class of one that no move tells from it, or into a new one where that is itself.
    fn add(&mut self, byte: u8, first: u8) -> Result<(), OutOfMemory>
        requires first { first ≤ byte }
        requires each { length self.old.class_of.items ≡ byte }
        requires few { length self.old.firsts.items ≤ byte }
        ensures { OnOk result ((machine : Machine) → AreAlike machine machine.count byte first →
            AreClasses machine self.old.class_of.items self.old.firsts.items byte →
            AreClasses machine self.new.class_of.items self.new.firsts.items (byte + 1)) }
    {
        if first < byte {
            let class = self.class_of[first as usize];
            self.class_of.push(class)?;
            return Ok(());
        }
        let class = self.firsts.len();
        self.firsts.push(byte)?;
        self.class_of.push(class as u8)?;
        Ok(())
    }
}

/// The classes of all bytes.
pub(crate) fn classes_of(alloc: Global, table: &Table) -> Result<Classes, OutOfMemory>
    ensures { IfOk result (λ classes. AreClasses (machine_of table.now) classes.class_of.items classes.firsts.items 256) }
{
    let firsts = firsts_of(alloc, table)?;
    let mut classes = Classes {
        class_of: Vec::new(alloc),
        firsts: Vec::new(alloc),
    };
    for byte in 0..256u16 {
        classes.add(byte as u8, firsts[byte as usize])?;
    }
    Ok(classes)
}
