//! The points from which a byte leads somewhere, by class of bytes.
ghost use Rattle.std.specs.Prelude.{◌≡◌, ◌<◌, length, map, IfOk};
ghost use Rattle.lf_core.specs.Written.{machine_of};
ghost use Rattle.lf_tables.specs.Movers.{AreMovers, AreMoversByClass};
ghost use Rattle.lf_tables.specs.Tabled.{set_at};

use lf_core::OutOfMemory;
use lf_written::Table;
use std::alloc::Global;

/// By class, the points from which its bytes lead somewhere, in rising order.
#[derive(Drop)]
pub(crate) struct Movers {
    pub(crate) lists: Vec<Vec<u32>>,
}

/// The points from which the byte leads somewhere.
fn points_before(alloc: Global, table: &Table, byte: u8) -> Result<Vec<u32>, OutOfMemory>
    ensures { IfOk result (λ points. AreMovers (machine_of table.now) byte (machine_of table.now).count points.items) }
{
    let mut points = Vec::new(alloc);
    for point in 0..table.points() {
        if table.moves(point, byte).is_empty() {
            continue;
        }
        points.push(point)?;
    }
    Ok(points)
}

impl Movers {
    /// The points of each class, told by its first byte.
    pub(crate) fn new(alloc: Global, table: &Table, firsts: &[u8]) -> Result<Movers, OutOfMemory>
        ensures { IfOk result (λ movers. AreMoversByClass (machine_of table.now) firsts.now (map (λ v. v.items) movers.lists.items)) }
    {
        let mut lists = Vec::with_capacity(alloc, firsts.len())?;
        for byte in firsts {
            lists.push(points_before(alloc, table, *byte)?)?;
        }
        Ok(Movers { lists })
    }

    /// The points of the class.
    pub(crate) fn of_class(&self, class: usize) -> &[u32]
        requires { class < length self.now.lists.items }
        ensures { result.now ≡ set_at (map (λ v. v.items) self.now.lists.items) class }
    {
        &self.lists[class]
    }
}
