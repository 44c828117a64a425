//! The distances of a machine's flagged pairs.
ghost use Rattle.std.specs.Prelude.{◌≡◌, ◌<◌, ◌≤◌, ◌↔◌, IfOk, IsTrue};
ghost use Rattle.lf_core.specs.Marked.{IsMachine};
ghost use Rattle.lf_core.specs.Written.{machine_of, written};
ghost use Rattle.lf_limits.specs.Limits.{most_size};
ghost use Rattle.lf_product.specs.Distance.{IsAmbiguous, IsDistance};

use crate::pages::{NONE, Pages};
use crate::pair::SmallPair;
use crate::search::distances_of;
use lf_core::{Marked, OutOfMemory};
use lf_written::Table;
use std::alloc::Global;
use std::marker::Model;

/// A machine, written out, and the distances of its flagged pairs.
#[derive(Drop)]
pub struct Pairs {
    table: Table,
    distances: Pages,
}

impl Model for Pairs {
    ghost use Rattle.lf_core.specs.Written.{WrittenMachine};
    ghost use Rattle.lf_product.specs.Kept.{AreKept};

    ghost Value = { WrittenMachine };

    ghost view = { λ p. p.table };

    ghost invariant = { AreKept };
}

/// The distances of a machine's flagged pairs.
pub fn distances<M: Marked>(alloc: Global, m: &M) -> Result<Pairs, OutOfMemory>
    requires { (M.machine m.now).count ≤ most_size }
    ensures { IfOk result (λ pairs. pairs ≡ written (M.machine m.now)) }
{
    let table = Table::of(alloc, m)?;
    let distances = distances_of(alloc, &table)?;
    Ok(Pairs { table, distances })
}

impl Pairs {
    /// The machine, written out.
    pub fn table(&self) -> &Table
        ensures { result.now ≡ self.now }
    {
        &self.table
    }

    /// The machine, written out. The distances are let go.
    pub fn into_table(self) -> Table
        ensures { result ≡ self }
    {
        let Pairs {
            table,
            distances: _distances,
        } = self;
        table
    }

    /// What is written out is a machine.
    pub fn is_machine(&self)
        ensures { IsMachine (machine_of self.now) }
    {
        let _table = &self.table;
    }

    /// The least number of bytes on which both reach an end with a difference,
    /// counting an earlier one where `differed` is true.
    pub fn distance(&self, a: u32, b: u32, differed: bool) -> Option<u32>
        requires left { a < (machine_of self.now).count }
        requires right { b < (machine_of self.now).count }
        ensures { IsDistance (machine_of self.now) a b differed result }
    {
        let steps = self.distances.get(SmallPair {
            left: a as u16,
            right: b as u16,
            differed,
        });
        if steps == NONE { None } else { Some(steps) }
    }

    /// Whether two different whole runs stand on one list of bytes, of any length.
    pub fn ambiguous(&self) -> bool
        ensures { IsTrue result ↔ IsAmbiguous (machine_of self.now) }
    {
        self.is_machine();
        let start = self.table.start();
        self.distance(start, start, false).is_some()
    }
}
