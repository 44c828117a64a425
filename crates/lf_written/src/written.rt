//! A machine beside its table, as a machine of its own.
ghost use Rattle.std.specs.Prelude.{◌≡◌};
ghost use Rattle.lf_core.specs.Written.{written};

use crate::table::Table;
use lf_core::{Marked, Move, OutOfMemory};
use smallvec::SmallVec;
use std::alloc::Global;
use std::marker::Model;

/// A machine, and the same written out. Clauses see the machine.
#[derive(Drop)]
pub struct WrittenOut<M: Marked> {
    table: Table,
    source: M,
}

impl<M: Marked> Model for WrittenOut<M> {
    ghost Value = { M };

    ghost view = { λ w. w.source };

    ghost invariant = { λ w. w.table ≡ written (M.machine w.source) };
}

impl<M: Marked + Drop> WrittenOut<M> {
    /// The machine, with what was written out of it.
    pub fn new(source: M, table: Table) -> WrittenOut<M>
        requires { table ≡ written (M.machine source) }
        ensures { result ≡ source }
    {
        WrittenOut { table, source }
    }

    /// The machine that was written out.
    pub fn source(&self) -> &M
        ensures { result.now ≡ self.now }
    {
        &self.source
    }
}

impl<M: Marked> Marked for WrittenOut<M> {
    ghost machine = { M.machine };

    ghost laws = { M.laws };

    fn points(&self) -> u32 {
        self.table.points()
    }

    fn start(&self) -> u32 {
        self.table.start()
    }

    fn moves(
        &self,
        point: u32,
        byte: u8,
        into: &mut SmallVec<Move, 4, Global>,
    ) -> Result<(), OutOfMemory> {
        into.clear();
        for step in self.table.moves(point, byte) {
            into.push(*step)?;
        }
        Ok(())
    }

    fn ends(&self, point: u32) -> bool {
        self.table.is_end(point)
    }
}
