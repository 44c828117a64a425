//! Runs over lines, by tables where there are any.
ghost use Rattle.std.specs.Prelude.{◌≡◌, List, IfOk, MatchBool, MatchOption};
ghost use Rattle.lf_core.specs.declared.marked.Move.{Move};
ghost use Rattle.lf_core.specs.Marked.{IsWholeRun};
ghost use Rattle.lf_core.specs.Written.{written};
ghost use Rattle.lf_machine.specs.LineMachine.{line_machine};
ghost use Rattle.lf_compile.specs.Tabled.{HasManySets};

use lf_core::{OutOfMemory, Run};
use lf_machine::FormatMachine;
use lf_scan::Plan;
use lf_sets::SetReader;
use lf_tables::Tables;
use lf_written::{Table, WrittenOut};
use std::alloc::Global;
use std::marker::Model;

/// Finds runs of a format's machine: by its tables, or by sets of points where there are too many for tables.
#[derive(Drop)]
pub(crate) struct Finder {
    machine: WrittenOut<FormatMachine>,
    tables: Option<Tables>,
    plan: Plan,
}

impl Model for Finder {
    ghost use Rattle.std.specs.Prelude.{◌≡◌, List};
    ghost use Rattle.lf_format.specs.declared.format.Piece.{Piece};
    ghost use Rattle.lf_compile.specs.Tabled.{AreTables};

    ghost Value = { List Piece };

    ghost view = { λ f. f.machine };

    ghost invariant = { λ f. AreTables f.machine f.tables × (f.plan ≡ f.machine) };
}

impl Finder {
    /// The finder of the machine that is written out, with the plan of the same pieces.
    pub(crate) fn new(
        alloc: Global,
        machine: FormatMachine,
        table: Table,
        plan: Plan,
    ) -> Result<Finder, OutOfMemory>
        requires table { table ≡ written (line_machine machine) }
        requires plan { plan ≡ machine }
        ensures { IfOk result (λ finder. finder ≡ machine) }
    {
        let tables = Tables::build(alloc, &table)?;
        Ok(Finder {
            machine: WrittenOut::new(machine, table),
            tables,
            plan,
        })
    }

    /// The machine.
    pub(crate) fn machine(&self) -> &WrittenOut<FormatMachine>
        ensures { result.now ≡ self.now }
    {
        &self.machine
    }

    /// The plan by which lines are scanned.
    pub(crate) fn plan(&self) -> &Plan
        ensures { result.now ≡ self.now }
    {
        &self.plan
    }

    /// Whether there are tables.
    pub(crate) fn tabled(&self) -> bool
        ensures { MatchBool result (HasManySets self.now → ⊥) (HasManySets self.now) }
    {
        self.tables.is_some()
    }

    /// A whole run on the line; None exactly where there is none.
    pub(crate) fn run(&self, alloc: Global, line: &[u8]) -> Result<Option<Run>, OutOfMemory>
        ensures { IfOk result (λ found. MatchOption found
            ((run : List Move) → IsWholeRun (line_machine self.now) line.now run → ⊥)
            (λ run. IsWholeRun (line_machine self.now) line.now run)) }
    {
        match &self.tables {
            Some(tables) => tables.run(alloc, line),
            None => SetReader::run(alloc, &self.machine, line),
        }
    }
}
