//! The reader of a readable format.
ghost use Rattle.std.specs.Prelude.{◌≡◌, MatchBool, MatchOption, IfOk};
ghost use Rattle.lf_format.specs.Lines.{IsReadable, PrintsNone};
ghost use Rattle.lf_compile.specs.Accepted.{IsAccepted};
ghost use Rattle.lf_compile.specs.Confused.{IsOnlyRecord};
ghost use Rattle.lf_compile.specs.Tabled.{HasManySets, IsTabled};
ghost use Rattle.lf_scan.specs.Reads.{IsScan};

use crate::finder::Finder;
use crate::meaning::{decode, has_runs};
use lf_core::{Bytes, OutOfMemory, Record};
use lf_format::Format;
use lf_scan::scan;
use lf_stamp::Recent;
use std::alloc::Global;
use std::marker::Model;

/// Reads the lines of a format that has one record at most for each line.
#[derive(Drop)]
pub struct Reader {
    format: Format,
    finder: Finder,
}

impl Model for Reader {
    ghost use Rattle.lf_format.specs.Shape.{Shape};
    ghost use Rattle.lf_compile.specs.Accepted.{IsReader};

    ghost Value = { Shape };

    ghost view = { λ r. r.format };

    ghost invariant = { λ r. IsReader r.format r.finder };
}

impl Reader {
    pub(crate) fn new(format: Format, finder: Finder) -> Reader
        requires accepted { IsAccepted format }
        requires same { finder ≡ format.pieces }
        ensures { result ≡ format }
    {
        Reader { format, finder }
    }

    /// The format that was compiled.
    pub fn format(&self) -> &Format
        ensures { result.now ≡ self.now }
    {
        &self.format
    }

    /// What `compile` made sure of.
    pub fn is_accepted(&self)
        ensures { IsAccepted self.now }
    {
        let _finder = &self.finder;
    }

    /// Whether lines are read by tables: exactly where the format's machine reaches no more sets of points than tables
    /// may have.
    pub fn tabled(&self) -> bool
        ensures { MatchBool result (IsTabled self.now) (HasManySets self.now.pieces) }
    {
        self.finder.tabled()
    }

    /// Adds the JSON of a record that prints the line and says true, where the guesses of a scan fit. Else it says false
    /// and adds nothing, and only `read` tells whether a record prints the line. `recent` keeps the last time that was
    /// scanned.
    pub fn scan(
        &self,
        alloc: Global,
        recent: &mut Recent,
        line: &[u8],
        into: &mut Bytes,
    ) -> Result<bool, OutOfMemory>
        ensures { IfOk result (IsScan self.now.pieces line.now into.old into.new) }
    {
        scan(alloc, self.finder.plan(), recent, line, into)
    }

    /// The one record that prints the line; None exactly where no record does.
    /// Beside the record, memory is used for 10 bytes each byte of the line where there are tables, and else as
    /// `SetReader` says.
    pub fn read(&self, alloc: Global, line: &[u8]) -> Result<Option<Record>, OutOfMemory>
        ensures { IfOk result (λ found. MatchOption found
            (PrintsNone self.now.pieces line.now)
            (λ rec. IsOnlyRecord self.now.pieces line.now rec)) }
    {
        self.is_accepted();
        read_line(alloc, &self.finder, line)
    }
}

/// The one record of a readable format that prints the line.
fn read_line(alloc: Global, finder: &Finder, line: &[u8]) -> Result<Option<Record>, OutOfMemory>
    requires { IsReadable finder.now }
    ensures { IfOk result (λ found. MatchOption found
        (PrintsNone finder.now line.now)
        (λ rec. IsOnlyRecord finder.now line.now rec)) }
{
    let machine = finder.machine();
    has_runs(machine);
    match finder.run(alloc, line)? {
        None => Ok(None),
        Some(run) => Ok(Some(decode(machine, &run)?)),
    }
}
