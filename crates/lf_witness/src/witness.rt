//! The least witness.
ghost use Rattle.std.specs.Prelude.{IfOk};
ghost use Rattle.lf_core.specs.Marked.{IsMachine};
ghost use Rattle.lf_core.specs.Runs.{IsShared};
ghost use Rattle.lf_core.specs.Written.{machine_of};
ghost use Rattle.lf_product.specs.Distance.{IsAmbiguous};
ghost use Rattle.lf_witness.specs.Shared.{IsLeastShared};
ghost use Rattle.lf_witness.specs.Runs.{AreLeastRuns};

use crate::runs::extend_least;
use crate::second::second_run;
use crate::sets::sets_of;
use lf_core::{Bytes, OutOfMemory, Run};
use lf_product::{Pair, Pairs, least_word};
use lf_written::Table;
use std::alloc::Global;

/// The least line with two whole runs, and the two least runs on it.
#[derive(Debug, Drop)]
pub struct Witness {
    pub line: Bytes,
    /// The least whole run on the line.
    pub left: Run,
    /// The least of the others.
    pub right: Run,
}

/// The least line on which two different whole runs stand.
fn least_line(alloc: Global, pairs: &Pairs) -> Result<Bytes, OutOfMemory>
    requires { IsAmbiguous (machine_of pairs.now) }
    ensures { IfOk result (λ line. IsLeastShared (machine_of pairs.now) line) }
{
    pairs.is_machine();
    let start = pairs.table().start();
    let distance = pairs.distance(start, start, false).unwrap_or(0);
    let mut level = Vec::new(alloc);
    level.push(Pair {
        left: start,
        right: start,
        differed: false,
    })?;
    let line = least_word(alloc, pairs, level, distance)?;
    Ok(line)
}

/// The two least runs on a line on which two different ones stand.
fn least_runs(alloc: Global, table: &Table, line: &[u8]) -> Result<(Run, Run), OutOfMemory>
    requires lawful { IsMachine (machine_of table.now) }
    requires shared { IsShared (machine_of table.now) line.now }
    ensures { IfOk result (λ runs. AreLeastRuns (machine_of table.now) line.now runs.0 runs.1) }
{
    let sets = sets_of(alloc, table, line)?;
    let mut left = Run::new(alloc);
    extend_least(table, line, &sets, table.start(), &mut left)?;
    let right = second_run(alloc, table, line, &sets, &left)?;
    Ok((left, right))
}

/// The least line with two whole runs, and the two least runs on it, by marks.
pub fn least(alloc: Global, pairs: &Pairs) -> Result<Witness, OutOfMemory>
    requires { IsAmbiguous (machine_of pairs.now) }
    ensures line { IfOk result (λ witness. IsLeastShared (machine_of pairs.now) witness.line) }
    ensures runs { IfOk result (λ witness. AreLeastRuns (machine_of pairs.now) witness.line witness.left witness.right) }
{
    pairs.is_machine();
    let line = least_line(alloc, pairs)?;
    let (left, right) = least_runs(alloc, pairs.table(), line.as_slice())?;
    Ok(Witness { line, left, right })
}
