//! Records whose lines begin with `#`.
ghost use Rattle.std.specs.Prelude.{◌≡◌, MatchOption, IfOk};
ghost use Rattle.lf_core.specs.Written.{written};
ghost use Rattle.lf_machine.specs.LineMachine.{line_machine};
ghost use Rattle.lf_compile.specs.Notes.{HasNote, IsLeastNote};

use crate::meaning::means_records;
use lf_core::{OutOfMemory, Record};
use lf_machine::FormatMachine;
use lf_product::Pairs;
use lf_witness::least_from;
use std::alloc::Global;

/// The least record of the least line that begins with `#`; None exactly where there is none.
pub(crate) fn least_note(
    alloc: Global,
    machine: &FormatMachine,
    pairs: &Pairs,
) -> Result<Option<Record>, OutOfMemory>
    requires { pairs.now ≡ written (line_machine machine.now) }
    ensures { IfOk result (λ found. MatchOption found
        (HasNote machine.now → ⊥)
        (λ rec. IsLeastNote machine.now rec)) }
{
    means_records(machine);
    match least_from(alloc, pairs, b'#')? {
        None => Ok(None),
        Some(headed) => Ok(Some(machine.decode(&headed.run)?)),
    }
}
