//! Lines that two different records print.
ghost use Rattle.std.specs.Prelude.{◌≡◌, MatchOption, IfOk};
ghost use Rattle.lf_core.specs.Written.{written, machine_of};
ghost use Rattle.lf_format.specs.Lines.{IsReadable};
ghost use Rattle.lf_machine.specs.LineMachine.{line_machine};
ghost use Rattle.lf_product.specs.Distance.{IsAmbiguous};
ghost use Rattle.lf_compile.specs.Confused.{IsLeastConfused};

use crate::meaning::means_records;
use crate::refused::Confusion;
use lf_core::OutOfMemory;
use lf_machine::FormatMachine;
use lf_product::Pairs;
use lf_witness::{Witness, least};
use std::alloc::Global;

/// The least confused line and its two least records; None exactly where no line is confused.
pub(crate) fn least_confusion(
    alloc: Global,
    machine: &FormatMachine,
    pairs: &Pairs,
) -> Result<Option<Confusion>, OutOfMemory>
    requires { pairs.now ≡ written (line_machine machine.now) }
    ensures { IfOk result (λ found. MatchOption found
        (IsReadable machine.now)
        (λ confusion. IsLeastConfused machine.now confusion.line confusion.first confusion.second)) }
{
    means_records(machine);
    if !pairs.ambiguous() {
        return Ok(None);
    }
    Ok(Some(confusion_of(alloc, machine, pairs)?))
}

/// The least confused line of an ambiguous machine.
fn confusion_of(
    alloc: Global,
    machine: &FormatMachine,
    pairs: &Pairs,
) -> Result<Confusion, OutOfMemory>
    requires same { pairs.now ≡ written (line_machine machine.now) }
    requires ambiguous { IsAmbiguous (machine_of pairs.now) }
    ensures { IfOk result (λ confusion. IsLeastConfused machine.now confusion.line confusion.first confusion.second) }
{
    means_records(machine);
    let Witness { line, left, right } = least(alloc, pairs)?;
    let first = machine.decode(&left)?;
    let second = machine.decode(&right)?;
    Ok(Confusion {
        line,
        first,
        second,
    })
}
