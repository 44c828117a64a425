//! What a format's machine means.
ghost use Rattle.std.specs.Prelude.{IfOk};
ghost use Rattle.lf_machine.specs.LineMachine.{line_machine, record_moves};
ghost use Rattle.lf_machine.specs.RecordOrder.{KeepsOrder};
ghost use Rattle.lf_machine.specs.Runs.{HasLine, HasRuns, IsRecordOfRun};

use lf_core::{OutOfMemory, Record, Run};
use lf_machine::FormatMachine;
use lf_written::WrittenOut;

/// Has one whole run for each record, in the records' order.
pub(crate) fn means_records(machine: &FormatMachine)
    ensures runs { HasRuns machine.now (line_machine machine.now) (record_moves machine.now) }
    ensures order { KeepsOrder machine.now (record_moves machine.now) }
{
    machine.runs();
    machine.keeps_order();
}

/// The same, of the machine that is written out.
pub(crate) fn has_runs(machine: &WrittenOut<FormatMachine>)
    ensures { HasRuns machine.now (line_machine machine.now) (record_moves machine.now) }
{
    let source = machine.source();
    source.runs();
}

/// The record whose run this is.
pub(crate) fn decode(machine: &WrittenOut<FormatMachine>, run: &Run) -> Result<Record, OutOfMemory>
    requires { HasLine (line_machine machine.now) run.now }
    ensures { IfOk result (λ rec.
        IsRecordOfRun machine.now (line_machine machine.now) (record_moves machine.now) run.now rec) }
{
    machine.source().decode(run)
}
