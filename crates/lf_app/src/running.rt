//! A run of a command line, from its words to its status.

ghost use Rattle.std.specs.Prelude.{◌≡◌, ◌≤◌};
ghost use Rattle.lf_io.specs.Faults.{Rose};
ghost use Rattle.lf_io.specs.Moves.{Gets};
ghost use Rattle.lf_app.specs.Statuses as statuses;
ghost use Rattle.lf_app.specs.declared.commands.Command.{Command as OneCommand};
ghost use Rattle.lf_app.specs.Commands.{IsCommand, TakesInput};
ghost use Rattle.lf_app.specs.Progress.{IsReady};
ghost use Rattle.lf_app.specs.Promise.{Runs, Tells};
ghost use Rattle.lf_app.specs.Run.{IsSettled, IsCutStream, IsSinkFault, IsNoMemory, IsComplete};

use crate::commands::{Command, read_command};
use crate::gate::Gate;
use crate::laws::words_are_one_command;
use crate::passes::work_lines;
use crate::showing::{readable_text, refusal_status, refusal_text, show_text, witness_text};
use crate::status::Status;
use crate::telling::tell_text;
use lf_core::{OutOfMemory, Str};
use lf_io::{Sink, Source};
use lf_log::generated_text;
use std::alloc::Global;
use std::thread::Threads;

/// Runs a command line.
pub fn run<R: Threads + Sync, S: Source, O: Sink, E: Sink, G: Gate + Sync>(
    _rt: &R,
    alloc: Global,
    words: &[Str],
    input: &mut S,
    out: &mut O,
    err: &mut E,
    _gate: &G,
) -> Status
    // At a final status, status and texts are the command's outcome on the input, and the input is at its end.
    ensures settled { (c : OneCommand) → IsCommand words.now c
        → IsSettled c result.0 (S.left input.old) (S.left input.new) (Gets (O.got out.old) (O.got out.new)) (Gets (E.got err.old) (E.got err.new)) }

    // A command that takes no input leaves it as it was.
    ensures untouched { (c : OneCommand) → IsCommand words.now c → (TakesInput c → ⊥) → input.new ≡ input.old }

    // A stream is cut only by a fault of the source or at its greatest length, and then its whole lines are written.
    ensures cut_stream { (c : OneCommand) → IsCommand words.now c
        → IsCutStream c result.0 (S.left input.old) (S.left input.new) (S.faults input.old) (S.faults input.new) (Gets (O.got out.old) (O.got out.new)) (Gets (E.got err.old) (E.got err.new)) }

    // A sink's fault is told only where one came, and prefixes of the outcome's texts are written.
    ensures sink_fault { (c : OneCommand) → IsCommand words.now c
        → IsSinkFault c result.0 (S.left input.old) (O.faults out.old) (O.faults out.new) (E.faults err.old) (E.faults err.new) (Gets (O.got out.old) (O.got out.new)) (Gets (E.got err.old) (E.got err.new)) }

    // For want of memory prefixes of the outcome's texts are written.
    ensures no_memory { (c : OneCommand) → IsCommand words.now c
        → IsNoMemory c result.0 (S.left input.old) (Gets (O.got out.old) (O.got out.new)) (Gets (E.got err.old) (E.got err.new)) }

    // Where no fault came, the status is the outcome's, unless memory runs out.
    ensures complete { (Rose (S.faults input.old) (S.faults input.new) → ⊥) → (Rose (O.faults out.old) (O.faults out.new) → ⊥) → (Rose (E.faults err.old) (E.faults err.new) → ⊥)
        → (c : OneCommand) → IsCommand words.now c → IsComplete c result.0 (S.left input.old) }

    // No other status comes.
    ensures status { result.0 ≤ statuses.endless }
{
    words_are_one_command();
    match read_command(alloc, words) {
        Ok(command) => answer(alloc, &command, input, out, err),
        Err(OutOfMemory) => Status::NO_MEMORY,
    }
}

/// Does what a command line asks for.
fn answer<S: Source, O: Sink, E: Sink>(
    alloc: Global,
    command: &Command,
    input: &mut S,
    out: &mut O,
    err: &mut E,
) -> Status
    requires { IsReady command.now }
    ensures runs { Runs command.now result.0 (S.left input.old) (S.left input.new) (Gets (O.got out.old) (O.got out.new)) (Gets (E.got err.old) (E.got err.new)) }
    ensures tells { Tells result.0 (S.faults input.old) (S.faults input.new) (O.faults out.old) (O.faults out.new) (E.faults err.old) (E.faults err.new) }
    ensures untouched { (TakesInput command.now → ⊥) → input.new ≡ input.old }
{
    match command {
        Command::Lines(job) => work_lines(alloc, job, input, out, err),
        Command::Readable(slots) => tell_text(readable_text(alloc, *slots), out, Status::DONE),
        Command::Witness(confusion) => tell_text(
            witness_text(alloc, confusion),
            out,
            Status::AMBIGUOUS,
        ),
        Command::Show(format) => tell_text(show_text(alloc, format), out, Status::DONE),
        Command::Generate(reader, seed, count) => tell_text(
            generated_text(alloc, reader, *seed, *count),
            out,
            Status::DONE,
        ),
        Command::Refuse(refusal) => {
            tell_text(refusal_text(alloc, refusal), err, refusal_status(refusal))
        }
    }
}
