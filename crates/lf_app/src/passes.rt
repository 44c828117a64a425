//! The way through a stream: a piece is pulled, its lines are reported, and the report is written.

ghost use Rattle.std.specs.Prelude.{◌≡◌, ◌+◌, ◌<◌, ◌≤◌, ◌⊎◌, ℕ, List, Option, length, IfErr, IsErrAnd, OnOk};
ghost use Rattle.lf_io.specs.Faults.{HasCause, Rose};
ghost use Rattle.lf_io.specs.Moves.{Gets, Takes, IsAtEnd};
ghost use Rattle.lf_io.specs.Steps.{Pulls};
ghost use Rattle.lf_stream.specs.Standing.{bytes_fed};
ghost use Rattle.lf_limits.specs.Limits.{least_room, most_run_bytes};
ghost use Rattle.lf_app.specs.Statuses as statuses;
ghost use Rattle.lf_app.specs.declared.commands.Command.TheVariants as command;
ghost use Rattle.lf_app.specs.Progress.{CanWork, IsOpen};
ghost use Rattle.lf_app.specs.Promise.{Runs, Tells};
ghost use Rattle.lf_app.specs.Flush.{HasCauses, Follows, GoesOn};

use crate::commands::Job;
use crate::flush::flush;
use crate::reading::{feed, finish};
use crate::report::Report;
use crate::status::Status;
use lf_io::{Pulled, Put, Sink, Source};
use lf_limits::MOST_RUN_BYTES;
use lf_stream::Lines;
use std::alloc::Global;

/// The next bytes of the stream are read, and what is found of their lines is written.
fn pass_piece<O: Sink, E: Sink>(
    alloc: Global,
    job: &Job,
    lines: &mut Lines,
    report: &mut Report,
    piece: &[u8],
    out: &mut O,
    err: &mut E,
) -> Result<(), Status>
    requires job { CanWork job.now }
    requires unended { IsOpen job.now lines.old report.old }
    requires room { length piece.now ≤ least_room }
    requires most { bytes_fed lines.old + length piece.now ≤ most_run_bytes }
    ensures goes_on { (left later now : Option (List ℕ)) (out_got err_got : Option (List ℕ))
        → Follows job.now lines.old report.old left later (Gets out_got (O.got out.old)) (Gets err_got (E.got err.old))
        → Takes later now piece.now
        → GoesOn result job.now lines.new report.new left now (Gets out_got (O.got out.new)) (Gets err_got (E.got err.new)) }
    ensures faults { HasCauses (O.faults out.old) (O.faults out.new) (E.faults err.old) (E.faults err.new) (IsErrAnd result (λ s. s.0 ≡ statuses.sink_fault)) }
    ensures known { IfErr result (λ s. s.0 ≡ statuses.sink_fault ⊎ s.0 ≡ statuses.no_memory) }
    ensures fed { OnOk result (bytes_fed lines.new ≡ bytes_fed lines.old + length piece.now) }
{
    let Ok(()) = feed(alloc, job, lines, report, piece) else {
        return Err(Status::NO_MEMORY);
    };
    match flush(report, out, err) {
        Put::Failed => Err(Status::SINK_FAULT),
        Put::Done => Ok(()),
    }
}

/// The stream has ended: the last line is read and written.
fn close<O: Sink, E: Sink>(
    alloc: Global,
    job: &Job,
    lines: &mut Lines,
    report: &mut Report,
    out: &mut O,
    err: &mut E,
) -> Status
    requires job { CanWork job.now }
    requires unended { IsOpen job.now lines.old report.old }
    ensures runs { (left later : Option (List ℕ)) (out_got err_got : Option (List ℕ))
        → Follows job.now lines.old report.old left later (Gets out_got (O.got out.old)) (Gets err_got (E.got err.old))
        → bytes_fed lines.old < most_run_bytes → IsAtEnd later
        → Runs (command.Lines job.now) result.0 left later (Gets out_got (O.got out.new)) (Gets err_got (E.got err.new)) }
    ensures faults { HasCauses (O.faults out.old) (O.faults out.new) (E.faults err.old) (E.faults err.new) (result.0 ≡ statuses.sink_fault) }
    ensures known { result.0 ≤ statuses.partial ⊎ result.0 ≡ statuses.sink_fault ⊎ result.0 ≡ statuses.no_memory }
{
    let Ok(()) = finish(alloc, job, lines, report) else {
        return Status::NO_MEMORY;
    };
    match flush(report, out, err) {
        Put::Failed => Status::SINK_FAULT,
        Put::Done => {
            if report.is_partial {
                Status::PARTIAL
            } else {
                Status::DONE
            }
        }
    }
}

/// Pulls at most `most` bytes.
fn pull_most<S: Source>(input: &mut S, buffer: &mut [u8], most: u64) -> Pulled
    requires some { 0 < most }
    requires room { 0 < length buffer.old }
    ensures bytes { Pulls (S.left input.old) (S.left input.new) buffer.new result }
    ensures most { (n : ℕ) → result ≡ Pulled.Took n → n ≤ most }
    ensures faults { HasCause (S.faults input.old) (S.faults input.new) (result ≡ Pulled.Failed) }
{
    if buffer.len() as u64 <= most {
        return input.pull(buffer);
    }
    input.pull(&mut buffer[..most as usize])
}

/// Reads the source to its end, through a buffer.
fn read_through<S: Source, O: Sink, E: Sink>(
    alloc: Global,
    job: &Job,
    buffer: &mut [u8],
    input: &mut S,
    out: &mut O,
    err: &mut E,
) -> Status
    requires job { CanWork job.now }
    requires some { 0 < length buffer.old }
    requires room { length buffer.old ≤ least_room }
    ensures runs { Runs (command.Lines job.now) result.0 (S.left input.old) (S.left input.new) (Gets (O.got out.old) (O.got out.new)) (Gets (E.got err.old) (E.got err.new)) }
    ensures tells { Tells result.0 (S.faults input.old) (S.faults input.new) (O.faults out.old) (O.faults out.new) (E.faults err.old) (E.faults err.new) }
{
    let Ok(mut lines) = Lines::new(alloc, job.has_notes()) else {
        return Status::NO_MEMORY;
    };
    let mut report = Report::new(alloc);
    loop {
        let most = MOST_RUN_BYTES - lines.fed();
        if most == 0 {
            return Status::ENDLESS;
        }
        match pull_most(input, buffer, most) {
            Pulled::Took(count) => {
                let piece = buffer.split_at(count).0;
                match pass_piece(alloc, job, &mut lines, &mut report, piece, out, err) {
                    Ok(()) => {}
                    Err(status) => return status,
                }
            }
            Pulled::End => return close(alloc, job, &mut lines, &mut report, out, err),
            Pulled::Failed => return Status::SOURCE_FAULT,
        }
    }
}

/// How many bytes are pulled at a time.
const PIECE_BYTES: usize = 262_144;

/// Works on the lines of the source, to its end.
pub fn work_lines<S: Source, O: Sink, E: Sink>(
    alloc: Global,
    job: &Job,
    input: &mut S,
    out: &mut O,
    err: &mut E,
) -> Status
    requires { CanWork job.now }
    ensures runs { Runs (command.Lines job.now) result.0 (S.left input.old) (S.left input.new) (Gets (O.got out.old) (O.got out.new)) (Gets (E.got err.old) (E.got err.new)) }
    ensures tells { Tells result.0 (S.faults input.old) (S.faults input.new) (O.faults out.old) (O.faults out.new) (E.faults err.old) (E.faults err.new) }
{
    match vec![in alloc; 0u8; PIECE_BYTES] {
        Ok(mut buffer) => read_through(alloc, job, buffer.as_mut_slice(), input, out, err),
        Err(_) => Status::NO_MEMORY,
    }
}
