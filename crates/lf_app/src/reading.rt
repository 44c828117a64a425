//! The lines of a stream, reported as they are known.

ghost use Rattle.std.specs.Prelude.{◌≡◌, ◌+◌, ◌≤◌, Bool, false, true, ℕ, List, ◌++◌, length, IfOk, OnOk};
ghost use Rattle.lf_stream.specs.Standing.{bytes_fed};
ghost use Rattle.lf_limits.specs.Limits.{least_room, most_run_bytes};
ghost use Rattle.lf_app.specs.declared.verdict.Verdict.{Verdict as OneVerdict};
ghost use Rattle.lf_app.specs.Progress.{CanWork, IsReading, HasRead, IsBegun, IsOpen, ReadsNext, Grows, Says};

use crate::commands::Job;
use crate::report::Report;
use crate::verdict::verdict_of;
use lf_core::OutOfMemory;
use lf_stream::{Lines, Numbered};
use std::alloc::Global;

/// Reports a line. Where it can't be scanned, it is read exactly.
fn report_line(
    alloc: Global,
    job: &Job,
    line: Numbered<'_>,
    report: &mut Report,
) -> Result<(), OutOfMemory>
    requires { CanWork job.now }
    ensures says { OnOk result (Says job.now line.entry.body line.entry.number report.old report.new) }
    ensures count { OnOk result (report.new.count ≡ line.entry.number) }
{
    if report.scan_line(alloc, job, line)? {
        return Ok(());
    }
    let said = verdict_of(alloc, job, line.body)?;
    report.add(job, line.number, &said)
}

/// Reports the next line that is held whole. False where none is.
fn report_next(
    alloc: Global,
    job: &Job,
    lines: &mut Lines,
    report: &mut Report,
) -> Result<bool, OutOfMemory>
    requires { CanWork job.now }
    ensures { IfOk result (λ is_some. (over : Bool) (stream : List ℕ) (found : List OneVerdict)
        → IsReading job.now over lines.old report.old stream found
        → ReadsNext is_some job.now over lines.new report.old report.new stream found) }
{
    let Some(line) = lines.next() else {
        return Ok(false);
    };
    report_line(alloc, job, line, report)?;
    Ok(true)
}

/// Reports all lines that are held whole.
fn report_lines(
    alloc: Global,
    job: &Job,
    lines: &mut Lines,
    report: &mut Report,
) -> Result<(), OutOfMemory>
    requires job { CanWork job.now }
    requires begun { IsBegun job.now lines.old report.old }
    ensures { OnOk result ((over : Bool) (stream : List ℕ) (found : List OneVerdict)
        → IsReading job.now over lines.old report.old stream found
        → Grows job.now over lines.new report.old report.new stream found) }
{
    while report_next(alloc, job, lines, report)? {}
    Ok(())
}

/// Takes the next bytes of the stream, and reports each line that ends in them.
pub fn feed(
    alloc: Global,
    job: &Job,
    lines: &mut Lines,
    report: &mut Report,
    piece: &[u8],
) -> Result<(), OutOfMemory>
    requires job { CanWork job.now }
    requires unended { IsOpen job.now lines.old report.old }
    requires room { length piece.now ≤ least_room }
    requires most { bytes_fed lines.old + length piece.now ≤ most_run_bytes }
    ensures { OnOk result ((stream : List ℕ) (found : List OneVerdict)
        → HasRead job.now false lines.old report.old stream found
        → Grows job.now false lines.new report.old report.new (stream ++ piece.now) found) }
{
    lines.feed(piece);
    report_lines(alloc, job, lines, report)
}

/// Reports the last line, where the stream doesn't end in a line feed.
pub fn finish(
    alloc: Global,
    job: &Job,
    lines: &mut Lines,
    report: &mut Report,
) -> Result<(), OutOfMemory>
    requires job { CanWork job.now }
    requires unended { IsOpen job.now lines.old report.old }
    ensures { OnOk result ((stream : List ℕ) (found : List OneVerdict)
        → HasRead job.now false lines.old report.old stream found
        → Grows job.now true lines.new report.old report.new stream found) }
{
    lines.finish();
    report_lines(alloc, job, lines, report)
}
