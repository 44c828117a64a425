//! The verdict of a line.

ghost use Rattle.std.specs.Prelude.{ℕ, List, IfOk};
ghost use Rattle.lf_stream.specs.Marks.{IsBody};
ghost use Rattle.lf_app.specs.Progress.{CanWork};
ghost use Rattle.lf_app.specs.declared.verdict.Verdict.TheVariants as verdict;
ghost use Rattle.lf_app.specs.Verdicts.{format_of, has_notes, IsFound, IsVerdict, IsOfFormat};

use crate::commands::Job;
use lf_core::{Bytes, OutOfMemory, Record};
use lf_json::{BadRecord, read_record};
use lf_stream::Body;
use lf_translate::Turned;
use std::alloc::Global;

/// What is found of a line: the record that prints it, or that none does; or the record that it is as
/// JSON, or why it is none; or the line of another format that it is turned to, or the first slot of that
/// format that has no value for it.
#[derive(Debug, Drop)]
pub enum Finding {
    Read(Record),
    Unread,
    Given(Record),
    Bad(BadRecord),
    Turned(Bytes),
    Unmapped(u32),
}

/// What is said of a line: it is a note, or longer than `MOST_LINE_BYTES`, or what is found of it.
#[derive(Debug, Drop)]
pub enum Verdict {
    Note,
    Long,
    Found(Finding),
}

/// What is found of a line.
fn find(alloc: Global, job: &Job, line: &[u8]) -> Result<Finding, OutOfMemory>
    requires { CanWork job.now }
    ensures found { IfOk result (λ finding. IsFound job.now line.now finding) }
    ensures record { IfOk result (λ finding. IsOfFormat (format_of job.now) (verdict.Found finding)) }
{
    match job {
        Job::Read(reader) => match reader.read(alloc, line)? {
            Some(record) => Ok(Finding::Read(record)),
            None => Ok(Finding::Unread),
        },
        Job::Write(format) => match read_record(alloc, line, format) {
            Ok(record) => Ok(Finding::Given(record)),
            Err(BadRecord::OutOfMemory) => Err(OutOfMemory),
            Err(bad) => Ok(Finding::Bad(bad)),
        },
        Job::Translate(translation) => match translation.turn(alloc, line)? {
            None => Ok(Finding::Unread),
            Some(Turned::Line(text)) => Ok(Finding::Turned(text)),
            Some(Turned::Unmapped(slot)) => Ok(Finding::Unmapped(slot)),
        },
    }
}

/// The verdict of a line.
pub fn verdict_of(alloc: Global, job: &Job, body: Body<'_>) -> Result<Verdict, OutOfMemory>
    requires { CanWork job.now }
    ensures verdict { (line : List ℕ) → IsBody (has_notes job.now) line body.entry → IfOk result (IsVerdict job.now line) }
    ensures record { IfOk result (IsOfFormat (format_of job.now)) }
{
    match body {
        Body::Line(line) => Ok(Verdict::Found(find(alloc, job, line)?)),
        Body::Note => Ok(Verdict::Note),
        Body::Long => Ok(Verdict::Long),
    }
}
