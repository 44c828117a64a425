//! What is to be written of lines: a text for each sink.

ghost use Rattle.std.specs.Prelude.{◌≡◌, ◌||◌, true, false, ℕ, [], ◌∷◌, ◌++◌, codes, IfOk, OnOk};
ghost use Rattle.std.specs.Fmt.{decimal};
ghost use Rattle.lf_app.specs.Verdicts.{format_of, finding_text, finding_err, bad_text, is_listed, listed_line, IsOfFormat};
ghost use Rattle.lf_app.specs.declared.verdict.Finding.TheVariants as finding;
ghost use Rattle.lf_app.specs.declared.verdict.Verdict.TheVariants as verdict;

use crate::commands::Job;
use crate::verdict::{Finding, Verdict};
use itoa::Buffer;
use lf_core::{Bytes, OutOfMemory};
use lf_format::Format;
use lf_json::{BadRecord, write_record};
use lf_log::end_of;
use lf_stamp::Recent;
use lf_stream::{Body, Numbered};
use std::alloc::Global;

/// What is to be written of the lines so far: the number of the last one, whether one was listed, and both texts;
/// and the last time that was scanned.
#[derive(Drop)]
pub struct Report {
    pub count: u64,
    pub is_partial: bool,
    pub out: Bytes,
    pub err: Bytes,
    recent: Recent,
}

/// Appends a number in decimal.
pub fn push_number(number: u64, into: &mut Bytes) -> Result<(), OutOfMemory>
    ensures { OnOk result (into.new ≡ into.old ++ decimal number) }
{
    let mut buffer = Buffer::new();
    into.extend(buffer.format(number).as_bytes())
}

/// Appends the name of the slot of this number, after a space.
fn push_slot(slot: u32, into: &mut Bytes) -> Result<(), OutOfMemory>
    ensures { OnOk result (into.new ≡ into.old ++ (codes " s" ++ decimal slot)) }
{
    into.extend(b" s")?;
    push_number(slot as u64, into)
}

/// Appends why a line of JSON is no record.
fn push_bad(bad: &BadRecord, into: &mut Bytes) -> Result<(), OutOfMemory>
    ensures { OnOk result (into.new ≡ into.old ++ bad_text bad.now) }
{
    match bad {
        BadRecord::NotJson => into.extend(b" NotJson"),
        BadRecord::WrongCount(count) => {
            into.extend(b" WrongCount ")?;
            push_number(*count, into)
        }
        BadRecord::WrongValue(slot) => {
            into.extend(b" WrongValue s")?;
            push_number(*slot as u64, into)
        }
        BadRecord::OutOfMemory => Ok(()),
    }
}

impl Report {
    ghost use Rattle.lf_app.specs.Progress.{IsScanned, Reports};

    /// Nothing is to be written, and no line is counted.
    pub fn new(alloc: Global) -> Report
        ensures count { result.count ≡ 0 }
        ensures listed { result.is_partial ≡ false }
        ensures out { result.out ≡ [] }
        ensures err { result.err ≡ [] }
    {
        Report {
            count: 0,
            is_partial: false,
            out: Bytes::new(alloc),
            err: Bytes::new(alloc),
            recent: Recent::new(alloc),
        }
    }

    /// Begins a line of `err` on the line that was counted last.
    fn list(&mut self, word: &[u8]) -> Result<(), OutOfMemory>
        ensures count { self.new.count ≡ self.old.count }
        ensures listed { self.new.is_partial ≡ true }
        ensures out { self.new.out ≡ self.old.out }
        ensures err { OnOk result (self.new.err ≡ self.old.err ++ (word.now ++ decimal self.old.count)) }
    {
        self.is_partial = true;
        self.err.extend(word)?;
        push_number(self.count, &mut self.err)
    }

    /// Lists the line that was counted last.
    fn list_line(&mut self, word: &[u8]) -> Result<(), OutOfMemory>
        ensures count { self.new.count ≡ self.old.count }
        ensures listed { self.new.is_partial ≡ true }
        ensures out { self.new.out ≡ self.old.out }
        ensures err { OnOk result (self.new.err ≡ self.old.err ++ listed_line word.now self.old.count []) }
    {
        self.list(word)?;
        self.err.push(b'\n')
    }

    /// Lists the line that was counted last as a bad one.
    fn list_bad(&mut self, bad: &BadRecord) -> Result<(), OutOfMemory>
        ensures count { self.new.count ≡ self.old.count }
        ensures listed { self.new.is_partial ≡ true }
        ensures out { self.new.out ≡ self.old.out }
        ensures err { OnOk result (self.new.err ≡ self.old.err ++ finding_err self.old.count (finding.Bad bad.now)) }
    {
        self.list(b"bad ")?;
        push_bad(bad, &mut self.err)?;
        self.err.push(b'\n')
    }

    /// Lists the line that was counted last as one without a value for the slot of this number.
    fn list_unmapped(&mut self, slot: u32) -> Result<(), OutOfMemory>
        ensures count { self.new.count ≡ self.old.count }
        ensures listed { self.new.is_partial ≡ true }
        ensures out { self.new.out ≡ self.old.out }
        ensures err { OnOk result (self.new.err ≡ self.old.err ++ finding_err self.old.count (finding.Unmapped slot)) }
    {
        self.list(b"unmapped ")?;
        push_slot(slot, &mut self.err)?;
        self.err.push(b'\n')
    }

    /// Adds what was found of the line that was counted last.
    fn add_finding(&mut self, format: &Format, found: &Finding) -> Result<(), OutOfMemory>
        requires { IsOfFormat format.now (verdict.Found found.now) }
        ensures count { self.new.count ≡ self.old.count }
        ensures listed { OnOk result (self.new.is_partial ≡ (self.old.is_partial || is_listed (verdict.Found found.now))) }
        ensures out { OnOk result (self.new.out ≡ self.old.out ++ finding_text format.now found.now) }
        ensures err { OnOk result (self.new.err ≡ self.old.err ++ finding_err self.old.count found.now) }
    {
        match found {
            Finding::Read(record) => {
                write_record(record, &mut self.out)?;
                self.out.push(b'\n')
            }
            Finding::Unread => self.list_line(b"unread "),
            Finding::Given(record) => {
                format.write_line(record, &mut self.out)?;
                self.out.extend(end_of(format.end()))
            }
            Finding::Bad(bad) => self.list_bad(bad),
            Finding::Turned(text) => {
                self.out.extend(text.as_slice())?;
                self.out.extend(end_of(format.end()))
            }
            Finding::Unmapped(slot) => self.list_unmapped(*slot),
        }
    }

    /// Adds what is said of the line of this number.
    pub fn add(&mut self, job: &Job, number: u64, said: &Verdict) -> Result<(), OutOfMemory>
        requires { IsOfFormat (format_of job.now) said.now }
        ensures reports { OnOk result (Reports job.now self.old self.new number (said.now ∷ [])) }
        ensures count { self.new.count ≡ number }
    {
        self.count = number;
        match said {
            Verdict::Note => Ok(()),
            Verdict::Long => self.list_line(b"long "),
            Verdict::Found(found) => self.add_finding(job.format(), found),
        }
    }

    /// Adds the JSON of the line's record, and says true, where the line can be scanned.
    pub fn scan_line(
        &mut self,
        alloc: Global,
        job: &Job,
        line: Numbered<'_>,
    ) -> Result<bool, OutOfMemory>
        ensures { IfOk result (IsScanned job.now line.entry.body line.entry.number self.old self.new) }
    {
        let Job::Read(reader) = job else {
            return Ok(false);
        };
        let Body::Line(text) = line.body else {
            return Ok(false);
        };
        if !reader.scan(alloc, &mut self.recent, text, &mut self.out)? {
            return Ok(false);
        }
        self.out.push(b'\n')?;
        self.count = line.number;
        Ok(true)
    }
}
