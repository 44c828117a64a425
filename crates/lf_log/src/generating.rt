//! Records that are drawn from a seed: their log is written in memory, in parts, and each part is read back.

ghost use Rattle.std.specs.Prelude.{◌≡◌, ◌++◌, ◌∷◌, [], List, ℕ, true, length, IfOk, OnOk};
ghost use Rattle.std.specs.Fmt.{decimal};
ghost use Rattle.lf_core.specs.declared.values.Value.{Value};
ghost use Rattle.lf_format.specs.Lines.{IsRecordOf, Prints};
ghost use Rattle.lf_log.specs.Ends.{ended_line};
ghost use Rattle.lf_log.specs.Generated.{line_length, summary_text, IsSummary, IsPart, DrawsPart, DrawsLog};

use crate::ends::end_of;
use itoa::Buffer;
use lf_compile::Reader;
use lf_core::{Bytes, OutOfMemory, Record};
use lf_format::Format;
use lf_gen::laws::one_record;
use lf_gen::next_record;
use std::alloc::Global;

/// How many lines a part of the log has at most.
const MOST_PART_LINES: u32 = 1_024;

/// A part of the log: its lines with their ends, and how long each line is without its end.
#[derive(Drop)]
pub struct Part {
    pub text: Bytes,
    pub lengths: Vec<usize>,
}

/// How many records were read back, and how many bytes their log has.
#[derive(Clone, Copy)]
pub struct Tally {
    pub read: u64,
    pub bytes: u128,
}

impl Part {
    fn new(alloc: Global) -> Part {
        Part {
            text: Bytes::new(alloc),
            lengths: Vec::new(alloc),
        }
    }

    fn clear(&mut self)
        ensures text { self.new.text ≡ [] }
        ensures lengths { self.new.lengths.items ≡ [] }
    {
        self.text.clear();
        self.lengths.clear();
    }

    /// Adds the line of a record.
    fn add(&mut self, format: &Format, record: &Record) -> Result<(), OutOfMemory>
        requires { IsRecordOf format.now.pieces record.now }
        ensures text { OnOk result (self.new.text ≡ self.old.text ++ ended_line format.now record.now) }
        ensures lengths { OnOk result (self.new.lengths.items ≡ self.old.lengths.items ++ line_length format.now record.now ∷ []) }
    {
        let before = self.text.len();
        format.write_line(record, &mut self.text)?;
        self.lengths.push(self.text.len() - before)?;
        self.text.extend(end_of(format.end()))
    }
}

/// Draws so many records, and makes the part that of their lines.
fn draw_part(
    alloc: Global,
    format: &Format,
    count: u32,
    state: &mut u64,
    part: &mut Part,
) -> Result<(), OutOfMemory>
    ensures { OnOk result (DrawsPart format.now state.old state.new count part.new.text part.new.lengths.items) }
{
    part.clear();
    for _number in 0..count {
        let record = next_record(alloc, format, state)?;
        part.add(format, &record)?;
    }
    Ok(())
}

/// Whether a record is read from the line.
fn is_read(alloc: Global, reader: &Reader, line: &[u8]) -> Result<bool, OutOfMemory>
    ensures { (rec : List Value) → Prints reader.now.pieces rec line.now → IfOk result (λ is. is ≡ true) }
{
    match reader.read(alloc, line)? {
        Some(_) => Ok(true),
        None => Ok(false),
    }
}

/// How many records are read back from lines of these lengths.
fn read_lines(
    alloc: Global,
    reader: &Reader,
    lengths: &[usize],
    text: &[u8],
) -> Result<usize, OutOfMemory>
    requires { (records : List (List Value)) × IsPart reader.now records text.now lengths.now }
    ensures { IfOk result (λ read. read ≡ length lengths.now) }
{
    match lengths.split_first() {
        None => Ok(0),
        Some((length, rest)) => {
            let (line, ended) = text.split_at(*length);
            let after = ended.split_at(end_of(reader.format().end()).len()).1;
            let read = read_lines(alloc, reader, rest, after)?;
            if is_read(alloc, reader, line)? {
                Ok(read + 1)
            } else {
                Ok(read)
            }
        }
    }
}

/// Draws so many records from the seed and reads them back, part by part.
fn draw_log(alloc: Global, reader: &Reader, seed: u64, count: u32) -> Result<Tally, OutOfMemory>
    ensures read { IfOk result (λ tally. tally.read ≡ count) }
    ensures log { IfOk result (λ tally. (after : ℕ) × DrawsLog reader.now seed after count tally.bytes) }
{
    let mut tally = Tally { read: 0, bytes: 0 };
    let mut state = seed;
    let mut part = Part::new(alloc);
    let mut left = count;
    'parts: while 0 < left {
        let some = left.min(MOST_PART_LINES);
        draw_part(alloc, reader.format(), some, &mut state, &mut part)?;
        let read = read_lines(alloc, reader, part.lengths.as_slice(), part.text.as_slice())?;
        tally.read += read as u64;
        tally.bytes += part.text.len() as u128;
        left -= some;
    }
    Ok(tally)
}

/// Appends a number in decimal.
fn push_number(number: u128, into: &mut Bytes) -> Result<(), OutOfMemory>
    ensures { OnOk result (into.new ≡ into.old ++ decimal number) }
{
    let mut buffer = Buffer::new();
    into.extend(buffer.format(number).as_bytes())
}

/// What is said of so many records.
fn summary(alloc: Global, count: u32, tally: Tally) -> Result<Bytes, OutOfMemory>
    ensures { IfOk result (λ text. text ≡ summary_text count tally.read tally.bytes) }
{
    let mut text = Bytes::new(alloc);
    text.extend(b"records ")?;
    push_number(count as u128, &mut text)?;
    text.extend(b" read ")?;
    push_number(tally.read as u128, &mut text)?;
    text.extend(b" bytes ")?;
    push_number(tally.bytes, &mut text)?;
    Ok(text)
}

/// What is said of so many records that are drawn from the seed.
pub fn generated_text(
    alloc: Global,
    reader: &Reader,
    seed: u64,
    count: u32,
) -> Result<Bytes, OutOfMemory>
    ensures said { IfOk result (λ text. (said : List ℕ) × IsSummary reader.now seed count said × (text ≡ said ++ 10 ∷ [])) }
    ensures one { (said other : List ℕ) → IsSummary reader.now seed count said → IsSummary reader.now seed count other → said ≡ other }
{
    one_record();
    let tally = draw_log(alloc, reader, seed, count)?;
    let mut text = summary(alloc, count, tally)?;
    text.push(b'\n')?;
    Ok(text)
}
