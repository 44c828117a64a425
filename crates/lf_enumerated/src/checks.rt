//! The runs of a format's machine beside the format's records.

use crate::orders::{record_cmp, run_cmp};
use crate::records::{line_of, lines_of, texts_of};
use crate::search::{Told, found_in, runs_over};
use crate::shapes::{Row, format_of};
use lf_compile::{Confusion, Reader, Refused, compile};
use lf_core::{Bytes, Record};
use lf_format::Format;
use lf_known_scans::{Scanned, compare_scan};
use lf_limits::MOST_SIZE;
use lf_machine::FormatMachine;
use lf_stamp::Recent;
use std::alloc::Global;
use std::cmp::Ordering;
use std::test::Fail;

/// A format, its machine, and the line of each record.
#[derive(Drop)]
struct Parts {
    format: Format,
    machine: FormatMachine,
    printed: Vec<Bytes>,
}

/// How many runs the lines so far have, and the first line that has two.
#[derive(Drop)]
struct Seen {
    count: usize,
    confused: Option<Bytes>,
}

/// Threads can share the value.
fn shared<T: Send + Sync>(_value: &T) {}

fn expect(is: bool, what: &'static str) -> Result<(), Fail> {
    if is {
        return Ok(());
    }
    Err(Fail::new(what))
}

/// How many of the records stand in this order to the record.
fn count_so(format: &Format, told: &[Told], record: &Record, order: Ordering) -> usize {
    told.iter()
        .filter(|one| record_cmp(format, &one.record, record) == order)
        .count()
}

fn is_printed(alloc: Global, format: &Format, record: &Record, line: &[u8]) -> Result<bool, Fail> {
    match line_of(alloc, format, record)? {
        Some(found) => Ok(found.as_slice() == line),
        None => Ok(false),
    }
}

/// The run stands among the others as its record does, and no other has its record.
fn check_place(format: &Format, told: &[Told], one: &Told) -> Result<(), Fail> {
    for other in told {
        let order = record_cmp(format, &one.record, &other.record);
        expect(run_cmp(&one.run, &other.run) == order, "another order")?;
    }
    let same = count_so(format, told, &one.record, Ordering::Equal);
    expect(same == 1, "two runs of one record")
}

/// The runs over the line tell records that print it, in their order.
fn check_told(alloc: Global, format: &Format, told: &[Told], line: &[u8]) -> Result<(), Fail> {
    for one in told {
        let is = is_printed(alloc, format, &one.record, line)?;
        expect(is, "a run tells a record of another line")?;
        check_place(format, told, one)?;
    }
    Ok(())
}

/// A run is found where there is one, and tells one of the records.
fn check_found(alloc: Global, parts: &Parts, told: &[Told], line: &[u8]) -> Result<(), Fail> {
    match found_in(alloc, &parts.machine, line)? {
        None => expect(told.is_empty(), "no run is found"),
        Some(record) => {
            let same = count_so(&parts.format, told, &record, Ordering::Equal);
            expect(same == 1, "a run of another record is found")
        }
    }
}

/// As many runs as records, and what they tell; the number of them.
fn check_line(alloc: Global, parts: &Parts, line: &[u8]) -> Result<usize, Fail> {
    let told = runs_over(alloc, &parts.machine, line)?;
    let count = parts
        .printed
        .iter()
        .filter(|one| one.as_slice() == line)
        .count();
    expect(told.len() == count, "another number of runs")?;
    check_told(alloc, &parts.format, told.as_slice(), line)?;
    check_found(alloc, parts, told.as_slice(), line)?;
    Ok(count)
}

fn see(seen: &mut Seen, line: &Bytes, count: usize) -> Result<(), Fail> {
    seen.count = seen.count.saturating_add(count);
    if seen.confused.is_none() && 1 < count {
        seen.confused = Some(line.copy()?);
    }
    Ok(())
}

/// All lines, of which the shorter are the first. Each record that prints none of them prints a longer line.
fn check_lines(alloc: Global, parts: &Parts, lines: &[Bytes], most: u8) -> Result<Seen, Fail> {
    let mut seen = Seen {
        count: 0,
        confused: None,
    };
    for line in lines {
        let count = check_line(alloc, parts, line.as_slice())?;
        see(&mut seen, line, count)?;
    }
    let short = parts
        .printed
        .iter()
        .filter(|one| one.len() <= usize::from(most))
        .count();
    expect(seen.count == short, "a line of other bytes")?;
    Ok(seen)
}

/// The line is this one, and the records are its two least.
fn check_confusion(
    alloc: Global,
    parts: &Parts,
    found: &Confusion,
    line: &[u8],
) -> Result<(), Fail> {
    expect(found.line.as_slice() == line, "another confused line")?;
    let told = runs_over(alloc, &parts.machine, line)?;
    for (record, before) in [(&found.first, 0), (&found.second, 1)] {
        let less = count_so(&parts.format, told.as_slice(), record, Ordering::Less);
        let same = count_so(&parts.format, told.as_slice(), record, Ordering::Equal);
        expect((less, same) == (before, 1), "another record")?;
    }
    Ok(())
}

/// Whether both are the same record, or none.
fn is_same(format: &Format, one: &Option<Record>, other: &Option<Record>) -> bool {
    match (one, other) {
        (Some(one), Some(other)) => record_cmp(format, one, other) == Ordering::Equal,
        (None, None) => true,
        _ => false,
    }
}

/// Each line is read by tables as it is by sets of points, and its scan fits or says nothing.
fn check_reader(
    alloc: Global,
    parts: &Parts,
    reader: &Reader,
    lines: &[Bytes],
) -> Result<(), Fail> {
    expect(reader.tabled(), "no tables")?;
    let mut recent = Recent::new(alloc);
    for line in lines {
        let by_tables = reader.read(alloc, line.as_slice())?;
        let by_sets = found_in(alloc, &parts.machine, line.as_slice())?;
        let is = is_same(&parts.format, &by_tables, &by_sets);
        expect(is, "another record is read")?;
        let came = compare_scan(alloc, reader, &mut recent, line.as_slice())?;
        expect(came != Scanned::Differs, "another record is scanned")?;
    }
    Ok(())
}

/// The format is accepted where no line has two records, and else refused for the first such line.
fn check_answer(
    alloc: Global,
    parts: &Parts,
    lines: &[Bytes],
    least: Option<&[u8]>,
) -> Result<(), Fail> {
    match (compile(alloc, parts.format.copy()?), least) {
        (Ok(reader), None) => check_reader(alloc, parts, &reader, lines),
        (Err(refused), Some(line)) => match &refused.cause {
            Refused::Ambiguous(found) => check_confusion(alloc, parts, found, line),
            _ => Err("another cause".into()),
        },
        (Ok(_), Some(_)) => Err("a confused format is accepted".into()),
        (Err(_), None) => Err("a readable format is refused".into()),
    }
}

/// All lines of at most so many of the bytes, which are in rising order. Texts have no other letters than the bytes.
/// The least line with two records is this one.
pub(crate) fn check_format(
    alloc: Global,
    rows: &[Row],
    between: Option<u8>,
    bytes: &str,
    most: u8,
    least: Option<&str>,
) -> Result<(), Fail> {
    let format = format_of(alloc, rows, between)?;
    if MOST_SIZE < format.size() {
        return Err("a large format".into());
    }
    let machine = FormatMachine::build(alloc, &format)?;
    shared(&machine);
    let texts = texts_of(alloc, bytes.as_bytes(), most)?;
    let printed = lines_of(alloc, &format, texts.as_slice(), most)?;
    let parts = Parts {
        format,
        machine,
        printed,
    };
    let seen = check_lines(alloc, &parts, texts.as_slice(), most)?;
    let least = least.map(|line| line.as_bytes());
    let confused = seen.confused.as_ref().map(|line| line.as_slice());
    expect(confused == least, "another least line")?;
    check_answer(alloc, &parts, texts.as_slice(), least)
}

/// Whether the lines of the format are read by tables.
pub(crate) fn is_tabled(alloc: Global, rows: &[Row], between: Option<u8>) -> Result<bool, Fail> {
    match compile(alloc, format_of(alloc, rows, between)?) {
        Ok(reader) => Ok(reader.tabled()),
        Err(_refused) => Err("the format is refused".into()),
    }
}
