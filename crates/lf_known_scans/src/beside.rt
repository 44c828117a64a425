//! A line scanned and read exactly.

ghost use Rattle.std.specs.Prelude.{IfOk};

use lf_compile::Reader;
use lf_core::{Bytes, OutOfMemory};
use lf_json::write_record;
use lf_stamp::Recent;
use std::alloc::Global;

/// What comes of a line: the scan gives what the exact reader gives, or says nothing, or they differ.
#[derive(Clone, Copy, Debug, PartialEq, Eq)]
pub enum Scanned {
    Fits,
    Falls,
    Differs,
}

/// The JSON of the record that the exact reader gives of the line.
fn exact(alloc: Global, reader: &Reader, line: &[u8]) -> Result<Option<Bytes>, OutOfMemory> {
    let Some(record) = reader.read(alloc, line)? else {
        return Ok(None);
    };
    let mut json = Bytes::new(alloc);
    write_record(&record, &mut json)?;
    Ok(Some(json))
}

/// What is added after a first byte by the scan, or nothing.
fn scan_after(
    alloc: Global,
    reader: &Reader,
    recent: &mut Recent,
    line: &[u8],
) -> Result<(bool, Bytes), OutOfMemory> {
    let mut into = Bytes::new(alloc);
    into.push(b'>')?;
    let fits = reader.scan(alloc, recent, line, &mut into)?;
    Ok((fits, into))
}

/// The line is scanned and read exactly.
pub fn compare_scan(
    alloc: Global,
    reader: &Reader,
    recent: &mut Recent,
    line: &[u8],
) -> Result<Scanned, OutOfMemory> {
    let (fits, into) = scan_after(alloc, reader, recent, line)?;
    let json = exact(alloc, reader, line)?;
    let added = into.as_slice().split_first().map(|(_, rest)| rest);
    match (fits, json) {
        (false, _) if added == Some(b"".as_slice()) => Ok(Scanned::Falls),
        (true, Some(json)) if added == Some(json.as_slice()) => Ok(Scanned::Fits),
        _ => Ok(Scanned::Differs),
    }
}
