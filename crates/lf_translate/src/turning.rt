//! A record translated by a field map.

ghost use Rattle.std.specs.Prelude.{IfOk};
ghost use Rattle.lf_format.specs.Lines.{IsRecordOf};
ghost use Rattle.lf_translate.specs.Turning.{IsTurned};

use lf_core::{Bytes, OutOfMemory, Record};
use lf_map::{FieldMap, write_mapped};
use std::alloc::Global;

/// A line without its end, or the number of the target's first slot that holds no such value.
#[derive(Drop)]
pub enum Turned {
    Line(Bytes),
    Unmapped(u32),
}

/// The target's line of the mapped record, or the first slot that holds no such value.
pub fn translate_record(alloc: Global, map: &FieldMap, rec: &Record) -> Result<Turned, OutOfMemory>
    requires { IsRecordOf map.now.source.pieces rec.now }
    ensures { IfOk result (λ turned. IsTurned map.now rec.now turned) }
{
    let mut line = Bytes::new(alloc);
    match write_mapped(alloc, map, rec, &mut line)? {
        None => Ok(Turned::Line(line)),
        Some(k) => Ok(Turned::Unmapped(k)),
    }
}
