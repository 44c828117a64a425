//! The verdict of a line of a batch.

ghost use Rattle.std.specs.Prelude.{IfOk};
ghost use Rattle.lf_batch.specs.Within.{LiesWithin};
ghost use Rattle.lf_batch.specs.Verdicts.{IsFound, IsVerdict};

use lf_compile::Reader;
use lf_core::{OutOfMemory, Record};
use lf_stream::{Mark, Sort};
use std::alloc::Global;

/// What is found of a line: the record that prints it, or that none does; or that it is a note, or too long.
#[derive(Debug, Drop)]
pub enum Found {
    Rec(Record),
    Unread,
    Note,
    Long,
}

/// The number of a line, and what is found of it.
#[derive(Debug, Drop)]
pub struct Verdict {
    /// The number of the line in its stream, counted from 1.
    pub number: u64,
    pub found: Found,
}

/// What is found of the line that is marked.
fn find(alloc: Global, reader: &Reader, text: &[u8], mark: &Mark) -> Result<Found, OutOfMemory>
    requires { LiesWithin text.now mark.now }
    ensures { IfOk result (IsFound reader.now.pieces text.now mark.now) }
{
    match mark.sort {
        Sort::Line => {
            let start = mark.start as usize;
            let line = &text[start..start + mark.len as usize];
            match reader.read(alloc, line)? {
                Some(record) => Ok(Found::Rec(record)),
                None => Ok(Found::Unread),
            }
        }
        Sort::Note => Ok(Found::Note),
        Sort::Long => Ok(Found::Long),
    }
}

/// The verdict of the line that is marked.
pub(crate) fn verdict_of(
    alloc: Global,
    reader: &Reader,
    text: &[u8],
    mark: &Mark,
) -> Result<Verdict, OutOfMemory>
    requires { LiesWithin text.now mark.now }
    ensures { IfOk result (IsVerdict reader.now.pieces text.now mark.now) }
{
    Ok(Verdict {
        number: mark.number,
        found: find(alloc, reader, text, mark)?,
    })
}
