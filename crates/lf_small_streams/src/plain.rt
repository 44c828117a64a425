//! The lines of a text, by the definition.

ghost use Rattle.std.specs.Prelude.{◌≡◌, ◌++◌, ◌∷◌, [], IfOk, OnOk};
ghost use Rattle.lf_stream.specs.Cut.{HasNoFeed, line_of, lines_of};

use lf_core::{Bytes, OutOfMemory};
use lf_stream::line_len;
use std::alloc::Global;

/// Appends a line without its end.
fn push_line(
    alloc: Global,
    notes: bool,
    line: &[u8],
    into: &mut Vec<Bytes>,
) -> Result<(), OutOfMemory>
    ensures { OnOk result (into.new.items ≡ into.old.items ++ line_of notes line.now ∷ []) }
{
    let mut copy = Bytes::new(alloc);
    copy.extend(line.split_at(line_len(notes, line)).0)?;
    into.push(copy)?;
    Ok(())
}

/// Appends a last line, if it has a byte.
fn push_last(
    alloc: Global,
    notes: bool,
    line: &[u8],
    into: &mut Vec<Bytes>,
) -> Result<(), OutOfMemory>
    requires { HasNoFeed line.now }
    ensures { OnOk result (into.new.items ≡ into.old.items ++ lines_of notes line.now) }
{
    if line.is_empty() {
        return Ok(());
    }
    push_line(alloc, notes, line, into)
}

/// Appends the lines of what is left of a text behind the start of a line, by the definition.
fn cut(
    alloc: Global,
    notes: bool,
    line: Bytes,
    text: &[u8],
    into: &mut Vec<Bytes>,
) -> Result<(), OutOfMemory>
    requires { HasNoFeed line }
    ensures { OnOk result (into.new.items ≡ into.old.items ++ lines_of notes (line ++ text.now)) }
{
    let Some((byte, rest)) = text.split_first() else {
        return push_last(alloc, notes, line.as_slice(), into);
    };
    if *byte == b'\n' {
        push_line(alloc, notes, line.as_slice(), into)?;
        return cut(alloc, notes, Bytes::new(alloc), rest, into);
    }
    let mut longer = line;
    longer.push(*byte)?;
    cut(alloc, notes, longer, rest, into)
}

/// The lines of a text, by the definition.
pub(crate) fn plain_lines(
    alloc: Global,
    notes: bool,
    text: &[u8],
) -> Result<Vec<Bytes>, OutOfMemory>
    ensures { IfOk result (λ lines. lines.items ≡ lines_of notes text.now) }
{
    let mut lines = Vec::new(alloc);
    cut(alloc, notes, Bytes::new(alloc), text, &mut lines)?;
    Ok(lines)
}
