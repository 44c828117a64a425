//! Known answers of streams that are worked out by hand.
ghost use Rattle.std.specs.Prelude.{◌≡◌, IfOk, false};
ghost use Rattle.lf_stream.specs.Standing.{is_finished};

use crate::feeding::feed;
use lf_core::{Bytes, OutOfMemory};
use lf_limits::{LEAST_ROOM, MOST_LINE_BYTES};
use lf_stream::{Batch, Body, Lines, Mark, Numbered, Sort};
use std::alloc::Global;

/// Appends the number's last digit, the sort, and the bytes of a line that is to be read.
fn tell(line: &Numbered<'_>, into: &mut Bytes) -> Result<(), OutOfMemory> {
    into.push(b'0' + (line.number % 10) as u8)?;
    match line.body {
        Body::Line(bytes) => into.extend(bytes)?,
        Body::Note => into.extend(b" note")?,
        Body::Long => into.extend(b" long")?,
    }
    into.push(b'|')
}

/// Tells the next lines, at most a hundred.
fn drain(lines: &mut Lines, into: &mut Bytes) -> Result<(), OutOfMemory>
    ensures { is_finished lines.new ≡ is_finished lines.old }
{
    for _k in 0..100u32 {
        let Some(line) = lines.next() else {
            return Ok(());
        };
        tell(&line, into)?;
    }
    Ok(())
}

/// What is told of the lines of a stream in these pieces.
fn told(alloc: Global, notes: bool, pieces: &[&str]) -> Result<Bytes, OutOfMemory> {
    let mut lines = Lines::new(alloc, notes)?;
    let mut into = Bytes::new(alloc);
    for piece in pieces {
        feed(&mut lines, piece.as_bytes());
        drain(&mut lines, &mut into)?;
    }
    lines.finish();
    drain(&mut lines, &mut into)?;
    Ok(into)
}

#[test]
fn lines_are_told(rt: HostRuntime) {
    let cases: [(bool, &[&str], &str); 8] = [
        (false, &[], ""),
        (false, &["a\nb\n"], "1a|2b|"),
        (false, &["a", "b\n", "c"], "1ab|2c|"),
        (false, &["a\r", "\n#b\n\n"], "1a\r|2#b|3|"),
        (true, &["a\r", "\n#b\n\n"], "1a|2 note|3|"),
        (true, &["a\r\r\n", "#", "b\r"], "1a\r|2 note|"),
        (true, &["a\n\r"], "1a|2|"),
        (true, &["a#\n", "b\r"], "1a#|2b|"),
    ];
    for (notes, pieces, expected) in cases {
        match told(rt.alloc(), notes, pieces) {
            Ok(text) => assert!(rt; text.as_slice() == expected.as_bytes(), "{expected}"),
            Err(_) => assert!(rt; false, "no memory"),
        }
    }
}

fn shared<T: Send + Sync>(_: &T) {}

#[test]
fn marks_are_shared(_rt: HostRuntime) {
    shared(&Sort::Line);
    shared(&Mark {
        number: 1,
        start: 0,
        len: 0,
        sort: Sort::Note,
    });
}

/// A line that begins with this byte and goes on with so many letters, and then a short line.
fn long_lines(
    alloc: Global,
    notes: bool,
    first: &[u8],
    letters: usize,
    end: &str,
) -> Result<Lines, OutOfMemory>
    ensures { IfOk result (λ lines. is_finished lines ≡ false) }
{
    let mut lines = Lines::new(alloc, notes)?;
    let filling = vec![in alloc; b'a'; letters]?;
    let mut into = Bytes::new(alloc);
    feed(&mut lines, first);
    feed(&mut lines, &filling);
    drain(&mut lines, &mut into)?;
    feed(&mut lines, end.as_bytes());
    feed(&mut lines, b"bc\nrest");
    Ok(lines)
}

/// Whether the batch has a first line of this sort and length, and then the short line.
fn is_batch(batch: &Batch<'_>, sort: Sort, len: usize) -> bool {
    if batch.marks.len() != 2 {
        return false;
    }
    let first = &batch.marks[0];
    let second = &batch.marks[1];
    let start = second.start as usize;
    first.number == 1
        && first.sort == sort
        && first.len as usize == len
        && second.number == 2
        && second.sort == Sort::Line
        && second.len == 2
        && batch.text.get(start..start + 2) == Some(b"bc")
}

#[test]
fn long_lines_are_marked(rt: HostRuntime) {
    let cases: [(bool, &[u8], usize, &str, Sort, usize); 7] = [
        (
            false,
            b"x",
            MOST_LINE_BYTES - 1,
            "\n",
            Sort::Line,
            MOST_LINE_BYTES,
        ),
        (false, b"x", MOST_LINE_BYTES, "\n", Sort::Long, 0),
        (false, b"x", MOST_LINE_BYTES - 1, "\r\n", Sort::Long, 0),
        (
            true,
            b"x",
            MOST_LINE_BYTES - 1,
            "\r\n",
            Sort::Line,
            MOST_LINE_BYTES,
        ),
        (true, b"x", MOST_LINE_BYTES, "\r\n", Sort::Long, 0),
        (true, b"#", 20_000_000, "\r\n", Sort::Note, 0),
        (true, b"x", 20_000_000, "\n", Sort::Long, 0),
    ];
    for (notes, first, letters, end, sort, len) in cases {
        match long_lines(rt.alloc(), notes, first, letters, end) {
            Ok(mut lines) => {
                let batch = lines.batch();
                assert!(rt; is_batch(&batch, sort, len), "after {letters} letters");
                let none = lines.batch();
                assert!(rt; none.marks.is_empty(), "a further line");
                assert!(rt; lines.room() >= LEAST_ROOM, "too little room");
            }
            Err(_) => assert!(rt; false, "no memory"),
        }
    }
}
