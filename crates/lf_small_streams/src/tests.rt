//! Short texts in each cutting, and short streams to their ends, beside the lines by definition.

ghost use Rattle.std.specs.Prelude.{◌≡◌, ◌≤◌, false};
ghost use Rattle.lf_stream.specs.Standing.{is_finished};

use crate::feeding::feed;
use crate::plain::plain_lines;
use lf_core::{Bytes, OutOfMemory};
use lf_stream::{Body, Lines, Numbered};
use std::alloc::Global;

/// Whether the line is the one at this place of the list, and has the number.
fn is_line(next: &Numbered<'_>, notes: bool, plain: &[Bytes], at: usize, number: u64) -> bool {
    let Some(line) = plain.get(at) else {
        return false;
    };
    let is_note = notes && line.as_slice().first() == Some(&b'#');
    next.number == number
        && match next.body {
            Body::Line(bytes) => !is_note && bytes == line.as_slice(),
            Body::Note => is_note,
            Body::Long => false,
        }
}

/// Takes the lines of the list from this place on, behind so many given ones, until none is known. Says where the next is.
fn take_lines(
    lines: &mut Lines,
    notes: bool,
    given: u64,
    plain: &[Bytes],
    from: usize,
) -> Option<usize>
    ensures { is_finished lines.new ≡ is_finished lines.old }
{
    for at in from..8 {
        let Some(next) = lines.next() else {
            return Some(at);
        };
        if !is_line(&next, notes, plain, at, given.wrapping_add(at as u64 + 1)) {
            return None;
        }
    }
    None
}

/// Feeds a piece, and takes as many lines as it has line feeds.
fn take_piece(
    lines: &mut Lines,
    notes: bool,
    given: u64,
    plain: &[Bytes],
    from: usize,
    piece: &[u8],
) -> Option<usize>
    requires { is_finished lines.old ≡ false }
    ensures { is_finished lines.new ≡ false }
{
    feed(lines, piece);
    let next = take_lines(lines, notes, given, plain, from)?;
    let feeds = piece.iter().filter(|b| **b == b'\n').count();
    if next.checked_sub(from) != Some(feeds) {
        return None;
    }
    Some(next)
}

/// Feeds a text that is cut behind each byte for which the number has a bit, and takes its lines.
fn take_text(
    lines: &mut Lines,
    notes: bool,
    given: u64,
    plain: &[Bytes],
    text: &[u8],
    cuts: u32,
) -> Option<usize>
    requires { is_finished lines.old ≡ false }
    ensures { is_finished lines.new ≡ false }
{
    let mut left = cuts;
    let mut start = 0;
    let mut from = 0;
    for at in 0..text.len() {
        let goes_on = left % 2 == 0 && at + 1 < text.len();
        left /= 2;
        if goes_on {
            continue;
        }
        from = take_piece(lines, notes, given, plain, from, text.get(start..at + 1)?)?;
        start = at + 1;
    }
    Some(from)
}

/// Feeds a text in so many cuttings, one behind the other, and says how many lines are given then.
fn take_cuttings(
    lines: &mut Lines,
    notes: bool,
    given: u64,
    plain: &[Bytes],
    text: &[u8],
    cuttings: u32,
) -> Option<u64>
    requires { is_finished lines.old ≡ false }
    ensures { is_finished lines.new ≡ false }
{
    let mut given = given;
    for cuts in 0..cuttings {
        let taken = take_text(lines, notes, given, plain, text, cuts)?;
        given = given.wrapping_add(taken as u64);
    }
    Some(given)
}

/// The text of so many bytes whose number this is.
fn text_of(alloc: Global, len: u32, number: u32) -> Result<Bytes, OutOfMemory> {
    let mut text = Bytes::new(alloc);
    let mut left = number;
    for _k in 0..len {
        text.push(b"a\r\n#"[left as usize % 4])?;
        left /= 4;
    }
    Ok(text)
}

/// Whether in one stream the lines of all texts of so many bytes, each ended by a line feed, are right in each cutting.
fn ended_agree(alloc: Global, notes: bool, len: u32) -> Result<bool, OutOfMemory>
    requires { len ≤ 6 }
{
    let mut lines = Lines::new(alloc, notes)?;
    let mut given = 0;
    for number in 0..1u32 << (2 * len) {
        let mut text = text_of(alloc, len, number)?;
        text.push(b'\n')?;
        let plain = plain_lines(alloc, notes, text.as_slice())?;
        let Some(now) = take_cuttings(&mut lines, notes, given, &plain, text.as_slice(), 1 << len)
        else {
            return Ok(false);
        };
        given = now;
    }
    Ok(true)
}

/// Whether the lines of a stream of this text alone are right, in the cutting that is told.
fn stream_agrees(alloc: Global, notes: bool, text: &[u8], cuts: u32) -> Result<bool, OutOfMemory> {
    let plain = plain_lines(alloc, notes, text)?;
    let mut lines = Lines::new(alloc, notes)?;
    let Some(from) = take_text(&mut lines, notes, 0, &plain, text, cuts) else {
        return Ok(false);
    };
    lines.finish();
    Ok(take_lines(&mut lines, notes, 0, &plain, from) == Some(plain.len()))
}

/// Whether the lines of each stream of so many bytes are right, in one piece and in pieces of one byte.
fn streams_agree(alloc: Global, notes: bool, len: u32) -> Result<bool, OutOfMemory>
    requires { len ≤ 6 }
{
    for number in 0..1u32 << (2 * len) {
        let text = text_of(alloc, len, number)?;
        if !stream_agrees(alloc, notes, text.as_slice(), 0)?
            || !stream_agrees(alloc, notes, text.as_slice(), 63)?
        {
            return Ok(false);
        }
    }
    Ok(true)
}

#[test]
fn lines_of_small_texts(rt: HostRuntime) {
    for len in 0..7u32 {
        assert!(rt;
            ended_agree(rt.alloc(), false, len) == Ok(true),
            "of {len} bytes"
        );
        assert!(rt;
            ended_agree(rt.alloc(), true, len) == Ok(true),
            "of {len} bytes, with notes"
        );
    }
}

#[test]
fn small_streams(rt: HostRuntime) {
    for len in 0..5u32 {
        assert!(rt;
            streams_agree(rt.alloc(), false, len) == Ok(true),
            "of {len} bytes"
        );
        assert!(rt;
            streams_agree(rt.alloc(), true, len) == Ok(true),
            "of {len} bytes, with notes"
        );
    }
}
