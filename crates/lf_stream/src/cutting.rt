//! What a line is, once its end is known.

ghost use Rattle.std.specs.Prelude.{◌≡◌, ◌≤◌, ◌+◌, List, ℕ, ◌++◌, length, take};
ghost use Rattle.lf_limits.specs.Limits.{buffer_bytes};
ghost use Rattle.lf_stream.specs.Cut.{line_of};
ghost use Rattle.lf_stream.specs.Sorts.{sort_of, Holds};
ghost use Rattle.lf_stream.specs.Marks.{IsMark};

use crate::marks::{Mark, Sort};
use lf_limits::MOST_LINE_BYTES;

/// How many bytes of the line stand before its end: all but a last carriage return where the stream may have notes.
pub fn line_len(notes: bool, line: &[u8]) -> usize
    ensures front { take result line.now ≡ line_of notes line.now }
    ensures within { result ≤ length line.now }
{
    if !notes {
        return line.len();
    }
    match line.split_last() {
        None => 0,
        Some((last, front)) if *last == b'\r' => front.len(),
        Some(_) => line.len(),
    }
}

/// What a line is.
pub(crate) fn sort(notes: bool, line: &[u8]) -> Sort
    ensures { result ≡ sort_of notes line.now }
{
    if notes && line.first() == Some(&b'#') {
        return Sort::Note;
    }
    if line.len() > MOST_LINE_BYTES {
        return Sort::Long;
    }
    Sort::Line
}

/// The mark of a line that is held whole from this place on.
fn line_mark(number: u64, notes: bool, line: &[u8], start: usize) -> Mark
    requires { start ≤ buffer_bytes }
    ensures number { result.number ≡ number }
    ensures within { result.start + result.len ≤ start + length line.now }
    ensures mark { (before after : List ℕ) → length before ≡ start → IsMark notes (before ++ line.now ++ after) (line_of notes line.now) result }
{
    let len = line_len(notes, line);
    match sort(notes, line.split_at(len).0) {
        Sort::Line => Mark {
            number,
            start: start as u32,
            len: len as u32,
            sort: Sort::Line,
        },
        other => Mark {
            number,
            start: 0,
            len: 0,
            sort: other,
        },
    }
}

/// The mark of a line, of which these bytes are held from this place on.
pub(crate) fn mark(number: u64, notes: bool, front: Sort, bytes: &[u8], start: usize) -> Mark
    requires { start ≤ buffer_bytes }
    ensures number { result.number ≡ number }
    ensures within { result.start + result.len ≤ start + length bytes.now }
    ensures mark { (before after line : List ℕ) → length before ≡ start → Holds notes front bytes.now line
        → IsMark notes (before ++ bytes.now ++ after) (line_of notes line) result }
{
    match front {
        Sort::Line => line_mark(number, notes, bytes, start),
        _ => Mark {
            number,
            start: 0,
            len: 0,
            sort: front,
        },
    }
}
