//! The letters of a text that stand for themselves, in the line and in JSON.
ghost use Rattle.std.specs.Prelude.{◌≡◌, ◌≤◌, ◌<◌, ℕ, true, false, IsTrue, length, slice_index, slice_index_or};
ghost use Rattle.lf_letters.specs.Plain.{IsPlain};
ghost use Rattle.lf_letters.specs.Rows.{AreWithin};

use crate::rows::{LANES, row_run};
use lf_core::Class;
use lf_escape::{Code, Coding};

/// Whether the letter is of the class, is its own word, and needs no escape in JSON.
fn is_plain(class: Class, code: Coding, letter: u8) -> bool
    requires { letter < 128 }
    ensures { IsTrue result → IsPlain class code letter }
{
    if letter < 32 || letter == b'"' || letter == b'\\' {
        return false;
    }
    if !class.has(letter) || !code.takes(letter) {
        return false;
    }
    match code.word_of(letter).as_slice() {
        [alone] => *alone == letter,
        _ => false,
    }
}

/// Whether the letter is plain and doesn't stop a text.
fn is_marked(class: Class, code: Coding, stop: Option<u8>, letter: u8) -> bool
    requires { letter < 128 }
    ensures { IsTrue result → IsPlain class code letter }
{
    stop != Some(letter) && is_plain(class, code, letter)
}

/// Which bytes are plain letters, but for the one that stops a text.
pub(crate) fn plain_marks(class: Class, code: Coding, stop: Option<u8>) -> [bool; 256]
    ensures { (b : ℕ) → slice_index_or result b false ≡ true → IsPlain class code b }
{
    let mut marks = [false; 256];
    for letter in 0..128u8 {
        marks[usize::from(letter)] = is_marked(class, code, stop, letter);
    }
    marks
}

/// How many bytes stand before the first that isn't marked.
fn marked_few(marks: &[bool; 256], text: &[u8]) -> usize
    ensures within { result ≤ length text.now }
    ensures marked { (k : ℕ) → k < result → slice_index_or marks.now (slice_index text.now k) false ≡ true }
{
    for (at, byte) in text.iter().enumerate() {
        if !marks[usize::from(*byte)] {
            return at;
        }
    }
    text.len()
}

/// How many marked bytes the text begins with, by rows of their bits as far as there are sixteen bytes.
pub(crate) fn marked_len(marks: &[bool; 256], rows: &[u8; 16], text: &[u8]) -> usize
    requires { AreWithin rows.now marks.now }
    ensures within { result ≤ length text.now }
    ensures marked { (k : ℕ) → k < result → slice_index_or marks.now (slice_index text.now k) false ≡ true }
{
    let mut at = 0;
    'chunks: while LANES <= text.len() - at {
        let run = row_run(rows, text, at);
        at += run;
        if run < LANES {
            return at;
        }
    }
    at + marked_few(marks, text.split_at(at).1)
}
