//! The letters of a class under a code.
ghost use Rattle.std.specs.Prelude.{◌≡◌, ◌++◌, ◌∷◌, [], ℕ, true, false, slice_index_or, IfOk, IfSome, OnOk};
ghost use Rattle.lf_core.specs.Adds.{BeginsWith};
ghost use Rattle.lf_letters.specs.Plain.{AreBare, ArePlain, IsPlain};
ghost use Rattle.lf_letters.specs.Reads.{ReadsLetters};
ghost use Rattle.lf_letters.specs.Rows.{AreWithin};

use crate::decoding::decode;
use crate::marks::{marked_len, plain_marks};
use crate::rows::marked_rows;
use lf_core::{Bytes, Class, OutOfMemory};
use lf_escape::Coding;
use lf_json::write_text;
use std::alloc::Global;

/// A class and a code, the byte that stops the letters, and a mark for each letter that stands for itself, as rows of
/// bits too.
#[derive(Debug, Drop)]
pub struct Letters {
    pub class: Class,
    pub code: Coding,
    pub stop: Option<u8>,
    pub marks: [bool; 256],
    pub rows: [u8; 16],
    ghost plain: { (b : ℕ) → slice_index_or marks b false ≡ true → IsPlain class code b },
    ghost within: { AreWithin rows marks },
}

/// Appends the letters between quotes.
fn push_string(lead: &[u8], letters: &[u8], into: &mut Bytes) -> Result<(), OutOfMemory>
    ensures ok { OnOk result (into.new ≡ into.old ++ 34 ∷ ((lead.now ++ letters.now) ++ 34 ∷ [])) }
    ensures kept { BeginsWith into.new into.old }
{
    into.push(b'"')?;
    into.extend(lead)?;
    into.extend(letters)?;
    into.push(b'"')?;
    Ok(())
}

impl Letters {
    /// The letters of the class under the code, which the byte stops.
    pub fn new(class: Class, code: Coding, stop: Option<u8>) -> Letters
        ensures class { result.class ≡ class }
        ensures code { result.code ≡ code }
    {
        let marks = plain_marks(class, code, stop);
        let rows = marked_rows(&marks);
        Letters {
            class,
            code,
            stop,
            marks,
            rows,
        }
    }

    /// The plain letters that the text begins with, and what follows them.
    pub(crate) fn plain_front<'a>(&self, text: &'a [u8]) -> (&'a [u8], &'a [u8])
        ensures plain { ArePlain self.now.class self.now.code result.0.now }
        ensures parts { text.now ≡ result.0.now ++ result.1.now }
    {
        text.split_at(marked_len(&self.marks, &self.rows, text))
    }

    /// Whether the letters may go on with what is left.
    pub(crate) fn goes_on(&self, left: &[u8]) -> bool {
        !left.is_empty() && left.first().copied() != self.stop
    }

    /// Reads letters by their words, and adds the text of the lead and them as JSON; tells what is left, and how many
    /// letters there are.
    fn read_words<'a>(
        &self,
        alloc: Global,
        lead: &[u8],
        text: &'a [u8],
        into: &mut Bytes,
    ) -> Result<(&'a [u8], usize), OutOfMemory>
        ensures read { IfOk result (λ found. ReadsLetters self.now.class self.now.code lead.now found.1 text.now found.0.now into.old into.new) }
        ensures kept { BeginsWith into.new into.old }
    {
        let mut letters = Bytes::new(alloc);
        letters.extend(lead)?;
        let left = decode(self, text, &mut letters)?;
        write_text(letters.as_slice(), into)?;
        Ok((left, letters.len().saturating_sub(lead.len())))
    }

    /// Reads letters, and adds the text of the lead and them as JSON; tells what is left, and how many letters there
    /// are.
    fn read_letters<'a>(
        &self,
        alloc: Global,
        lead: &[u8],
        text: &'a [u8],
        into: &mut Bytes,
    ) -> Result<(&'a [u8], usize), OutOfMemory>
        requires { AreBare lead.now }
        ensures read { IfOk result (λ found. ReadsLetters self.now.class self.now.code lead.now found.1 text.now found.0.now into.old into.new) }
        ensures kept { BeginsWith into.new into.old }
    {
        let (span, left) = self.plain_front(text);
        if self.goes_on(left) {
            return self.read_words(alloc, lead, text, into);
        }
        push_string(lead, span, into)?;
        Ok((left, span.len()))
    }

    /// Reads the letters that the text begins with, and adds their text as JSON; tells what is left, and how many
    /// letters there are. Where the text may go on at what is left, the letters are read by their words.
    pub fn read<'a>(
        &self,
        alloc: Global,
        text: &'a [u8],
        into: &mut Bytes,
    ) -> Result<(&'a [u8], usize), OutOfMemory>
        ensures read { IfOk result (λ found. ReadsLetters self.now.class self.now.code [] found.1 text.now found.0.now into.old into.new) }
        ensures kept { BeginsWith into.new into.old }
    {
        self.read_letters(alloc, b"", text, into)
    }

    /// Reads the letters after a question mark, and adds the text of the mark and them as JSON; tells what is left.
    pub fn read_query<'a>(
        &self,
        alloc: Global,
        text: &'a [u8],
        into: &mut Bytes,
    ) -> Result<(&'a [u8], usize), OutOfMemory>
        ensures read { IfOk result (λ found. ReadsLetters self.now.class self.now.code (63 ∷ []) found.1 text.now found.0.now into.old into.new) }
        ensures kept { BeginsWith into.new into.old }
    {
        self.read_letters(alloc, b"?", text, into)
    }
}
