//! The domain of the words of a list, whose machine has a point for each of their prefixes.

ghost use Rattle.std.specs.Prelude.{◌≡◌, ◌+◌, ◌≤◌, ◌∷◌, [], ◌++◌, nat_eq, IsTrue, ◌↔◌, IfOk};
ghost use Rattle.lf_limits.specs.Limits.{most_list_bytes};
ghost use Rattle.std.specs.List.{starts_with};
ghost use Rattle.lf_domain.specs.Texts.{text_of};
ghost use Rattle.lf_domain.specs.WordLists.{letter_count, is_word, HoldsWord, IsWordOf, point_if, prefix_at as prefix_of, word_machine};

use crate::plain_text::{new_text, write_text};
use crate::word_list::WordList;
use lf_core::{Bytes, Domain, OutOfMemory, Value};
use std::alloc::Global;

/// The words of a list.
#[derive(Debug, Drop)]
pub struct Words {
    pub list: WordList,
}

impl Words {
    /// An equal domain, on the same allocator.
    pub fn copy(&self) -> Result<Words, OutOfMemory>
        ensures { IfOk result (λ copy. copy ≡ self.now) }
    {
        let list = self.list.copy()?;
        Ok(Words { list })
    }
}

impl Domain for Words {
    ghost use Rattle.lf_domain.specs.WordLaws.{word_laws};

    ghost holds = { λ d. HoldsWord d.list };

    ghost plain = { λ _. text_of };

    ghost machine = { λ d. word_machine d.list };

    ghost size = { λ d. letter_count d.list + 1 };

    ghost laws = { λ d. word_laws d.list };

    fn check(&self, value: &Value) -> bool {
        match value {
            Value::Text(text) => holds_word(&self.list, text.as_slice()),
            _ => false,
        }
    }

    fn write_plain(&self, value: &Value, into: &mut Bytes) -> Result<(), OutOfMemory> {
        write_text(value, into)
    }

    fn read_plain(&self, alloc: Global, text: &[u8]) -> Result<Option<Value>, OutOfMemory> {
        if holds_word(&self.list, text) {
            Ok(Some(new_text(alloc, text)?))
        } else {
            Ok(None)
        }
    }

    fn points(&self) -> u32 {
        self.list.letter_count() + 1
    }

    fn start(&self) -> u32 {
        0
    }

    fn step(&self, point: u32, letter: u8) -> Option<u32> {
        let words = self.list.as_slice();
        point_after(words, prefix_at(words, point), letter)
    }

    fn ends(&self, point: u32) -> bool {
        let words = self.list.as_slice();
        is_word(words, prefix_at(words, point))
    }
}

fn holds_word(list: &WordList, text: &[u8]) -> bool
    ensures { IsTrue result ↔ IsWordOf list.now text.now }
{
    list.has(text)
}

fn is_word(words: &[Bytes], text: &[u8]) -> bool
    ensures { result ≡ is_word words.now text.now }
{
    words.iter().any(|word| word.as_slice() == text)
}

/// The prefix that ends at this letter, if all words stand one after another.
fn prefix_at(words: &[Bytes], point: u32) -> &[u8]
    ensures { result.now ≡ prefix_of words.now point }
{
    let mut rest = point as usize;
    for word in words {
        if rest <= word.len() {
            return word.as_slice().split_at(rest).0;
        }
        rest -= word.len();
    }
    &[]
}

/// The point of the prefix with one more letter, where some word begins so.
fn point_after(words: &[Bytes], prefix: &[u8], letter: u8) -> Option<u32>
    requires { letter_count words.now ≤ most_list_bytes }
    ensures { result ≡ point_if words.now (prefix.now ++ letter ∷ []) }
{
    let mut before = 0;
    for word in words {
        if goes_on(word.as_slice(), prefix, letter) {
            return Some(before + prefix.len() as u32 + 1);
        }
        before += word.len() as u32;
    }
    None
}

/// Whether the word begins with the prefix and then the letter.
fn goes_on(word: &[u8], prefix: &[u8], letter: u8) -> bool
    ensures { result ≡ starts_with nat_eq word.now (prefix.now ++ letter ∷ []) }
{
    if word.len() <= prefix.len() {
        return false;
    }
    if !word.starts_with(prefix) {
        return false;
    }
    word[prefix.len()] == letter
}
