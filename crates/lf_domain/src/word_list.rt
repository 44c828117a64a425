//! Lists of different words.

ghost use Rattle.std.specs.Prelude.{◌≡◌, ◌+◌, ◌<◌, ◌≤◌, ◌↔◌, [], ◌∷◌, ◌++◌, length, slice_index_or, Contains, IsTrue, IfOk, OnOk, OnErr};
ghost use Rattle.lf_limits.specs.Limits.{most_list_bytes};
ghost use Rattle.lf_domain.specs.WordLists.{letter_count, IsWordList};

use lf_core::{Bytes, OutOfMemory};
use std::alloc::Global;
use std::marker::Model;

/// A list of byte lists, no two equal, which have at most a million bytes together.
#[derive(Debug, Drop)]
pub struct WordList {
    words: Vec<Bytes>,
}

impl Model for WordList {
    ghost use Rattle.std.specs.Prelude.{List, ℕ};
    ghost use Rattle.lf_domain.specs.WordLists.{IsWordList};

    ghost Value = { List (List ℕ) };

    ghost view = { λ list. list.words.items };

    ghost invariant = { λ list. IsWordList list.words.items };
}

impl WordList {
    /// A list of no word.
    pub fn new(alloc: Global) -> WordList
        ensures { result ≡ [] }
    {
        WordList {
            words: Vec::new(alloc),
        }
    }

    /// How many words the list has.
    pub fn len(&self) -> usize
        ensures { result ≡ length self.now }
    {
        self.words.len()
    }

    /// Whether the list has no word.
    pub fn is_empty(&self) -> bool
        ensures { IsTrue result ↔ (self.now ≡ []) }
    {
        self.words.is_empty()
    }

    /// How many letters the words have together.
    pub fn letter_count(&self) -> u32
        ensures exact { result ≡ letter_count self.now }
        ensures few { result ≤ most_list_bytes }
    {
        let mut count = 0;
        for word in &self.words {
            count += word.len() as u32;
        }
        count
    }

    /// The word at the place, counted from 0.
    pub fn get(&self, at: usize) -> &[u8]
        requires { at < length self.now }
        ensures { result.now ≡ slice_index_or self.now at [] }
    {
        self.words[at].as_slice()
    }

    /// The words, in order.
    pub fn as_slice(&self) -> &[Bytes]
        ensures words { result.now ≡ self.now }
        ensures keeps { IsWordList self.now }
    {
        self.words.as_slice()
    }

    /// Whether the word is in the list.
    pub fn has(&self, word: &[u8]) -> bool
        ensures { IsTrue result ↔ Contains self.now word.now }
    {
        self.words.iter().any(|own| own.as_slice() == word)
    }

    /// Adds the word at the end.
    pub fn push(&mut self, word: &[u8]) -> Result<(), OutOfMemory>
        requires new { ¬ Contains self.old word.now }
        requires room { letter_count self.old + length word.now ≤ most_list_bytes }
        ensures ok { OnOk result (self.new ≡ self.old ++ word.now ∷ []) }
        ensures err { OnErr result (self.new ≡ self.old) }
    {
        let mut letters = Bytes::new(*self.words.allocator());
        letters.extend(word)?;
        self.words.push(letters)?;
        Ok(())
    }

    /// An equal list, on the same allocator.
    pub fn copy(&self) -> Result<WordList, OutOfMemory>
        ensures { IfOk result (λ copy. copy ≡ self.now) }
    {
        let mut words = Vec::new(*self.words.allocator());
        for word in &self.words {
            words.push(word.copy()?)?;
        }
        Ok(WordList { words })
    }
}
