//! The table of a code: the proper prefixes of its words, and the letters whose words a byte ends.

ghost use Rattle.std.specs.Prelude.{◌≡◌, ◌<◌, ◌^◌, ◌++◌, [], ◌∷◌, IfOk, length, get_or};
ghost use Rattle.std.specs.Option.{ForSome};
ghost use Rattle.lf_escape.specs.Codings.{coding_takes, coding_word};
ghost use Rattle.lf_code_table.specs.Endings.{letters_ending};
ghost use Rattle.lf_code_table.specs.Lone.{lone_of};
ghost use Rattle.lf_code_table.specs.Table.{table_of, same_list, index_of};

use crate::endings::code_endings;
use crate::lone::{first_numbers, lone_letters};
use crate::prefixes::code_prefixes;
use lf_core::{Bytes, OutOfMemory};
use lf_escape::Coding;
use std::alloc::Global;
use std::marker::Model;

/// How the words of a code are read byte by byte: the proper prefixes of the words, and for each byte
/// the letters whose words it ends. Where nothing was read of a word, which is most often so, the letters whose
/// word is the byte and the prefix that it is stand ready.
#[derive(Drop)]
pub struct CodeTable {
    code: Coding,
    prefixes: Vec<Bytes>,
    endings: Vec<Bytes>,
    lone: Vec<Bytes>,
    firsts: Vec<Option<u32>>,
}

impl Model for CodeTable {
    ghost use Rattle.lf_escape.specs.declared.coding.Coding.{Coding};
    ghost use Rattle.lf_code_table.specs.Endings.{IsTableOf};

    ghost Value = { Coding };

    ghost view = { λ t. t.code };

    ghost invariant = { λ t. IsTableOf t.code t.prefixes.items t.endings.items t.lone.items t.firsts.items };
}

impl CodeTable {
    /// The table of the code, made of the words of all its letters.
    pub fn build(alloc: Global, code: Coding) -> Result<CodeTable, OutOfMemory>
        ensures { IfOk result (λ table. table ≡ code) }
    {
        let prefixes = code_prefixes(alloc, &code)?;
        let endings = code_endings(alloc, &code)?;
        let lone = lone_letters(alloc, &code, endings.as_slice())?;
        let firsts = first_numbers(alloc, prefixes.as_slice())?;
        Ok(CodeTable {
            code,
            prefixes,
            endings,
            lone,
            firsts,
        })
    }

    /// The code that the table is of.
    pub fn code(&self) -> Coding
        ensures { result ≡ self.now }
    {
        self.code
    }

    /// How many proper prefixes the words have.
    pub fn width(&self) -> u32
        ensures exact { result ≡ length (table_of self.now) }
        ensures least { 0 < result }
        ensures most { result < 256 }
    {
        self.prefixes.len() as u32
    }

    /// The proper prefix of the number.
    pub fn prefix(&self, at: u32) -> &[u8]
        requires { at < length (table_of self.now) }
        ensures { result.now ≡ get_or (table_of self.now) at [] }
    {
        self.prefixes[at as usize].as_slice()
    }

    /// The number of the proper prefix that is what was read and then the byte.
    pub fn number_of(&self, read: &[u8], byte: u8) -> Option<u32>
        ensures exact { result ≡ index_of (table_of self.now) (read.now ++ byte ∷ []) }
        ensures within { ForSome result (λ at. at < length (table_of self.now)) }
    {
        if read.is_empty() {
            return self.firsts[byte as usize];
        }
        find(self.prefixes.as_slice(), read, byte)
    }

    /// The letters whose word is the byte.
    pub fn lone(&self, byte: u8) -> &[u8]
        ensures { result.now ≡ lone_of (coding_takes self.now) (coding_word self.now) (letters_ending (coding_takes self.now) (coding_word self.now) byte 256) }
    {
        self.lone[byte as usize].as_slice()
    }

    /// The letters whose words the byte ends.
    pub fn ending(&self, byte: u8) -> &[u8]
        ensures { result.now ≡ letters_ending (coding_takes self.now) (coding_word self.now) byte 256 }
    {
        self.endings[byte as usize].as_slice()
    }
}

/// The place in the list of what was read and then the byte.
pub fn find(texts: &[Bytes], read: &[u8], byte: u8) -> Option<u32>
    requires { length texts.now < 2 ^ 8 }
    ensures exact { result ≡ index_of texts.now (read.now ++ byte ∷ []) }
    ensures within { ForSome result (λ at. at < length texts.now) }
{
    match texts.split_first() {
        None => None,
        Some((text, rest)) => {
            if is_word(text.as_slice(), read, byte) {
                return Some(0);
            }
            match find(rest, read, byte) {
                None => None,
                Some(at) => Some(at + 1),
            }
        }
    }
}

/// Whether the word is what was read and then the byte.
pub fn is_word(word: &[u8], read: &[u8], byte: u8) -> bool
    ensures { result ≡ same_list word.now (read.now ++ byte ∷ []) }
{
    match read.split_first() {
        None => match word.split_first() {
            None => false,
            Some((first, rest)) => match rest.split_first() {
                None => *first == byte,
                Some(_) => false,
            },
        },
        Some((before, read_rest)) => match word.split_first() {
            None => false,
            Some((first, rest)) => *first == *before && is_word(rest, read_rest, byte),
        },
    }
}
