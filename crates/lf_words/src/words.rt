//! The words of a command line, read.

ghost use Rattle.std.specs.Prelude.{◌≡◌, IfOk, Err};
ghost use Rattle.std.specs.List.{list_all};
ghost use Rattle.lf_words.specs.Command.{is_word as is_one_word, IsCommand, IsBad};
ghost use Rattle.lf_words.specs.Reading.{ReadsWords};

use crate::command::Command;
use crate::faults::WordFault;
use crate::names::verb_of;
use crate::shapes::read_tail;
use lf_core::{OutOfMemory, Str};
use lf_limits::MOST_WORD_BYTES;
use std::alloc::Global;

/// Whether the word is within the limit. It is a text by its type.
fn is_word(word: &Str) -> bool
    ensures { result ≡ is_one_word word.now }
{
    word.as_str().len() <= MOST_WORD_BYTES
}

fn are_words(words: &[Str]) -> bool
    ensures { result ≡ list_all is_one_word words.now }
{
    words.iter().all(is_word)
}

/// The command that the words are, and none exactly where they are none.
fn find_command(alloc: Global, words: &[Str]) -> Result<Option<Command>, OutOfMemory>
    ensures { IfOk result (ReadsWords words.now) }
{
    if words.is_empty() {
        return Ok(None);
    }
    if !are_words(words) {
        return Ok(None);
    }
    let Some(verb) = verb_of(words[0].as_str()) else {
        return Ok(None);
    };
    read_tail(alloc, verb, words.split_at(1).1)
}

/// Reads a command line. Want of memory may also come where the words are bad.
pub fn read_words(alloc: Global, words: &[Str]) -> Result<Command, WordFault>
    ensures ok { IfOk result (IsCommand words.now) }
    ensures bad { result ≡ Err WordFault.Bad → IsBad words.now }
{
    let Some(command) = find_command(alloc, words)? else {
        return Err(WordFault::Bad);
    };
    Ok(command)
}
