//! The letters of a code, by the last bytes of their words.

ghost use Rattle.std.specs.Prelude.{◌≡◌, ℕ, ◌+◌, ◌<◌, [], IfOk, OnOk, length, get_or, replicate};
ghost use Rattle.lf_code_table.specs.Endings.{last_of, letters_ending, HasEndings};

use lf_core::{Bytes, OutOfMemory};
use lf_escape::Code;
use std::alloc::Global;

/// For each byte the letters whose words it ends.
pub fn code_endings<C: Code>(alloc: Global, code: &C) -> Result<Vec<Bytes>, OutOfMemory>
    ensures { IfOk result (λ endings. HasEndings (C.can_take code.now) (C.word code.now) endings.items 256) }
{
    let mut endings = empty_lists(alloc)?;
    fill(code, &mut endings)?;
    Ok(endings)
}

/// An empty list for each byte.
fn empty_lists(alloc: Global) -> Result<Vec<Bytes>, OutOfMemory>
    ensures { IfOk result (λ lists. lists.items ≡ replicate 256 []) }
{
    let mut lists = Vec::new(alloc);
    for _k in 0..256u32 {
        lists.push(Bytes::new(alloc))?;
    }
    Ok(lists)
}

/// Puts each letter into the list of its word's last byte.
fn fill<C: Code>(code: &C, endings: &mut Vec<Bytes>) -> Result<(), OutOfMemory>
    requires { HasEndings (C.can_take code.now) (C.word code.now) endings.old.items 0 }
    ensures { OnOk result (HasEndings (C.can_take code.now) (C.word code.now) endings.new.items 256) }
{
    for letter in 0..=255u8 {
        add_letter(code, letter, endings)?;
    }
    Ok(())
}

/// Puts the letter into the list of its word's last byte.
fn add_letter<C: Code>(code: &C, letter: u8, endings: &mut Vec<Bytes>) -> Result<(), OutOfMemory>
    requires { HasEndings (C.can_take code.now) (C.word code.now) endings.old.items letter }
    ensures { OnOk result (HasEndings (C.can_take code.now) (C.word code.now) endings.new.items (letter + 1)) }
{
    if !code.takes(letter) {
        return Ok(());
    }
    let at = last_byte(code.word_of(letter).as_slice()) as usize;
    endings[at].push(letter)?;
    Ok(())
}

/// The last byte, or 0 where there is none.
fn last_byte(word: &[u8]) -> u8
    ensures { result ≡ last_of word.now }
{
    match word.split_first() {
        None => 0,
        Some((first, rest)) => {
            if rest.is_empty() {
                return *first;
            }
            last_byte(rest)
        }
    }
}
