//! What stands ready by one byte: the letters whose word it is, and the number of the prefix that it is.

ghost use Rattle.std.specs.Prelude.{◌≡◌, ◌<◌, ◌^◌, ◌++◌, IfOk, OnOk, length, map};
ghost use Rattle.lf_code_table.specs.Lone.{is_lone, lone_of, HasFirsts};

use crate::code_table::find;
use lf_core::{Bytes, OutOfMemory};
use lf_escape::Code;
use std::alloc::Global;

/// For each byte the letters whose word it is, out of those whose words it ends.
pub fn lone_letters<C: Code>(
    alloc: Global,
    code: &C,
    endings: &[Bytes],
) -> Result<Vec<Bytes>, OutOfMemory>
    ensures { IfOk result (λ lists. lists.items ≡ map (lone_of (C.can_take code.now) (C.word code.now)) endings.now) }
{
    let mut lists = Vec::new(alloc);
    push_lists(alloc, code, endings, &mut lists)?;
    Ok(lists)
}

/// Adds a list for each list of letters.
fn push_lists<C: Code>(
    alloc: Global,
    code: &C,
    endings: &[Bytes],
    lists: &mut Vec<Bytes>,
) -> Result<(), OutOfMemory>
    ensures ok { OnOk result (lists.new.items ≡ lists.old.items ++ map (lone_of (C.can_take code.now) (C.word code.now)) endings.now) }
{
    match endings.split_first() {
        None => Ok(()),
        Some((letters, rest)) => {
            lists.push(lone_list(alloc, code, letters.as_slice())?)?;
            push_lists(alloc, code, rest, lists)
        }
    }
}

/// Those of the letters whose words are one byte.
fn lone_list<C: Code>(alloc: Global, code: &C, letters: &[u8]) -> Result<Bytes, OutOfMemory>
    ensures { IfOk result (λ list. list ≡ lone_of (C.can_take code.now) (C.word code.now) letters.now) }
{
    let mut list = Bytes::new(alloc);
    push_lone(code, letters, &mut list)?;
    Ok(list)
}

/// Adds those of the letters whose words are one byte.
fn push_lone<C: Code>(code: &C, letters: &[u8], list: &mut Bytes) -> Result<(), OutOfMemory>
    ensures ok { OnOk result (list.new ≡ list.old ++ lone_of (C.can_take code.now) (C.word code.now) letters.now) }
{
    match letters.split_first() {
        None => Ok(()),
        Some((letter, rest)) => {
            if is_lone(code, *letter) {
                list.push(*letter)?;
                return push_lone(code, rest, list);
            }
            push_lone(code, rest, list)
        }
    }
}

/// Whether the letter is taken and its word is one byte.
fn is_lone<C: Code>(code: &C, letter: u8) -> bool
    ensures { result ≡ is_lone (C.can_take code.now) (C.word code.now) letter }
{
    if !code.takes(letter) {
        return false;
    }
    code.word_of(letter).as_slice().len() == 1
}

/// For each byte the number of the text that it is.
pub fn first_numbers(alloc: Global, texts: &[Bytes]) -> Result<Vec<Option<u32>>, OutOfMemory>
    requires { length texts.now < 2 ^ 8 }
    ensures { IfOk result (λ firsts. HasFirsts texts.now firsts.items 256) }
{
    let mut firsts = Vec::new(alloc);
    push_firsts(texts, &mut firsts)?;
    Ok(firsts)
}

fn push_firsts(texts: &[Bytes], firsts: &mut Vec<Option<u32>>) -> Result<(), OutOfMemory>
    requires short { length texts.now < 2 ^ 8 }
    requires none { HasFirsts texts.now firsts.old.items 0 }
    ensures { OnOk result (HasFirsts texts.now firsts.new.items 256) }
{
    for byte in 0..=255u8 {
        firsts.push(find(texts, &[], byte))?;
    }
    Ok(())
}
