//! The proper prefixes of a code's words.

ghost use Rattle.std.specs.Prelude.{◌≡◌, ℕ, ◌+◌, ◌<◌, ◌++◌, [], ◌∷◌, OnOk, IfOk, List, Bool, cond, is_some, length};
ghost use Rattle.lf_code_table.specs.Table.{same_list, index_of, added, with_prefixes, prefix_table};

use lf_core::{Bytes, OutOfMemory};
use lf_escape::Code;
use std::alloc::Global;

/// Whether the texts are one.
fn same(a: &[u8], b: &[u8]) -> bool
    ensures { result ≡ same_list a.now b.now }
{
    a == b
}

/// Whether the text stands in the table.
fn has(table: &[Bytes], text: &[u8]) -> bool
    ensures { result ≡ is_some (index_of table.now text.now) }
{
    match table.split_first() {
        None => false,
        Some((first, rest)) => {
            if same(first.as_slice(), text) {
                return true;
            }
            has(rest, text)
        }
    }
}

/// Adds the text, unless it stands in the table.
fn add(text: &Bytes, table: &mut Vec<Bytes>) -> Result<(), OutOfMemory>
    ensures { OnOk result (table.new.items ≡ added table.old.items text.now) }
{
    if has(table.as_slice(), text.as_slice()) {
        return Ok(());
    }
    let copy = text.copy()?;
    table.push(copy)?;
    Ok(())
}

/// Adds the proper prefixes of a word, the first bytes of which were read.
fn add_prefixes(read: Bytes, rest: &[u8], table: &mut Vec<Bytes>) -> Result<(), OutOfMemory>
    ensures { OnOk result (table.new.items ≡ with_prefixes table.old.items read rest.now) }
{
    match rest.split_first() {
        None => Ok(()),
        Some((first, more)) => {
            add(&read, table)?;
            let mut read = read;
            read.push(*first)?;
            add_prefixes(read, more, table)
        }
    }
}

/// Adds the proper prefixes of a letter's word.
fn add_letter<C: Code>(
    alloc: Global,
    code: &C,
    letter: u8,
    table: &mut Vec<Bytes>,
) -> Result<(), OutOfMemory>
    ensures { OnOk result (table.new.items ≡ cond (C.can_take code.now letter) (with_prefixes table.old.items [] (C.word code.now letter)) table.old.items) }
{
    if !code.takes(letter) {
        return Ok(());
    }
    let word = code.word_of(letter);
    add_prefixes(Bytes::new(alloc), word.as_slice(), table)
}

/// Adds the proper prefixes of all letters' words.
fn fill<C: Code>(alloc: Global, code: &C, table: &mut Vec<Bytes>) -> Result<(), OutOfMemory>
    requires { table.now.items ≡ [] ∷ [] }
    ensures { OnOk result (table.new.items ≡ prefix_table (C.can_take code.now) (C.word code.now) 256) }
{
    for letter in 0..=255u8 {
        add_letter(alloc, code, letter, table)?;
    }
    Ok(())
}

/// The table of the proper prefixes of a code's words.
pub fn code_prefixes<C: Code>(alloc: Global, code: &C) -> Result<Vec<Bytes>, OutOfMemory>
    ensures { IfOk result (λ table. table.items ≡ prefix_table (C.can_take code.now) (C.word code.now) 256) }
{
    let mut table = Vec::new(alloc);
    table.push(Bytes::new(alloc))?;
    fill(alloc, code, &mut table)?;
    Ok(table)
}
