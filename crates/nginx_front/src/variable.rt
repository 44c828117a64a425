//! What begins with a dollar sign.

ghost use Rattle.std.specs.Prelude.{◌≡◌, ◌∷◌, ◌+◌, ◌<◌, ◌^◌, length, IfOk};
ghost use Rattle.std.specs.List.{list_all, prefix_len};
ghost use Rattle.nginx_front.specs.Variables.{is_word, is_name, slot_of};
ghost use Rattle.nginx_front.specs.Reading.{on_bare, on_braced, on_dollar, Gives, GivesName};

use crate::table::{Escape, absence_of, code_of, kind_of, sort_of};
use lf_core::OutOfMemory;
use lf_format::Slot;
use lf_spelling::{Cause, Given, ItemFault, Taken, cut_before, spelled};
use std::alloc::Global;

/// A letter, a digit or `_`.
pub fn is_word_byte(b: u8) -> bool
    ensures { result ≡ is_word b }
{
    (48 <= b && b <= 57) || (65 <= b && b <= 90) || (97 <= b && b <= 122) || b == b'_'
}

fn word_run(text: &[u8]) -> usize
    ensures { result ≡ prefix_len is_word text.now }
{
    text.iter().take_while(|b| is_word_byte(**b)).count()
}

fn are_word_bytes(text: &[u8]) -> bool
    ensures { result ≡ list_all is_word text.now }
{
    text.iter().all(|b| is_word_byte(*b))
}

fn is_variable_name(name: &[u8]) -> bool
    ensures { result ≡ is_name name.now }
{
    if name.is_empty() {
        return false;
    }
    are_word_bytes(name)
}

/// The slot of a variable, named by a dollar sign and its name.
fn slot(alloc: Global, escape: Escape, name: &str) -> Result<Slot, OutOfMemory>
    ensures { IfOk result (λ slot. slot ≡ slot_of escape name.now) }
{
    let sort = sort_of(name);
    let kind = kind_of(alloc, escape, sort)?;
    Ok(Slot {
        name: spelled(alloc, "$", name.as_bytes())?,
        kind,
        code: code_of(escape, sort),
        absent: absence_of(escape, sort),
        present: false,
        quoted: false,
    })
}

/// The variable of a name, which is spelled with so many bytes.
fn named(alloc: Global, escape: Escape, name: &[u8], len: usize) -> Result<Taken, ItemFault>
    ensures { GivesName escape name.now len result }
{
    if !is_variable_name(name) {
        return Err(ItemFault::Fault(Cause::BadName));
    }
    let Ok(text) = str::from_utf8(name) else {
        unreachable!()
    };
    let slot = slot(alloc, escape, text)?;
    Ok(Taken {
        given: Given::Slot(slot),
        len,
    })
}

/// A name without braces, by what follows the dollar sign.
fn bare(alloc: Global, escape: Escape, text: &[u8]) -> Result<Taken, ItemFault>
    requires { length text.now + 3 < 2 ^ 64 }
    ensures { Gives escape (on_bare (record { escape = escape }) text.now) (36 ∷ text.now) result }
{
    let name = text.split_at(word_run(text)).0;
    named(alloc, escape, name, name.len() + 1)
}

/// A name in braces, by what follows the opening one.
fn braced(alloc: Global, escape: Escape, text: &[u8]) -> Result<Taken, ItemFault>
    requires { length text.now + 3 < 2 ^ 64 }
    ensures { Gives escape (on_braced (record { escape = escape }) text.now) (36 ∷ 123 ∷ text.now) result }
{
    let (name, closed) = cut_before(text, b'}');
    if closed.is_empty() {
        return Err(ItemFault::Fault(Cause::Unclosed));
    }
    named(alloc, escape, name, name.len() + 3)
}

/// What follows a dollar sign.
pub fn dollar(alloc: Global, escape: Escape, after: &[u8]) -> Result<Taken, ItemFault>
    requires { length after.now + 3 < 2 ^ 64 }
    ensures { Gives escape (on_dollar (record { escape = escape }) after.now) (36 ∷ after.now) result }
{
    if let Some((first, text)) = after.split_first()
        && *first == b'{'
    {
        return braced(alloc, escape, text);
    }
    bare(alloc, escape, after)
}
