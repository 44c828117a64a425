//! An identifier: what it stands for, or what is wrong with it.

ghost use Rattle.std.specs.Prelude.{◌≡◌, nat_eq};
ghost use Rattle.std.specs.List.{list_all};
ghost use Rattle.std.specs.Option.{option_copied};
ghost use Rattle.std.specs.Str.{IsUtf8};
ghost use Rattle.w3c_front.specs.declared.table.Sort.{Sort};
ghost use Rattle.w3c_front.specs.Table.{prefixes};
ghost use Rattle.w3c_front.specs.Identifier.{past_prefix, is_own_byte, is_own, prefixed_sort, draft_sort, sort_of, is_inside, is_header_name, header_of, field_of, slot_of};
ghost use Rattle.w3c_front.specs.Reading.{GivesSlot};

use crate::table::{
    Language, Sort, code_of, draft_field, header_sort, iis_field, is_prefix, is_quoted, kind_of,
    prefixed_field,
};
use lf_core::{OutOfMemory, Str};
use lf_format::{Absent, Slot};
use lf_spelling::{Cause, ItemFault, cut_before};
use std::alloc::Global;

/// What follows a prefix and the mark, where they begin the identifier.
fn past_prefix(language: Language, mark: u8, name: &[u8]) -> Option<&[u8]>
    ensures { option_copied result ≡ past_prefix language mark name.now }
{
    let (prefix, marked) = cut_before(name, mark);
    if !is_prefix(language, prefix) {
        return None;
    }
    let (_mark, rest) = marked.split_first()?;
    Some(rest)
}

fn is_own_byte(b: u8) -> bool
    ensures { result ≡ is_own_byte b }
{
    b.is_ascii_alphanumeric() || b == b'-' || b == b'_'
}

fn are_own_bytes(text: &[u8]) -> bool
    ensures { result ≡ list_all is_own_byte text.now }
{
    text.iter().all(|b| is_own_byte(*b))
}

/// Whether this is `x-` and a name of one's own.
fn is_own(name: &[u8]) -> bool
    ensures { result ≡ is_own name.now }
{
    if !name.starts_with(b"x-") {
        return false;
    }
    let own = name.split_at(2).1;
    !own.is_empty() && are_own_bytes(own)
}

fn prefixed_sort(name: &[u8]) -> Option<Sort>
    ensures { result ≡ prefixed_sort name.now }
{
    let rest = past_prefix(Language::Draft, b'-', name)?;
    prefixed_field(rest)
}

fn draft_sort(name: &[u8]) -> Option<Sort>
    ensures { result ≡ draft_sort name.now }
{
    if is_own(name) {
        return Some(Sort::Word);
    }
    if let Some(sort) = draft_field(name) {
        return Some(sort);
    }
    prefixed_sort(name)
}

/// The sort of an identifier without a header's name.
fn sort_of(language: Language, name: &[u8]) -> Option<Sort>
    ensures { result ≡ sort_of language name.now }
{
    match language {
        Language::Draft => draft_sort(name),
        Language::Iis => iis_field(name),
    }
}

fn holds_no_parenthesis(text: &[u8]) -> bool
    ensures { result ≡ list_all is_inside text.now }
{
    text.iter().all(|b| *b != b'(' && *b != b')')
}

fn is_header_name(name: &[u8]) -> bool
    ensures { result ≡ is_header_name name.now }
{
    !name.is_empty() && holds_no_parenthesis(name)
}

/// What follows the parenthesis.
fn header(language: Language, inside: &[u8]) -> Result<Sort, Cause>
    ensures { result ≡ header_of language inside.now }
{
    if !inside.ends_with(b")") {
        return Err(Cause::Unclosed);
    }
    if !is_header_name(inside.split_at(inside.len() - 1).0) {
        return Err(Cause::BadName);
    }
    Ok(header_sort(language))
}

/// What the identifier stands for.
fn field(language: Language, name: &[u8]) -> Result<Sort, Cause>
    ensures { result ≡ field_of language name.now }
{
    if let Some(inside) = past_prefix(language, b'(', name) {
        return header(language, inside);
    }
    match sort_of(language, name) {
        Some(sort) => Ok(sort),
        None => Err(Cause::UnknownName),
    }
}

/// The slot of an identifier, which a missing value leaves as a dash.
pub fn slot(alloc: Global, language: Language, name: &[u8]) -> Result<Slot, ItemFault>
    requires { (sort : Sort) → field_of language name.now ≡ Ok sort → IsUtf8 name.now }
    ensures { GivesSlot language name.now result }
{
    let sort = match field(language, name) {
        Ok(sort) => sort,
        Err(cause) => return Err(ItemFault::Fault(cause)),
    };
    let Ok(text) = str::from_utf8(name) else {
        unreachable!()
    };
    let name = Str::of(alloc, text)?;
    Ok(Slot {
        name,
        kind: kind_of(sort),
        code: code_of(sort),
        absent: Absent::Dash,
        present: false,
        quoted: is_quoted(sort),
    })
}
