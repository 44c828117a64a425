//! The parts of a directive: its first fault, or what it says.

ghost use Rattle.std.specs.Prelude.{◌≡◌, ◌≤◌, ℕ, List, length, IfOk};
ghost use Rattle.lf_limits.specs.Limits.{most_text_bytes};
ghost use Rattle.std.specs.List.{prefix_len};
ghost use Rattle.lf_spelling.specs.Runs.{run, past};
ghost use Rattle.nginx_front.specs.Bytes.{is_white, is_name_byte, is_bare};
ghost use Rattle.nginx_front.specs.Escapes.{names_escape, escape_of, escape_at};
ghost use Rattle.nginx_front.specs.Passes.{after_name, name_end, word_place, strings_place, open_place};
ghost use Rattle.nginx_front.specs.declared.strings.Placed.{Placed};
ghost use Rattle.nginx_front.specs.declared.table.Escape.{Escape};
ghost use Rattle.nginx_front.specs.Parts.{IsSpelled, IsBadEscape, IsOpenQuote, LeavesAt, BadIs, FaultIs};
ghost use Rattle.nginx_front.specs.Whole.{GivesSaid};

use crate::bytes::{is_bare_byte, is_format_name_byte, is_white_byte};
use crate::grammar::{before_escape, directive, open_directive, place_by};
use crate::strings::{Mode, Placed, strings};
use crate::table::Escape;
use lf_core::OutOfMemory;
use lf_spelling::{Cause, FormatFault};
use std::alloc::Global;

/// What a directive says: the escape, and the bytes of its joined strings.
#[derive(Drop)]
pub struct Said {
    pub escape: Escape,
    pub given: Vec<Placed>,
}

fn white_run(text: &[u8]) -> usize
    ensures { result ≡ prefix_len is_white text.now }
{
    text.iter().take_while(|b| is_white_byte(**b)).count()
}

fn name_run(text: &[u8]) -> usize
    ensures { result ≡ prefix_len is_name_byte text.now }
{
    text.iter().take_while(|b| is_format_name_byte(**b)).count()
}

fn bare_run(text: &[u8]) -> usize
    ensures { result ≡ prefix_len is_bare text.now }
{
    text.iter().take_while(|b| is_bare_byte(**b)).count()
}

#[tactic(auto, using(lf_spelling::specs::RunLaws::run_fits, lf_spelling::specs::RunLaws::run_back))]
fn past_white(text: &[u8]) -> &[u8]
    ensures { result.now ≡ past is_white text.now }
{
    text.split_at(white_run(text)).1
}

#[tactic(auto, using(lf_spelling::specs::RunLaws::run_fits, lf_spelling::specs::RunLaws::run_back))]
fn past_name(text: &[u8]) -> &[u8]
    ensures { result.now ≡ past is_name_byte text.now }
{
    text.split_at(name_run(text)).1
}

#[tactic(auto, using(lf_spelling::specs::RunLaws::run_fits, lf_spelling::specs::RunLaws::run_front))]
fn bare_word(text: &[u8]) -> &[u8]
    ensures { result.now ≡ run is_bare text.now }
{
    text.split_at(bare_run(text)).0
}

/// What follows the name.
fn after_name(text: &[u8]) -> &[u8]
    ensures { result.now ≡ after_name text.now }
{
    past_name(past_white(past_name(past_white(text))))
}

fn name_end(text: &[u8]) -> usize
    ensures { result ≡ name_end text.now }
{
    text.len().saturating_sub(after_name(text).len())
}

/// Where the part after the name begins.
fn word_place(text: &[u8]) -> usize
    ensures { result ≡ word_place text.now }
{
    text.len()
        .saturating_sub(past_white(after_name(text)).len())
}

fn names_escape(text: &[u8]) -> bool
    ensures { result ≡ names_escape text.now }
{
    bare_word(text).starts_with(b"escape=")
}

/// The escape that a value names.
fn escape_of(word: &[u8]) -> Option<Escape>
    ensures { result ≡ escape_of word.now }
{
    if word == b"default".as_slice() {
        return Some(Escape::Default);
    }
    if word == b"json".as_slice() {
        return Some(Escape::Json);
    }
    if word == b"none".as_slice() {
        return Some(Escape::Off);
    }
    None
}

/// The escape of a text from its first part on.
#[tactic(auto, using(lf_domain::specs::WordLaws::front_fits))]
fn escape_at(text: &[u8]) -> Option<Escape>
    ensures { result ≡ escape_at text.now }
{
    if !names_escape(text) {
        return Some(Escape::Default);
    }
    escape_of(bare_word(text).split_at(7).1)
}

/// The place of an escape of another value.
fn bad_escape(alloc: Global, text: &[u8]) -> Result<Option<u32>, OutOfMemory>
    requires { length text.now ≤ most_text_bytes }
    ensures { IfOk result (λ found. BadIs text.now found) }
{
    let at = word_place(text);
    let (before, rest) = text.split_at(at);
    if let Some(_) = escape_at(rest) {
        return Ok(None);
    }
    let grammar = before_escape(alloc)?;
    match place_by(alloc, &grammar, before)? {
        None => Ok(Some(at as u32)),
        Some(_) => Ok(None),
    }
}

/// The place of the quote in which a text ends.
fn open_quote(alloc: Global, text: &[u8]) -> Result<u32, OutOfMemory>
    requires { length text.now ≤ most_text_bytes }
    ensures { IfOk result (λ place. (quote : ℕ) → IsOpenQuote text.now quote → place ≡ quote) }
{
    let start = name_end(text);
    let (_, mode) = strings(alloc, text.split_at(start).1, start as u32)?;
    Ok(opened_at(mode))
}

fn opened_at(mode: Mode) -> u32
    ensures { result ≡ open_place mode }
{
    match mode {
        Mode::Quoted(_, at) | Mode::Backslash(_, at) => at,
        Mode::Outside => 0,
    }
}

/// The fault of a text that ends before its directive does.
fn early_end(alloc: Global, text: &[u8]) -> Result<(u32, Cause), OutOfMemory>
    requires { length text.now ≤ most_text_bytes }
    ensures { IfOk result (λ fault. LeavesAt text.now (length text.now) fault.0 fault.1) }
{
    let grammar = open_directive(alloc)?;
    match place_by(alloc, &grammar, text)? {
        Some(_) => Ok((text.len() as u32, Cause::Unclosed)),
        None => Ok((open_quote(alloc, text)?, Cause::Unclosed)),
    }
}

/// The fault of a text that leaves the grammar at a place.
fn leaves(alloc: Global, text: &[u8], at: u32) -> Result<(u32, Cause), OutOfMemory>
    requires short { length text.now ≤ most_text_bytes }
    requires inside { at ≤ length text.now }
    ensures { IfOk result (λ fault. LeavesAt text.now at fault.0 fault.1) }
{
    if (at as usize) < text.len() {
        return Ok((at, Cause::BadName));
    }
    early_end(alloc, text)
}

/// The first fault of a text with no escape of another value.
fn grammar_fault(alloc: Global, text: &[u8]) -> Result<Option<(u32, Cause)>, OutOfMemory>
    requires short { length text.now ≤ most_text_bytes }
    requires good { (place : ℕ) → IsBadEscape text.now place → ⊥ }
    ensures { IfOk result (λ found. FaultIs text.now found) }
{
    let grammar = directive(alloc)?;
    match place_by(alloc, &grammar, text)? {
        None => Ok(None),
        Some(at) => Ok(Some(leaves(alloc, text, at)?)),
    }
}

/// The first fault in the parts.
fn first_fault(alloc: Global, text: &[u8]) -> Result<Option<(u32, Cause)>, OutOfMemory>
    requires { length text.now ≤ most_text_bytes }
    ensures { IfOk result (λ found. FaultIs text.now found) }
{
    match bad_escape(alloc, text)? {
        Some(place) => Ok(Some((place, Cause::BadFlags))),
        None => grammar_fault(alloc, text),
    }
}

/// The place where the strings begin.
#[tactic(auto, using(lf_spelling::specs::RunLaws::run_fits))]
fn strings_place(text: &[u8]) -> usize
    ensures { result ≡ strings_place text.now }
{
    let word = word_place(text);
    let rest = text.split_at(word).1;
    if names_escape(rest) {
        return word + bare_run(rest);
    }
    name_end(text)
}

/// What a text says that is a directive.
fn read_parts(alloc: Global, text: &[u8]) -> Result<Said, OutOfMemory>
    requires { length text.now ≤ most_text_bytes }
    ensures { IfOk result (λ said. (escape : Escape) (given : List Placed) → IsSpelled text.now escape given → IsSpelled text.now said.escape said.given.items) }
{
    let word = text.split_at(word_place(text)).1;
    let escape = escape_at(word).unwrap_or(Escape::Default);
    let start = strings_place(text);
    let (given, _) = strings(alloc, text.split_at(start).1, start as u32)?;
    Ok(Said { escape, given })
}

/// What a directive says, or the first fault in its parts.
pub fn read_directive(alloc: Global, text: &[u8]) -> Result<Said, FormatFault>
    requires { length text.now ≤ most_text_bytes }
    ensures { GivesSaid text.now result }
{
    match first_fault(alloc, text)? {
        Some((place, cause)) => Err(FormatFault::At(place, cause)),
        None => Ok(read_parts(alloc, text)?),
    }
}
