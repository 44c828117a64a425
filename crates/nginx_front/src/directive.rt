//! A whole directive: its parts, and then the format that its joined strings spell.

ghost use Rattle.std.specs.Prelude.{◌≡◌, ◌≤◌, ◌↔◌, ℕ, List, length, drop, Some, IfOk};
ghost use Rattle.lf_limits.specs.Limits.{most_text_bytes};
ghost use Rattle.lf_spelling.specs.Spelling.{AnswersFormat, AnswersFault};
ghost use Rattle.lf_format.specs.Shape.{Shape};
ghost use Rattle.lf_spelling.specs.declared.fault.Cause.{Cause};
ghost use Rattle.nginx_front.specs.Syntax.{Is};
ghost use Rattle.nginx_front.specs.Syntax as syntax;
ghost use Rattle.nginx_front.specs.Escapes.{escape_at};
ghost use Rattle.nginx_front.specs.Passes.{word_place, given_in};
ghost use Rattle.nginx_front.specs.Parts.{IsSpelled};
ghost use Rattle.nginx_front.specs.declared.strings.Placed.{Placed};
ghost use Rattle.nginx_front.specs.declared.table.Escape.{Escape};
ghost use Rattle.nginx_front.specs.Whole.{bytes_of, place_of, SpellsDirective, FaultyDirective, HasOneDirectiveAnswer};

use crate::front::{one_answer, parse_bytes};
use crate::parts::{Said, read_directive};
use crate::strings::Placed;
use crate::table::Escape;
use lf_core::{Bytes, OutOfMemory};
use lf_format::Format;
use lf_spelling::FormatFault;
use std::alloc::Global;

/// The bytes without their places.
fn joined(alloc: Global, given: &[Placed]) -> Result<Bytes, OutOfMemory>
    ensures { IfOk result (λ bytes. bytes ≡ bytes_of given.now) }
{
    let mut bytes = Bytes::new(alloc);
    for one in given {
        bytes.push(one.byte)?;
    }
    Ok(bytes)
}

/// The place in the directive of a byte of the joined text.
fn place_of(given: &[Placed], at: u32) -> u32
    ensures { result ≡ place_of given.now at }
{
    match given.get(at as usize) {
        Some(one) => one.place,
        None => 0,
    }
}

/// The format that a `log_format` directive spells, or its first fault. A fault in the joined strings has the place
/// of the byte in the directive that gave its first byte.
pub fn parse_directive(alloc: Global, text: &str) -> Result<Format, FormatFault>
    requires { length text.now ≤ most_text_bytes }
    // What is answered is so.
    ensures spelled { IfOk result (λ format. SpellsDirective text.now format) }
    ensures faulty { (place : ℕ) (cause : Cause) → result ≡ Err (FormatFault.At place cause) → FaultyDirective text.now place cause }
    // What is so is answered, unless memory runs out.
    ensures only_spelled { (format : Shape) → SpellsDirective text.now format → AnswersFormat format result }
    ensures only_faulty { (place : ℕ) (cause : Cause) → FaultyDirective text.now place cause → AnswersFault place cause result }
{
    let Said { escape, given } = read_directive(alloc, text.as_bytes())?;
    let bytes = joined(alloc, given.as_slice())?;
    match parse_bytes(alloc, bytes.as_slice(), escape) {
        Ok(format) => Ok(format),
        Err(FormatFault::OutOfMemory) => Err(FormatFault::OutOfMemory),
        Err(FormatFault::At(at, cause)) => {
            Err(FormatFault::At(place_of(given.as_slice(), at), cause))
        }
    }
}

/// Each directive spells one format, or it has one first fault. And its parts have the escape and give the bytes that
/// are read of a directive whose escape is good, and only these.
pub fn one_directive_answer()
    ensures one { (text : List ℕ) → HasOneDirectiveAnswer text }
    ensures parts { (text : List ℕ) (escape : Escape) (given : List Placed) → IsSpelled text escape given ↔ (Is syntax.directive text × (escape_at (drop (word_place text) text) ≡ Some escape) × (given_in text ≡ given)) }
{
    one_answer(Escape::Default);
    one_answer(Escape::Json);
    one_answer(Escape::Off);
}
