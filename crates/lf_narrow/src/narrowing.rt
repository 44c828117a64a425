//! A format narrowed by a text.

ghost use Rattle.std.specs.Prelude.{◌≡◌, ◌+◌, ◌≤◌, length, IfOk, IfErr, OnOk};
ghost use Rattle.lf_limits.specs.Limits.{most_slots, most_text_bytes};
ghost use Rattle.lf_format.specs.Keeps.{EachKept, KeepsFormat, slots_in};
ghost use Rattle.lf_syntax.specs.Cuts.{cuts};
ghost use Rattle.lf_syntax.specs.Grammar.{Sentence};
ghost use Rattle.lf_syntax.specs.Shape.{grammar};
ghost use Rattle.lf_narrow.specs.Narrowing.{term as term_grammar};
ghost use Rattle.lf_narrow.specs.Effects.{narrowed_slot};
ghost use Rattle.lf_narrow.specs.Terms.{term_of};
ghost use Rattle.lf_narrow.specs.Narrowed.{pieces_after, IsFine, IsTermFault, IsPartFault, Narrows, NarrowsTo, IsFaulty, IsSo, AnswersFormat, AnswersFault};
ghost use Rattle.lf_format.specs.Shape.{Shape};
ghost use Rattle.lf_narrow.specs.declared.fault.NarrowFault.{NarrowFault};

use crate::fault::{NarrowFault, NarrowRefused};
use crate::grammar;
use crate::reading::{cut_before, read_term};
use crate::slots::apply;
use lf_core::OutOfMemory;
use lf_format::{Format, Piece};
use lf_syntax::{Grammar, ScanFault, scan_text};
use std::alloc::Global;

/// The format with what the text's terms leave to its slots, or the format as it was and the first fault.
pub fn narrow(alloc: Global, format: Format, text: &str) -> Result<Format, NarrowRefused>
    requires { length text.now ≤ most_text_bytes }
    // What is answered is so.
    ensures narrowed { IfOk result (λ narrowed. NarrowsTo format text.now narrowed) }
    ensures faulty { IfErr result (λ refused. IsSo (IsFaulty format text.now) refused.fault) }
    // What is so is answered, unless memory runs out.
    ensures only_narrowed { (narrowed : Shape) → NarrowsTo format text.now narrowed → AnswersFormat narrowed result }
    ensures only_faulty { (fault : NarrowFault) → IsFaulty format text.now fault → AnswersFault fault result }
    ensures handed_back { IfErr result (λ refused. refused.format ≡ format) }
{
    match narrowed(alloc, &format, text) {
        Ok(narrowed) => Ok(narrowed),
        Err(fault) => Err(NarrowRefused { format, fault }),
    }
}

fn narrowed(alloc: Global, format: &Format, text: &str) -> Result<Format, NarrowFault>
    requires { length text.now ≤ most_text_bytes }
    ensures narrowed { IfOk result (λ narrowed. NarrowsTo format.now text.now narrowed) }
    ensures faulty { IfErr result (λ fault. IsSo (IsFaulty format.now text.now) fault) }
{
    let language = grammar::term(alloc)?;
    let mut pieces = copy_pieces(alloc, format.pieces())?;
    apply_all(alloc, &language, pieces.as_mut_slice(), text.as_bytes())?;
    Ok(Format::new(pieces, format.end(), format.notes()))
}

fn copy_pieces(alloc: Global, pieces: &[Piece]) -> Result<Vec<Piece>, OutOfMemory>
    ensures { IfOk result (λ copy. copy.items ≡ pieces.now) }
{
    let mut copy = Vec::new(alloc);
    for piece in pieces {
        copy.push(piece.copy()?)?;
    }
    Ok(copy)
}

/// Scans the part, which begins at this place of the whole text, and does what it says.
fn apply_part(
    alloc: Global,
    language: &Grammar,
    at: usize,
    part: &[u8],
    pieces: &mut [Piece],
) -> Result<(), NarrowFault>
    requires language { grammar language.now ≡ term_grammar }
    requires short { at + length part.now ≤ most_text_bytes }
    requires kept { EachKept pieces.old }
    requires few { length (slots_in pieces.old) ≤ most_slots }
    ensures sentence { OnOk result (Sentence term_grammar part.now) }
    ensures fine { OnOk result (IsFine (term_of part.now).slot (narrowed_slot (term_of part.now).rule) pieces.old) }
    ensures after { OnOk result (pieces.new ≡ pieces_after (term_of part.now).slot (narrowed_slot (term_of part.now).rule) 1 pieces.old) }
    ensures fault { IfErr result (IsPartFault at part.now pieces.old) }
{
    match scan_text(alloc, language, part) {
        Err(ScanFault::Syntax(place)) => Err(NarrowFault::Syntax(at as u32 + place)),
        Err(ScanFault::OutOfMemory) => Err(NarrowFault::OutOfMemory),
        Ok(()) => apply_term(part, pieces),
    }
}

/// Does what the part says, which is a term.
fn apply_term(part: &[u8], pieces: &mut [Piece]) -> Result<(), NarrowFault>
    requires sentence { Sentence term_grammar part.now }
    requires kept { EachKept pieces.old }
    requires few { length (slots_in pieces.old) ≤ most_slots }
    ensures fine { OnOk result (IsFine (term_of part.now).slot (narrowed_slot (term_of part.now).rule) pieces.old) }
    ensures after { OnOk result (pieces.new ≡ pieces_after (term_of part.now).slot (narrowed_slot (term_of part.now).rule) 1 pieces.old) }
    ensures fault { IfErr result (λ fault. IsSo (IsTermFault (term_of part.now).slot (narrowed_slot (term_of part.now).rule) pieces.old) fault) }
{
    apply(read_term(part), pieces)
}

/// Does what the parts of the text say, from the left.
fn apply_all(
    alloc: Global,
    language: &Grammar,
    pieces: &mut [Piece],
    text: &[u8],
) -> Result<(), NarrowFault>
    requires language { grammar language.now ≡ term_grammar }
    requires short { length text.now ≤ most_text_bytes }
    requires kept { KeepsFormat pieces.old }
    ensures kept { OnOk result (KeepsFormat pieces.new) }
    ensures narrowed { OnOk result (Narrows text.now (cuts 59 text.now) pieces.old (Ok pieces.new)) }
    ensures fault { IfErr result (λ fault. IsSo (λ one. Narrows text.now (cuts 59 text.now) pieces.old (Err one)) fault) }
{
    let mut at = 0;
    let mut rest = text;
    'parts: loop {
        let (part, more) = cut_before(b';', rest);
        match apply_part(alloc, language, at, part, pieces) {
            Err(fault) => return Err(fault),
            Ok(()) => {}
        }
        let Some((_byte, further)) = more.split_first() else {
            return Ok(());
        };
        at += part.len() + 1;
        rest = further;
    }
}
