//! The field map that a text is.

ghost use Rattle.std.specs.Prelude.{◌≡◌, ◌+◌, ◌≤◌, ◌<◌, ◌^◌, [], ◌∷◌, ◌++◌, length, None, Some, Err, OnOk, IfOk, IfErr};
ghost use Rattle.lf_limits.specs.Limits.{most_slots, most_text_bytes};
ghost use Rattle.lf_syntax.specs.Shape.{grammar};
ghost use Rattle.lf_format.specs.Keeps.{slots_in};
ghost use Rattle.lf_expression.specs.Exprs.{exprs_said};
ghost use Rattle.lf_map.specs.Map.{call as call_grammar, assign as assign_grammar, IsAssign, IsMap};
ghost use Rattle.lf_map.specs.Letters.{parts_of};
ghost use Rattle.lf_map.specs.Forms.{form_said, given_said};
ghost use Rattle.lf_map.specs.Filling.{Answer, IsSo, IsPlace, IsPartFault, IsFine, part_fault, form_after, blank, first_blank, all_given, finished, Reads, ParsesMap, IsMapOf, Gives};

use crate::checking::assign_fault;
use crate::fault::MapFault;
use crate::field_map::FieldMap;
use crate::grammar;
use crate::parts::cut_part;
use crate::reading::read_assign;
use lf_expression::Expr;
use lf_format::Format;
use lf_limits::MOST_NESTING;
use lf_syntax::{Grammar, ScanFault, scan_nested};
use std::alloc::{AllocError, Global};

/// A text, the formats between which it is to map, and the grammar that it is read by.
#[derive(Drop)]
struct Reading<'a> {
    alloc: Global,
    text: &'a [u8],
    source: &'a Format,
    target: &'a Format,
    call: &'a Grammar,
    assign: &'a Grammar,
}

/// The place of the fault of a text that is no map.
fn place_of(alloc: Global, call: &Grammar, text: &[u8]) -> MapFault
    requires call { grammar call.now ≡ call_grammar }
    requires short { length text.now ≤ most_text_bytes }
    requires none { IsMap text.now → ⊥ }
    ensures { IsPlace text.now result }
{
    let Ok(map) = grammar::map(alloc) else {
        return MapFault::OutOfMemory;
    };
    match scan_nested(alloc, call, MOST_NESTING as u8, &map, text) {
        Ok(()) => unreachable!(),
        Err(ScanFault::Syntax(place)) => MapFault::Syntax(place),
        Err(ScanFault::OutOfMemory) => MapFault::OutOfMemory,
    }
}

/// A form with nothing given.
fn blank(alloc: Global, slots: u32) -> Result<Vec<Option<Expr>>, AllocError>
    ensures length { IfOk result (λ form. length form.items ≡ slots) }
    ensures blank { IfOk result (λ form. form_said form.items ≡ blank slots) }
{
    let mut form = Vec::new(alloc);
    for _k in 0..slots {
        form.push(None)?;
    }
    Ok(form)
}

/// Gives the expression of the part, which is an assignment, to its slot.
fn give(reading: &Reading, part: &[u8], form: &mut [Option<Expr>]) -> Result<(), MapFault>
    requires { length form.old ≡ length (slots_in reading.now.target.now.pieces) }
    ensures fine { OnOk result (part_fault (slots_in reading.now.source.now.pieces) (slots_in reading.now.target.now.pieces) part.now (form_said form.old) ≡ None) }
    ensures given { OnOk result (form_said form.new ≡ form_after part.now (form_said form.old)) }
    ensures length { OnOk result (length form.new ≡ length form.old) }
    ensures fault { IfErr result (λ fault. IsSo (λ one. part_fault (slots_in reading.now.source.now.pieces) (slots_in reading.now.target.now.pieces) part.now (form_said form.old) ≡ Some one) fault) }
{
    let Ok(assign) = read_assign(reading.alloc, part) else {
        return Err(MapFault::OutOfMemory);
    };
    if let Some(fault) = assign_fault(reading.source, reading.target, form, &assign) {
        return Err(fault);
    }
    form[(assign.target - 1) as usize] = Some(assign.expr);
    Ok(())
}

/// Reads the part, and gives its expression to its slot.
fn read_part(reading: &Reading, part: &[u8], form: &mut [Option<Expr>]) -> Result<(), MapFault>
    requires call { grammar reading.now.call.now ≡ call_grammar }
    requires assign { grammar reading.now.assign.now ≡ assign_grammar }
    requires short { length reading.now.text.now ≤ most_text_bytes }
    requires shorter { length part.now ≤ length reading.now.text.now }
    requires count { length form.old ≡ length (slots_in reading.now.target.now.pieces) }
    requires is_part { IsMap reading.now.text.now → IsAssign part.now }
    ensures fine { OnOk result (IsFine (slots_in reading.now.source.now.pieces) (slots_in reading.now.target.now.pieces) part.now (form_said form.old)) }
    ensures given { OnOk result (form_said form.new ≡ form_after part.now (form_said form.old)) }
    ensures length { OnOk result (length form.new ≡ length form.old) }
    ensures fault { IfErr result (IsPartFault (slots_in reading.now.source.now.pieces) (slots_in reading.now.target.now.pieces) reading.now.text.now part.now (form_said form.old)) }
{
    match scan_nested(
        reading.alloc,
        reading.call,
        MOST_NESTING as u8,
        reading.assign,
        part,
    ) {
        Ok(()) => give(reading, part, form),
        Err(ScanFault::Syntax(_)) => Err(place_of(reading.alloc, reading.call, reading.text)),
        Err(ScanFault::OutOfMemory) => Err(MapFault::OutOfMemory),
    }
}

/// Reads the parts of the text, from the left.
fn read_parts(reading: &Reading, form: &mut [Option<Expr>]) -> Result<(), MapFault>
    requires call { grammar reading.now.call.now ≡ call_grammar }
    requires assign { grammar reading.now.assign.now ≡ assign_grammar }
    requires short { length reading.now.text.now ≤ most_text_bytes }
    requires count { length form.old ≡ length (slots_in reading.now.target.now.pieces) }
    ensures read { OnOk result (Reads (slots_in reading.now.source.now.pieces) (slots_in reading.now.target.now.pieces) reading.now.text.now (parts_of reading.now.text.now) (form_said form.old) (finished (form_said form.new) (first_blank 1 (form_said form.new)))) }
    ensures length { OnOk result (length form.new ≡ length form.old) }
    ensures fault { IfErr result (λ fault. IsSo (λ one. Reads (slots_in reading.now.source.now.pieces) (slots_in reading.now.target.now.pieces) reading.now.text.now (parts_of reading.now.text.now) (form_said form.old) (Err one)) fault) }
{
    let mut rest = reading.text;
    'parts: loop {
        let (part, more) = cut_part(rest);
        match read_part(reading, part, form) {
            Err(fault) => return Err(fault),
            Ok(()) => {}
        }
        let Some((_byte, further)) = more.split_first() else {
            return Ok(());
        };
        rest = further;
    }
}

/// The number of the first slot without an expression, where the first of these has this one.
fn first_blank(k: u32, form: &[Option<Expr>]) -> Option<u32>
    requires { k + length form.now < 2 ^ 32 }
    ensures { result ≡ first_blank k (form_said form.now) }
{
    match form.split_first() {
        None => None,
        Some((None, _more)) => Some(k),
        Some((Some(_), more)) => first_blank(k + 1, more),
    }
}

/// The expressions of a form.
fn all_given(alloc: Global, form: Vec<Option<Expr>>) -> Result<Vec<Expr>, AllocError>
    ensures { IfOk result (λ exprs. exprs_said exprs.items ≡ all_given (form_said form.items)) }
{
    let mut exprs = Vec::new(alloc);
    for one in form {
        push_given(one, &mut exprs)?;
    }
    Ok(exprs)
}

/// Appends the expression, if there is one.
fn push_given(one: Option<Expr>, into: &mut Vec<Expr>) -> Result<(), AllocError>
    ensures { OnOk result (exprs_said into.new.items ≡ exprs_said into.old.items ++ all_given (given_said one ∷ [])) }
{
    match one {
        None => Ok(()),
        Some(expr) => {
            into.push(expr)?;
            Ok(())
        }
    }
}

/// The form that the text fills.
fn filled(
    alloc: Global,
    text: &[u8],
    source: &Format,
    target: &Format,
) -> Result<Vec<Option<Expr>>, MapFault>
    requires { length text.now ≤ most_text_bytes }
    ensures length { IfOk result (λ form. length form.items ≤ most_slots) }
    ensures read { IfOk result (λ form. ParsesMap text.now source.now target.now (finished (form_said form.items) (first_blank 1 (form_said form.items)))) }
    ensures fault { IfErr result (λ fault. IsSo (λ one. ParsesMap text.now source.now target.now (Err one)) fault) }
{
    let call = grammar::call(alloc)?;
    let assign = grammar::assign(alloc)?;
    let _kept = target.pieces();
    let mut form = blank(alloc, target.slots())?;
    let reading = Reading {
        alloc,
        text,
        source,
        target,
        call: &call,
        assign: &assign,
    };
    read_parts(&reading, form.as_mut_slice())?;
    Ok(form)
}

/// The map that the text is, or its first fault.
fn parsed(
    alloc: Global,
    text: &[u8],
    source: &Format,
    target: &Format,
) -> Result<FieldMap, MapFault>
    requires { length text.now ≤ most_text_bytes }
    ensures parsed { IfOk result (λ map. IsMapOf text.now source.now target.now map) }
    ensures faulty { IfErr result (λ fault. IsSo (λ one. ParsesMap text.now source.now target.now (Err one)) fault) }
{
    let form = filled(alloc, text, source, target)?;
    if let Some(k) = first_blank(1, form.as_slice()) {
        return Err(MapFault::Unfilled(k));
    }
    let exprs = all_given(alloc, form)?;
    let from = source.copy()?;
    let to = target.copy()?;
    Ok(FieldMap {
        source: from,
        target: to,
        exprs,
    })
}

/// The map that the text is from the source to the target, or its first fault.
pub fn parse_map(
    alloc: Global,
    text: &str,
    source: &Format,
    target: &Format,
) -> Result<FieldMap, MapFault>
    requires { length text.now ≤ most_text_bytes }
    // What is answered is so.
    ensures parsed { IfOk result (λ map. IsMapOf text.now source.now target.now map) }
    ensures faulty { IfErr result (λ fault. IsSo (λ one. ParsesMap text.now source.now target.now (Err one)) fault) }
    // What is so is answered, unless memory runs out.
    ensures only { (answer : Answer) → ParsesMap text.now source.now target.now answer → Gives answer result }
{
    match parsed(alloc, text.as_bytes(), source, target) {
        Ok(map) => Ok(map),
        Err(fault) => Err(fault),
    }
}
