//! The texts that show a format, a witness or a refusal.

ghost use Rattle.std.specs.Prelude.{◌≡◌, ◌+◌, ◌≤◌, ◌++◌, ◌∷◌, [], length, codes, All, IfOk, OnOk};
ghost use Rattle.std.specs.Fmt.{decimal};
ghost use Rattle.lf_limits.specs.Limits.{most_slots};
ghost use Rattle.lf_json.specs.Text.{HasJson};
ghost use Rattle.lf_app.specs.declared.commands.Command.TheVariants as commands;
ghost use Rattle.lf_app.specs.declared.commands.Refusal.TheVariants as refusals;
ghost use Rattle.lf_app.specs.Progress.{HasRecords, IsReady};
ghost use Rattle.lf_format.specs.Keeps.{slots_in};
ghost use Rattle.lf_app.specs.Outcome.{cause_text, refusal_text as refusal_words, refusal_status as status_of, witness_text as witness_words, fault_text, map_fault_text, side_text, kind_text, absent_text, slot_line, slot_lines};

use crate::commands::{Refusal, WhichSide};
use crate::report::push_number;
use crate::status::Status;
use lf_compile::Confusion;
use lf_core::{Bytes, OutOfMemory, Record};
use lf_format::{Absent, Format, Piece, Slot, ValueKind};
use lf_json::{write_record, write_text};
use lf_limits::MOST_SIZE;
use lf_map::MapFault;
use lf_narrow::NarrowFault;
use lf_spelling::Cause;
use std::alloc::Global;

/// The word for a sort of values.
fn kind_word(kind: ValueKind) -> &'static [u8]
    ensures { result.now ≡ kind_text kind }
{
    match kind {
        ValueKind::Number => b"number",
        ValueKind::Text => b"text",
        ValueKind::Moment => b"moment",
        ValueKind::Day => b"day",
        ValueKind::Clock => b"clock",
    }
}

/// The word for how a missing value is printed.
fn absent_word(absent: Absent) -> &'static [u8]
    ensures { result.now ≡ absent_text absent }
{
    match absent {
        Absent::No => b"no",
        Absent::Dash => b"dash",
        Absent::DashTwo => b"dash-two",
        Absent::Blank => b"blank",
    }
}

/// Appends a space and a word.
fn push_word(word: &[u8], into: &mut Bytes) -> Result<(), OutOfMemory>
    ensures { OnOk result (into.new ≡ into.old ++ (32 ∷ word.now)) }
{
    into.push(b' ')?;
    into.extend(word)
}

/// Appends what is shown of the slot of this number.
fn show_slot(number: u32, slot: &Slot, into: &mut Bytes) -> Result<(), OutOfMemory>
    ensures { OnOk result (into.new ≡ into.old ++ slot_line number slot.now) }
{
    into.push(b's')?;
    push_number(number as u64, into)?;
    push_word(slot.name.as_str().as_bytes(), into)?;
    push_word(kind_word(slot.kind.value_kind()), into)?;
    push_word(absent_word(slot.absent), into)?;
    into.push(b'\n')
}

/// Appends what is shown of the slots of the pieces, numbered from this number on.
fn show_slots(number: u32, pieces: &[Piece], into: &mut Bytes) -> Result<(), OutOfMemory>
    requires { number + length (slots_in pieces.now) ≤ most_slots + 1 }
    ensures { OnOk result (into.new ≡ into.old ++ slot_lines number (slots_in pieces.now)) }
{
    match pieces.split_first() {
        None => Ok(()),
        Some((Piece::Literal(_), rest)) => show_slots(number, rest, into),
        Some((Piece::Slot(slot), rest)) => {
            show_slot(number, slot, into)?;
            show_slots(number + 1, rest, into)
        }
    }
}

/// What is shown of a format.
pub fn show_text(alloc: Global, format: &Format) -> Result<Bytes, OutOfMemory>
    ensures { IfOk result (λ text. text ≡ slot_lines 1 (slots_in format.now.pieces)) }
{
    let mut text = Bytes::new(alloc);
    show_slots(1, format.pieces(), &mut text)?;
    Ok(text)
}

/// The name of a cause.
fn cause_word(cause: Cause) -> &'static [u8]
    ensures { result.now ≡ cause_text cause }
{
    match cause {
        Cause::UnknownName => b"UnknownName",
        Cause::BadName => b"BadName",
        Cause::Unclosed => b"Unclosed",
        Cause::BadFlags => b"BadFlags",
        Cause::BadLength => b"BadLength",
        Cause::LineBreak => b"LineBreak",
        Cause::EmptyFormat => b"EmptyFormat",
        Cause::TooManySlots => b"TooManySlots",
    }
}

/// Appends the lines that show two records of one line, without the last line feed.
fn push_witness(confusion: &Confusion, into: &mut Bytes) -> Result<(), OutOfMemory>
    requires { HasRecords confusion.now }
    ensures { OnOk result (into.new ≡ into.old ++ witness_words confusion.now) }
{
    into.extend(b"ambiguous\nline ")?;
    write_text(confusion.line.as_slice(), into)?;
    into.extend(b"\nfirst ")?;
    write_record(&confusion.first, into)?;
    into.extend(b"\nsecond ")?;
    write_record(&confusion.second, into)?;
    Ok(())
}

/// The word for a side.
fn side_word(which: WhichSide) -> &'static [u8]
    ensures { result.now ≡ side_text which }
{
    match which {
        WhichSide::Source => b"source",
        WhichSide::Target => b"target",
    }
}

/// Appends the name of the program, and the word for a side.
fn push_side(which: WhichSide, into: &mut Bytes) -> Result<(), OutOfMemory>
    ensures { OnOk result (into.new ≡ into.old ++ (codes "logfmt: " ++ side_text which)) }
{
    into.extend(b"logfmt: ")?;
    into.extend(side_word(which))
}

/// Appends the fault of a format.
fn push_fault(
    which: WhichSide,
    place: u32,
    cause: Cause,
    into: &mut Bytes,
) -> Result<(), OutOfMemory>
    ensures { OnOk result (into.new ≡ into.old ++ refusal_words (refusals.BadFormat which place cause)) }
{
    push_side(which, into)?;
    into.extend(b" format: ")?;
    into.extend(cause_word(cause))?;
    into.extend(b" at ")?;
    push_number(place as u64, into)?;
    Ok(())
}

/// Appends a word that ends with a number.
fn push_numbered(word: &[u8], number: u32, into: &mut Bytes) -> Result<(), OutOfMemory>
    ensures { OnOk result (into.new ≡ into.old ++ (word.now ++ decimal number)) }
{
    into.extend(word)?;
    push_number(number as u64, into)
}

/// Appends what is said of a narrowing's fault.
fn push_cause(fault: NarrowFault, into: &mut Bytes) -> Result<(), OutOfMemory>
    ensures { OnOk result (into.new ≡ into.old ++ fault_text fault) }
{
    match fault {
        NarrowFault::Syntax(place) => push_numbered(b"Syntax at ", place, into),
        NarrowFault::NoSlot(slot) => push_numbered(b"NoSlot s", slot, into),
        NarrowFault::WrongKind(slot) => push_numbered(b"WrongKind s", slot, into),
        NarrowFault::Empty(slot) => push_numbered(b"Empty s", slot, into),
        NarrowFault::OutOfMemory => Ok(()),
    }
}

/// Appends the fault of a narrowing.
fn push_narrowing(which: WhichSide, fault: NarrowFault, into: &mut Bytes) -> Result<(), OutOfMemory>
    ensures { OnOk result (into.new ≡ into.old ++ refusal_words (refusals.BadNarrowing which fault)) }
{
    push_side(which, into)?;
    into.extend(b" narrowing: ")?;
    push_cause(fault, into)
}

/// Appends what is said of a map's fault.
fn push_map_cause(fault: MapFault, into: &mut Bytes) -> Result<(), OutOfMemory>
    ensures { OnOk result (into.new ≡ into.old ++ map_fault_text fault) }
{
    match fault {
        MapFault::Syntax(place) => push_numbered(b"Syntax at ", place, into),
        MapFault::NoSlot(slot) => push_numbered(b"NoSlot s", slot, into),
        MapFault::Twice(slot) => push_numbered(b"Twice s", slot, into),
        MapFault::Untyped(slot) => push_numbered(b"Untyped s", slot, into),
        MapFault::Unfilled(slot) => push_numbered(b"Unfilled s", slot, into),
        MapFault::OutOfMemory => Ok(()),
    }
}

/// Appends the fault of a map.
fn push_map(fault: MapFault, into: &mut Bytes) -> Result<(), OutOfMemory>
    ensures { OnOk result (into.new ≡ into.old ++ refusal_words (refusals.BadMap fault)) }
{
    into.extend(b"logfmt: map: ")?;
    push_map_cause(fault, into)
}

/// Appends the size of a format that is too large.
fn push_size(size: u64, into: &mut Bytes) -> Result<(), OutOfMemory>
    ensures { OnOk result (into.new ≡ into.old ++ refusal_words (refusals.TooLarge size)) }
{
    into.extend(b"logfmt: size ")?;
    push_number(size, into)?;
    into.extend(b" over ")?;
    push_number(MOST_SIZE, into)
}

/// Appends the record of a note line.
fn push_note(record: &Record, into: &mut Bytes) -> Result<(), OutOfMemory>
    requires { All HasJson record.now }
    ensures { OnOk result (into.new ≡ into.old ++ refusal_words (refusals.NoteLine record.now)) }
{
    into.extend(b"logfmt: note line: ")?;
    write_record(record, into)?;
    Ok(())
}

/// Appends the words of a refusal.
fn push_refusal(refusal: &Refusal, into: &mut Bytes) -> Result<(), OutOfMemory>
    requires { IsReady (commands.Refuse refusal.now) }
    ensures { OnOk result (into.new ≡ into.old ++ refusal_words refusal.now) }
{
    match refusal {
        Refusal::BadWords => into.extend(b"logfmt: bad command line"),
        Refusal::BadFormat(which, place, cause) => push_fault(*which, *place, *cause, into),
        Refusal::BadNarrowing(which, fault) => push_narrowing(*which, *fault, into),
        Refusal::BadMap(fault) => push_map(*fault, into),
        Refusal::TooLarge(size) => push_size(*size, into),
        Refusal::NoteLine(record) => push_note(record, into),
        Refusal::Confused(confusion) => push_witness(confusion, into),
    }
}

/// What is said of a refusal.
pub fn refusal_text(alloc: Global, refusal: &Refusal) -> Result<Bytes, OutOfMemory>
    requires { IsReady (commands.Refuse refusal.now) }
    ensures { IfOk result (λ text. text ≡ refusal_words refusal.now ++ 10 ∷ []) }
{
    let mut text = Bytes::new(alloc);
    push_refusal(refusal, &mut text)?;
    text.push(b'\n')?;
    Ok(text)
}

/// The status of a refusal.
pub fn refusal_status(refusal: &Refusal) -> Status
    ensures { result.0 ≡ status_of refusal.now }
{
    match refusal {
        Refusal::TooLarge(_) => Status::TOO_LARGE,
        Refusal::Confused(_) => Status::AMBIGUOUS,
        Refusal::BadWords
        | Refusal::BadFormat(_, _, _)
        | Refusal::BadNarrowing(_, _)
        | Refusal::BadMap(_)
        | Refusal::NoteLine(_) => Status::USAGE,
    }
}

/// What is said of a format that isn't readable.
pub fn witness_text(alloc: Global, confusion: &Confusion) -> Result<Bytes, OutOfMemory>
    requires { HasRecords confusion.now }
    ensures { IfOk result (λ text. text ≡ witness_words confusion.now ++ 10 ∷ []) }
{
    let mut text = Bytes::new(alloc);
    push_witness(confusion, &mut text)?;
    text.push(b'\n')?;
    Ok(text)
}

/// What is said of a readable format.
pub fn readable_text(alloc: Global, slots: u32) -> Result<Bytes, OutOfMemory>
    ensures { IfOk result (λ text. text ≡ (codes "readable " ++ decimal slots) ++ 10 ∷ []) }
{
    let mut text = Bytes::new(alloc);
    text.extend(b"readable ")?;
    push_number(slots as u64, &mut text)?;
    text.push(b'\n')?;
    Ok(text)
}
