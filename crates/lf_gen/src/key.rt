//! What the values of a slot are compared by.

ghost use Rattle.std.specs.Prelude.{◌≡◌, ◌++◌, true, All, IfOk, OnOk};
ghost use Rattle.lf_escape.specs.Codes.{coded};
ghost use Rattle.lf_escape.specs.Codings.{coding_takes, coding_word};
ghost use Rattle.lf_format.specs.Keeps.{TakesPlain};
ghost use Rattle.lf_format.specs.Kinds.{HoldsKind};
ghost use Rattle.lf_format.specs.Slots.{Holds, coded_text, in_quotes, missing_text, slot_text};
ghost use Rattle.lf_gen.specs.Compared.{key_cmp, key_of, rank as rank_of};
ghost use Rattle.lf_machine.specs.RecordOrder.{order_text as order_of};

use lf_core::{Bytes, Domain, OutOfMemory, Value};
use lf_escape::{Code, Coding};
use lf_format::{Absent, Slot};
use std::alloc::Global;
use std::cmp::Ordering;

/// What the slot prints for a value, the text by which such values are ordered, and 0 for a missing one.
#[derive(Debug, Drop)]
pub(crate) struct Key {
    line: Bytes,
    order: Bytes,
    rank: u8,
}

impl std::marker::Model for Key {
    ghost use Rattle.lf_gen.specs.Compared.{Key as TheKey};

    ghost Value = { TheKey };

    ghost view = { λ k. record { line = k.line; order = k.order; rank = k.rank } };
}

impl Key {
    /// The key of a value that the slot holds.
    pub(crate) fn of(alloc: Global, slot: &Slot, value: &Value) -> Result<Key, OutOfMemory>
        requires takes { TakesPlain slot.now.kind slot.now.code }
        requires held { Holds slot.now value.now }
        ensures { IfOk result (λ key. key ≡ key_of slot.now value.now) }
    {
        let order = order_text(alloc, slot, value)?;
        let line = line_text(alloc, slot, value, order.as_slice())?;
        Ok(Key {
            line,
            order,
            rank: rank(value),
        })
    }

    pub(crate) fn compare(&self, other: &Key) -> Ordering
        ensures { result ≡ key_cmp self.now other.now }
    {
        let by_length = self.line.len().cmp(&other.line.len());
        let by_line = by_length.then(self.line.as_slice().cmp(other.line.as_slice()));
        let by_order = self.order.as_slice().cmp(other.order.as_slice());
        by_line.then(by_order.then(self.rank.cmp(&other.rank)))
    }
}

/// 0 for a missing value, and 1 for every other.
fn rank(value: &Value) -> u8
    ensures { result ≡ rank_of value.now }
{
    match value {
        Value::Missing => 0,
        _ => 1,
    }
}

/// The text by which the slot's values are ordered.
fn order_text(alloc: Global, slot: &Slot, value: &Value) -> Result<Bytes, OutOfMemory>
    requires { Holds slot.now value.now }
    ensures { IfOk result (λ text. text ≡ order_of slot.now value.now) }
{
    let mut text = Bytes::new(alloc);
    match value {
        Value::Missing => text.extend(absence(slot.absent, false))?,
        _ => slot.kind.write_plain(value, &mut text)?,
    }
    Ok(text)
}

/// The bytes that stand for absence.
fn absence(absent: Absent, quoted: bool) -> &'static [u8]
    ensures { result.now ≡ missing_text absent quoted }
{
    match absent {
        Absent::No => b"",
        Absent::Dash | Absent::DashTwo => b"-",
        Absent::Blank => { if quoted { b"\"\"" } else { b"" } }
    }
}

/// What the slot prints for a value whose order text is known.
fn line_text(alloc: Global, slot: &Slot, value: &Value, order: &[u8]) -> Result<Bytes, OutOfMemory>
    requires takes { TakesPlain slot.now.kind slot.now.code }
    requires held { Holds slot.now value.now }
    requires order { order.now ≡ order_of slot.now value.now }
    ensures { IfOk result (λ text. text ≡ slot_text slot.now value.now) }
{
    let mut text = Bytes::new(alloc);
    match value {
        Value::Missing => text.extend(absence(slot.absent, slot.quoted))?,
        _ => add_present(slot, order, &mut text)?,
    }
    Ok(text)
}

/// Appends the coded text of a plain text, in quotes or not.
fn add_present(slot: &Slot, plain: &[u8], into: &mut Bytes) -> Result<(), OutOfMemory>
    requires { All (λ letter. coding_takes slot.now.code letter ≡ true) plain.now }
    ensures { OnOk result (into.new ≡ into.old ++ in_quotes slot.now.quoted (coded (coding_word slot.now.code) plain.now)) }
{
    if !slot.quoted {
        return add_words(slot.code, plain, into);
    }
    into.push(b'"')?;
    add_words(slot.code, plain, into)?;
    into.push(b'"')
}

/// Appends the words of the letters.
fn add_words(code: Coding, letters: &[u8], into: &mut Bytes) -> Result<(), OutOfMemory>
    requires { All (λ letter. coding_takes code letter ≡ true) letters.now }
    ensures { OnOk result (into.new ≡ into.old ++ coded (coding_word code) letters.now) }
{
    for letter in letters {
        into.extend(code.word_of(*letter).as_slice())?;
    }
    Ok(())
}
