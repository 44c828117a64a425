//! Values of a slot of which one is its least.

ghost use Rattle.std.specs.Prelude.{◌≡◌, ◌∷◌, [], map, max, neg_ℤ, pos, IfOk};
ghost use Rattle.lf_core.specs.declared.values.Value.TheVariants as Value;
ghost use Rattle.lf_format.specs.declared.kind.Kind.TheVariants as Kind;
ghost use Rattle.lf_format.specs.Keeps.{TakesPlain};
ghost use Rattle.lf_gen.specs.Compared.{AreEnough};
ghost use Rattle.lf_gen.specs.First.{AreFirst, nearest as nearest_of, number_values as numbers_of};
ghost use Rattle.lf_gen.specs.Letters.{repeated as repeated_text};

use crate::letters::least_letter;
use lf_core::{Bytes, Moment, OutOfMemory, Value};
use lf_domain::{TextSet, WordList};
use lf_escape::Coding;
use lf_format::{Kind, Slot};
use std::alloc::Global;

/// The day 0001-01-01.
const FIRST_DAY: i32 = -719_162;

/// The seconds of 0001-01-01T00:00:00, whose text is the least that begins with the year.
const FIRST_SECONDS: i64 = -62_135_596_800;

/// The seconds of 01/Apr/0001:00:00:00, whose text is the least that begins with the day.
const FIRST_NAMED_SECONDS: i64 = -62_127_820_800;

/// Values of which one is the least that the slot holds, if it holds any.
pub(crate) fn enough_values(alloc: Global, slot: &Slot) -> Result<Vec<Value>, OutOfMemory>
    requires { TakesPlain slot.now.kind slot.now.code }
    ensures { IfOk result (λ values. AreEnough slot.now values.items) }
{
    let mut values = first_values(alloc, slot.code, &slot.kind)?;
    values.push(Value::Missing)?;
    Ok(values)
}

/// Values of the domain of which one is printed first, whatever is taken for absence.
fn first_values(alloc: Global, code: Coding, kind: &Kind) -> Result<Vec<Value>, OutOfMemory>
    requires { TakesPlain kind.now code }
    ensures { IfOk result (λ values. AreFirst kind.now code values.items) }
{
    match kind {
        Kind::Num(d) => number_values(alloc, d.lo, d.hi),
        Kind::DashZero(d) => number_values(alloc, d.lo, d.hi),
        Kind::Fixed3(d) => number_values(alloc, d.lo, d.hi),
        Kind::Padded(d) => number_values(alloc, d.lo, d.hi),
        Kind::Words(d) => word_values(alloc, &d.list),
        Kind::Text(d) => text_values(alloc, code, *d),
        Kind::Query(_) => query_values(alloc),
        Kind::Clf(_) => one_value(alloc, moment(FIRST_NAMED_SECONDS)),
        Kind::Ha(_) => one_value(alloc, moment(FIRST_NAMED_SECONDS)),
        Kind::Iso(_) => one_value(alloc, moment(FIRST_SECONDS)),
        Kind::IsoMillis(_) => one_value(alloc, moment(FIRST_SECONDS)),
        Kind::Date(_) => one_value(alloc, Value::Day(FIRST_DAY)),
        Kind::Clock(_) => one_value(alloc, Value::Clock(0)),
    }
}

fn one_value(alloc: Global, value: Value) -> Result<Vec<Value>, OutOfMemory>
    ensures { IfOk result (λ values. values.items ≡ value ∷ []) }
{
    let mut values = Vec::new(alloc);
    values.push(value)?;
    Ok(values)
}

/// The moment of these seconds, without milliseconds and offset.
fn moment(seconds: i64) -> Value
    ensures { result ≡ Value.Moment (record { seconds = seconds; millis = 0; offset = pos 0 }) }
{
    Value::Moment(Moment {
        seconds,
        millis: 0,
        offset: 0,
    })
}

/// The number nearest to zero of those from `lo` to `hi`, where there is one.
fn nearest(lo: i64, hi: i64) -> i64
    ensures { result ≡ nearest_of lo hi }
{
    if lo >= 0 {
        return lo;
    }
    if hi >= 0 {
        return 0;
    }
    hi
}

/// The number nearest to zero, and one, where zero may be taken for absence.
fn number_values(alloc: Global, lo: i64, hi: i64) -> Result<Vec<Value>, OutOfMemory>
    ensures { IfOk result (λ values. values.items ≡ numbers_of lo hi) }
{
    let mut values = one_value(alloc, Value::Num(nearest(lo, hi)))?;
    values.push(Value::Num(1))?;
    Ok(values)
}

/// Every word of the list.
fn word_values(alloc: Global, words: &WordList) -> Result<Vec<Value>, OutOfMemory>
    ensures { IfOk result (λ values. values.items ≡ map Value.Text words.now) }
{
    let mut values = Vec::new(alloc);
    for word in words.as_slice() {
        values.push(Value::Text(word.copy()?))?;
    }
    Ok(values)
}

/// The letter so many times, and nothing where there is no letter.
fn repeated(alloc: Global, letter: Option<u8>, count: u32) -> Result<Value, OutOfMemory>
    ensures { IfOk result (λ value. value ≡ Value.Text (repeated_text letter count)) }
{
    let mut text = Bytes::new(alloc);
    let Some(letter) = letter else {
        return Ok(Value::Text(text));
    };
    for _ in 0..count {
        text.push(letter)?;
    }
    Ok(Value::Text(text))
}

/// The empty text, and the least letter as few times as the set allows: where this is a dash, which may be
/// taken for absence, the least other letter, and the dash twice.
fn text_values(alloc: Global, code: Coding, set: TextSet) -> Result<Vec<Value>, OutOfMemory>
    requires { TakesPlain (Kind.Text set) code }
    ensures { IfOk result (λ values. AreFirst (Kind.Text set) code values.items) }
{
    let least = least_letter(code, set.class);
    let other = least_letter(code, set.class.without(b'-'));
    let mut values = one_value(alloc, Value::Text(Bytes::new(alloc)))?;
    values.push(repeated(alloc, other, set.min.max(1))?)?;
    values.push(repeated(alloc, least, set.min.max(1))?)?;
    values.push(repeated(alloc, least, set.min.max(2))?)?;
    Ok(values)
}

/// The empty text, and the question mark alone.
fn query_values(alloc: Global) -> Result<Vec<Value>, OutOfMemory>
    ensures { IfOk result (λ values. values.items ≡ Value.Text [] ∷ Value.Text (63 ∷ []) ∷ []) }
{
    let mut values = one_value(alloc, Value::Text(Bytes::new(alloc)))?;
    values.push(repeated(alloc, Some(b'?'), 1)?)?;
    Ok(values)
}
