//! What is drawn for each kind of slot.

ghost use Rattle.std.specs.Prelude.{◌≡◌, ◌≢◌, [], ◌+◌, ◌%◌, ◌≤◌, ◌++◌, if◌then◌else◌, ℤ, ◌≤ℤ◌, ◌+ℤ◌, ◌-ℤ◌, pos, unsigned_abs, IfOk, OnOk};
ghost use Rattle.lf_limits.specs.Limits.{most_length};
ghost use Rattle.std.specs.Option.{ForSome};
ghost use Rattle.lf_core.specs.Class.{members};
ghost use Rattle.lf_core.specs.declared.values.Value.TheVariants as Value;
ghost use Rattle.lf_format.specs.declared.kind.Kind.TheVariants as Kind;
ghost use Rattle.lf_gen.specs.Draws.{candidate as candidate_of, draws, drawn_clock, drawn_day, drawn_length, drawn_letters, drawn_moment, drawn_number, drawn_offset, drawn_query, drawn_seconds, drawn_text, drawn_word, letter_draws, next_state, one_if, query_draws, span as span_of, state_after, state_if, draw as drawn};

use crate::draws::draw;
use lf_core::{Bytes, Class, Moment, OutOfMemory, Value};
use lf_domain::{TextSet, WordList};
use lf_format::Kind;
use std::alloc::Global;

/// How many numbers may be drawn.
fn span(lo: i64, hi: i64) -> u64
    ensures value { result ≡ span_of lo hi }
    ensures some { 1 ≤ result }
    ensures most { result ≤ 1000000 }
    ensures within { result ≤ unsigned_abs (hi -ℤ lo) + 1 }
{
    hi.abs_diff(lo).min(999_999) + 1
}

/// A number from `lo` on, and none where `hi` is below it.
fn draw_number(lo: i64, hi: i64, state: &mut u64) -> Option<Value>
    ensures value { result ≡ drawn_number lo hi state.old }
    ensures state { state.new ≡ next_state state.old }
{
    let number = draw(state) as u64;
    if lo > hi {
        return None;
    }
    Some(Value::Num(lo + (number % span(lo, hi)) as i64))
}

/// A word of the list, and none where there is none.
fn draw_word(alloc: Global, words: &WordList, state: &mut u64) -> Result<Option<Value>, OutOfMemory>
    ensures value { IfOk result (λ value. value ≡ drawn_word words.now state.old) }
    ensures state { OnOk result (state.new ≡ next_state state.old) }
{
    let number = draw(state) as usize;
    if words.is_empty() {
        return Ok(None);
    }
    let mut text = Bytes::new(alloc);
    text.extend(words.get(number % words.len()))?;
    Ok(Some(Value::Text(text)))
}

/// The length of a text.
fn draw_length(min: u32, max: Option<u32>, state: &mut u64) -> u32
    requires { min ≤ most_length }
    ensures value { result ≡ drawn_length min max state.old }
    ensures state { state.new ≡ next_state state.old }
{
    let length = min + draw(state) % 8;
    match max {
        Some(most) => length.min(most),
        None => length,
    }
}

/// Appends so many letters of the class.
fn add_letters(
    class: Class,
    count: u32,
    state: &mut u64,
    into: &mut Bytes,
) -> Result<(), OutOfMemory>
    requires { members class ≢ [] }
    ensures letters { OnOk result (into.new ≡ into.old ++ drawn_letters class count state.old) }
    ensures state { OnOk result (state.new ≡ state_after count state.old) }
{
    let members = class.count();
    for _ in 0..count {
        into.push(class.nth(draw(state) % members))?;
    }
    Ok(())
}

/// Appends a text of the class: its length is drawn first, and then its letters.
fn add_text(
    class: Class,
    min: u32,
    max: Option<u32>,
    state: &mut u64,
    into: &mut Bytes,
) -> Result<(), OutOfMemory>
    requires { min ≤ most_length }
    ensures text { OnOk result (into.new ≡ into.old ++ drawn_text class min max state.old) }
    ensures state { OnOk result (state.new ≡ state_after (letter_draws class min max state.old + 1) state.old) }
{
    let length = draw_length(min, max, state);
    if class.is_empty() {
        return Ok(());
    }
    add_letters(class, length, state, into)
}

/// A text of the set.
fn draw_text(alloc: Global, set: TextSet, state: &mut u64) -> Result<Option<Value>, OutOfMemory>
    ensures value { IfOk result (λ value. value ≡ candidate_of (Kind.Text set) state.old) }
    ensures state { OnOk result (state.new ≡ state_after (draws (Kind.Text set) state.old) state.old) }
{
    let mut text = Bytes::new(alloc);
    add_text(set.class, set.min, set.max, state, &mut text)?;
    Ok(Some(Value::Text(text)))
}

/// Nothing, or a question mark and a text of the class.
fn draw_query(alloc: Global, class: Class, state: &mut u64) -> Result<Bytes, OutOfMemory>
    ensures text { IfOk result (λ text. text ≡ drawn_query class state.old) }
    ensures state { OnOk result (state.new ≡ state_after (query_draws class state.old) state.old) }
{
    let mut text = Bytes::new(alloc);
    if draw(state) % 2 == 0 {
        return Ok(text);
    }
    text.push(b'?')?;
    add_text(class, 0, None, state, &mut text)?;
    Ok(text)
}

/// A second of the thirty years from 2000 on.
fn draw_seconds(state: &mut u64) -> i64
    ensures value { result ≡ drawn_seconds state.old }
    ensures state { state.new ≡ next_state state.old }
{
    946_684_800 + (draw(state) % 946_080_000) as i64
}

/// Milliseconds, where they are written.
fn draw_millis(written: bool, state: &mut u64) -> u16
    ensures value { result ≡ (if written then drawn state.old % 1000 else 0) }
    ensures state { state.new ≡ state_if written state.old }
{
    if !written {
        return 0;
    }
    (draw(state) % 1000) as u16
}

/// An offset of whole hours, in minutes, where it is written.
fn draw_offset(written: bool, state: &mut u64) -> i16
    ensures value { result ≡ (if written then drawn_offset state.old else pos 0) }
    ensures state { state.new ≡ state_if written state.old }
{
    if !written {
        return 0;
    }
    ((draw(state) % 47) as i16 - 23) * 60
}

/// A moment, with milliseconds and an offset where these are written.
fn draw_moment(millis: bool, offset: bool, state: &mut u64) -> Value
    ensures value { result ≡ Value.Moment (drawn_moment millis offset state.old) }
    ensures state { state.new ≡ state_after (one_if offset + one_if millis + 1) state.old }
{
    let seconds = draw_seconds(state);
    let millis = draw_millis(millis, state);
    let offset = draw_offset(offset, state);
    Value::Moment(Moment {
        seconds,
        millis,
        offset,
    })
}

/// A day of the thirty years from 2000 on.
fn draw_day(state: &mut u64) -> Value
    ensures value { result ≡ Value.Day (drawn_day state.old) }
    ensures state { state.new ≡ next_state state.old }
{
    Value::Day(10_957 + (draw(state) % 10_950) as i32)
}

/// A second of the day.
fn draw_clock(state: &mut u64) -> Value
    ensures value { result ≡ Value.Clock (drawn_clock state.old) }
    ensures state { state.new ≡ next_state state.old }
{
    Value::Clock(draw(state) % 86_400)
}

/// The candidate that is drawn for the kind, if there is one.
pub(crate) fn candidate(
    alloc: Global,
    kind: &Kind,
    state: &mut u64,
) -> Result<Option<Value>, OutOfMemory>
    ensures value { IfOk result (λ value. value ≡ candidate_of kind.now state.old) }
    ensures state { OnOk result (state.new ≡ state_after (draws kind.now state.old) state.old) }
{
    match kind {
        Kind::Num(d) => Ok(draw_number(d.lo, d.hi, state)),
        Kind::DashZero(d) => Ok(draw_number(d.lo, d.hi, state)),
        Kind::Fixed3(d) => Ok(draw_number(d.lo, d.hi, state)),
        Kind::Padded(d) => Ok(draw_number(d.lo, d.hi, state)),
        Kind::Words(d) => draw_word(alloc, &d.list, state),
        Kind::Text(d) => draw_text(alloc, *d, state),
        Kind::Query(d) => Ok(Some(Value::Text(draw_query(alloc, d.class, state)?))),
        Kind::Clf(_) | Kind::Iso(_) => Ok(Some(draw_moment(false, true, state))),
        Kind::IsoMillis(_) | Kind::Ha(_) => Ok(Some(draw_moment(true, false, state))),
        Kind::Date(_) => Ok(Some(draw_day(state))),
        Kind::Clock(_) => Ok(Some(draw_clock(state))),
    }
}
