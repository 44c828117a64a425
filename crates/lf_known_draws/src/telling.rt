//! Formats by their texts, and rows of known answers.

ghost use Rattle.lf_format.specs.Keeps.{EachKept};

use lf_core::{Bytes, OutOfMemory, Record, Value};
use lf_format::{Format, Piece};
use lf_fronts::parse;
use lf_gen::{least_value, next_record};
use lf_limits::MOST_TEXT_BYTES;
use lf_narrow::narrow;
use lf_words::Front;
use std::alloc::{AllocError, Global};
use std::process::Abort;
use std::test::Fail;

/// The format as it is spelled, or with a lone dash told from absence.
fn spelled(alloc: Global, front: Front, two: bool, format: &str) -> Result<Format, Fail> {
    if MOST_TEXT_BYTES < format.len() {
        return Err("too long".into());
    }
    let format = parse(alloc, front, format).ok().ok_or("no format")?;
    if two {
        return Ok(format.with_two());
    }
    Ok(format)
}

/// The format of the first text, with a lone dash told from absence or not, after it is narrowed by the second, if that
/// isn't empty. None where nothing is left to some slot.
pub(crate) fn format_of(
    alloc: Global,
    front: Front,
    two: bool,
    format: &str,
    narrowing: &str,
) -> Result<Option<Format>, Fail> {
    if MOST_TEXT_BYTES < narrowing.len() {
        return Err("too long".into());
    }
    let format = spelled(alloc, front, two, format)?;
    if narrowing.is_empty() {
        return Ok(Some(format));
    }
    Ok(narrow(alloc, format, narrowing).ok())
}

/// The line of the record, if the format holds it.
pub(crate) fn line_of(
    alloc: Global,
    format: &Format,
    record: &Record,
) -> Result<Option<Bytes>, OutOfMemory> {
    if !format.check_record(record) {
        return Ok(None);
    }
    let mut line = Bytes::new(alloc);
    format.write_line(record, &mut line)?;
    Ok(Some(line))
}

/// The least value of the first slot of the pieces.
pub(crate) fn first_least(alloc: Global, pieces: &[Piece]) -> Result<Option<Value>, OutOfMemory>
    requires { EachKept pieces.now }
{
    match pieces.split_first() {
        None => Ok(None),
        Some((Piece::Literal(_), rest)) => first_least(alloc, rest),
        Some((Piece::Slot(slot), _)) => Ok(Some(least_value(alloc, slot)?)),
    }
}

/// The lines of six records that are drawn from the state 7, and the state after them.
fn drawn(alloc: Global, format: &Format) -> Result<String, Fail> {
    let mut all = String::new(alloc);
    let mut state = 7;
    for number in 0..6 {
        let record = next_record(alloc, format, &mut state)?;
        let line = line_of(alloc, format, &record)?.ok_or("not held")?;
        if 0 < number {
            all.push_str(" / ")?;
        }
        all.push_str(str::from_utf8(line.as_slice()).ok().ok_or("no text")?)?;
    }
    let told = format!(in alloc; "{all} => {state}")?;
    Ok(told)
}

/// Each row is a format, an arrow, a narrowing, an arrow, lines, an arrow, and a state.
pub(crate) fn check_draws(
    rt: &impl Abort,
    alloc: Global,
    front: Front,
    rows: &str,
) -> Result<(), Fail> {
    for row in rows.lines() {
        let (text, rest) = row.split_once(" => ").ok_or("no arrow")?;
        let (narrowing, wanted) = rest.split_once(" => ").ok_or("no second arrow")?;
        let format = format_of(alloc, front, false, text, narrowing)?.ok_or("nothing left")?;
        let told = drawn(alloc, &format)?;
        assert_eq!(rt; told.as_str(), wanted, "{text} by {narrowing}");
    }
    Ok(())
}

fn value_text(alloc: Global, value: &Value) -> Result<String, AllocError> {
    match value {
        Value::Missing => String::from_str(alloc, "null"),
        Value::Num(n) => format!(in alloc; "number {n}"),
        Value::Text(text) => {
            let letters = str::from_utf8(text.as_slice()).unwrap_or("?");
            format!(in alloc; "text {letters}")
        }
        Value::Moment(moment) => {
            let (seconds, millis, offset) = (moment.seconds, moment.millis, moment.offset);
            format!(in alloc; "moment {seconds} {millis} {offset}")
        }
        Value::Day(day) => format!(in alloc; "day {day}"),
        Value::Clock(second) => format!(in alloc; "clock {second}"),
    }
}

/// The line of the least value of the format's one slot, and the value.
fn least(alloc: Global, format: &Format) -> Result<String, Fail> {
    let value = first_least(alloc, format.pieces())?.ok_or("no slot")?;
    let text = value_text(alloc, &value)?;
    let mut record = Record::new(alloc);
    record.push(value)?;
    let line = line_of(alloc, format, &record)?.ok_or("not held")?;
    let line = str::from_utf8(line.as_slice()).ok().ok_or("no text")?;
    Ok(format!(in alloc; "{line} => {text}")?)
}

/// Each row is a format of one slot, an arrow, a narrowing, an arrow, the line of the least value, an arrow, and the value.
/// A lone dash is told from absence where `two` says so.
pub(crate) fn check_least_by(
    rt: &impl Abort,
    alloc: Global,
    front: Front,
    two: bool,
    rows: &str,
) -> Result<(), Fail> {
    for row in rows.lines() {
        let (text, rest) = row.split_once(" => ").ok_or("no arrow")?;
        let (narrowing, wanted) = rest.split_once(" => ").ok_or("no second arrow")?;
        let format = format_of(alloc, front, two, text, narrowing)?.ok_or("nothing left")?;
        let told = least(alloc, &format)?;
        assert_eq!(rt; told.as_str(), wanted, "{text} by {narrowing}");
    }
    Ok(())
}

/// The same where absence and a lone dash are one value.
pub(crate) fn check_least(
    rt: &impl Abort,
    alloc: Global,
    front: Front,
    rows: &str,
) -> Result<(), Fail> {
    check_least_by(rt, alloc, front, false, rows)
}
