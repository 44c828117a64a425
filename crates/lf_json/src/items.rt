//! The values that JSON values stand for.
ghost use Rattle.std.specs.Prelude.{◌≡◌, IfOk, option_and_then, option_map};
ghost use Rattle.serde_json.specs.Find.{as_object};
ghost use Rattle.serde_json.specs.View.{view};
ghost use Rattle.lf_json.specs.Reading.{bytes_of, hex_digits as digits_of, text_of, IsFound, StandsFor, StandsForPresent, StandsForValue};

use crate::times::read_time;
use hex::FromHexError;
use lf_core::{Bytes, OutOfMemory, Value};
use lf_format::{Slot, ValueKind};
use lf_time::{JsonTime, W3cClock, W3cDate};
use serde_json::Value as Json;
use std::alloc::Global;

/// The bytes as a list of their own.
fn copy_of(alloc: Global, bytes: &[u8]) -> Result<Bytes, OutOfMemory>
    ensures { IfOk result (λ copy. copy ≡ bytes.now) }
{
    let mut copy = Bytes::new(alloc);
    copy.extend(bytes)?;
    Ok(copy)
}

/// The bytes that the hexadecimal digits spell.
fn decode(alloc: Global, digits: &str) -> Result<Option<Bytes>, OutOfMemory>
    ensures { IfOk result (λ found. found ≡ bytes_of digits.now) }
{
    match hex::decode(alloc, digits) {
        Ok(bytes) => Ok(Some(copy_of(alloc, bytes.as_slice())?)),
        Err(FromHexError::OutOfMemory) => Err(OutOfMemory),
        Err(_) => Ok(None),
    }
}

/// The string of an object's one member, where its key is `hex`.
fn hex_digits(json: &Json) -> Option<&str>
    ensures { option_map (λ digits. digits.now) result ≡ option_and_then digits_of (as_object (view json.now)) }
{
    let object = json.as_object()?;
    if object.len() != 1 {
        return None;
    }
    json.get("hex")?.as_str()
}

/// The text of a string, or of an object with hexadecimal digits.
fn read_text(alloc: Global, json: &Json) -> Result<Option<Bytes>, OutOfMemory>
    ensures { IfOk result (λ found. found ≡ text_of (view json.now)) }
{
    if let Some(text) = json.as_str() {
        return Ok(Some(copy_of(alloc, text.as_bytes())?));
    }
    let Some(digits) = hex_digits(json) else {
        return Ok(None);
    };
    decode(alloc, digits)
}

/// The value of the kind that the JSON value stands for, where that isn't `Missing`.
fn read_present(alloc: Global, kind: ValueKind, json: &Json) -> Result<Option<Value>, OutOfMemory>
    ensures { IfOk result (IsFound (StandsForPresent kind (view json.now))) }
{
    match kind {
        ValueKind::Number => return Ok(json.as_i64().map(Value::Num)),
        ValueKind::Text => return Ok(read_text(alloc, json)?.map(Value::Text)),
        ValueKind::Moment => return read_time(alloc, &JsonTime, json),
        ValueKind::Day => return read_time(alloc, &W3cDate, json),
        ValueKind::Clock => return read_time(alloc, &W3cClock, json),
    }
}

/// The value of the kind that the JSON value stands for.
fn read_value(alloc: Global, kind: ValueKind, json: &Json) -> Result<Option<Value>, OutOfMemory>
    ensures { IfOk result (IsFound (StandsForValue kind (view json.now))) }
{
    if json.is_null() {
        return Ok(Some(Value::Missing));
    }
    read_present(alloc, kind, json)
}

/// The value of the slot that the JSON value stands for.
pub(crate) fn read_item(
    alloc: Global,
    slot: &Slot,
    json: &Json,
) -> Result<Option<Value>, OutOfMemory>
    ensures { IfOk result (IsFound (StandsFor slot.now (view json.now))) }
{
    let Some(value) = read_value(alloc, slot.kind.value_kind(), json)? else {
        return Ok(None);
    };
    if slot.holds(&value) {
        Ok(Some(value))
    } else {
        Ok(None)
    }
}
