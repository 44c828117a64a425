//! Records written as JSON.
ghost use Rattle.std.specs.Prelude.{◌≡◌, ◌++◌, All, OnOk, OnErr};
ghost use Rattle.std.specs.Str.{is_utf8};
ghost use Rattle.hex.specs.Hex.{encode_lower};
ghost use Rattle.lf_core.specs.Adds.{AddsFront};
ghost use Rattle.lf_number.specs.Numbers.{number_text};
ghost use Rattle.lf_json.specs.Text.{HasJson, hex_object, json_string, json_text, others_text, text_json, value_json};

use crate::letters::{write_digits, write_letters};
use crate::times::write_time;
use itoa::Buffer;
use lf_core::{Bytes, OutOfMemory, Record, Value};
use lf_time::{JsonTime, W3cClock, W3cDate};
use std::str;

/// Appends a text of UTF-8 as a string.
fn write_string(text: &[u8], into: &mut Bytes) -> Result<(), OutOfMemory>
    ensures ok { OnOk result (into.new ≡ into.old ++ json_string text.now) }
    ensures err { OnErr result (AddsFront into.old into.new (json_string text.now)) }
{
    into.push(b'"')?;
    write_letters(text, into)?;
    into.push(b'"')
}

/// Appends each byte as two hexadecimal digits.
fn write_all_digits(bytes: &[u8], into: &mut Bytes) -> Result<(), OutOfMemory>
    ensures ok { OnOk result (into.new ≡ into.old ++ encode_lower bytes.now) }
    ensures err { OnErr result (AddsFront into.old into.new (encode_lower bytes.now)) }
{
    for byte in bytes {
        write_digits(*byte, into)?;
    }
    Ok(())
}

/// Appends bytes as an object with their hexadecimal digits.
fn write_hex_object(bytes: &[u8], into: &mut Bytes) -> Result<(), OutOfMemory>
    ensures ok { OnOk result (into.new ≡ into.old ++ hex_object bytes.now) }
    ensures err { OnErr result (AddsFront into.old into.new (hex_object bytes.now)) }
{
    into.extend(b"{\"hex\":\"")?;
    write_all_digits(bytes, into)?;
    into.extend(b"\"}")
}

/// Whether the bytes are UTF-8.
fn is_text(bytes: &[u8]) -> bool
    ensures { result ≡ is_utf8 bytes.now }
{
    str::from_utf8(bytes).is_ok()
}

/// Appends the JSON text of a `Text` of these bytes.
pub fn write_text(text: &[u8], into: &mut Bytes) -> Result<(), OutOfMemory>
    ensures ok { OnOk result (into.new ≡ into.old ++ text_json text.now) }
    ensures err { OnErr result (AddsFront into.old into.new (text_json text.now)) }
{
    if is_text(text) {
        return write_string(text, into);
    }
    write_hex_object(text, into)
}

fn write_number(number: i64, into: &mut Bytes) -> Result<(), OutOfMemory>
    ensures ok { OnOk result (into.new ≡ into.old ++ number_text number) }
    ensures err { OnErr result (into.new ≡ into.old) }
{
    let mut buffer = Buffer::new();
    into.extend(buffer.format(number).as_bytes())
}

fn write_value(value: &Value, into: &mut Bytes) -> Result<(), OutOfMemory>
    requires { HasJson value.now }
    ensures ok { OnOk result (into.new ≡ into.old ++ value_json value.now) }
    ensures err { OnErr result (AddsFront into.old into.new (value_json value.now)) }
{
    match value {
        Value::Missing => into.extend(b"null"),
        Value::Num(number) => write_number(*number, into),
        Value::Text(text) => write_text(text.as_slice(), into),
        Value::Moment(_) => write_time(&JsonTime, value, into),
        Value::Day(_) => write_time(&W3cDate, value, into),
        Value::Clock(_) => write_time(&W3cClock, value, into),
    }
}

/// Appends a comma and a value's JSON text for each value.
fn write_others(values: &[Value], into: &mut Bytes) -> Result<(), OutOfMemory>
    requires { All HasJson values.now }
    ensures ok { OnOk result (into.new ≡ into.old ++ others_text values.now) }
    ensures err { OnErr result (AddsFront into.old into.new (others_text values.now)) }
{
    for value in values {
        into.push(b',')?;
        write_value(value, into)?;
    }
    Ok(())
}

/// Appends the JSON text of a record.
pub fn write_record(rec: &Record, into: &mut Bytes) -> Result<(), OutOfMemory>
    requires { All HasJson rec.now }
    ensures ok { OnOk result (into.new ≡ into.old ++ json_text rec.now) }
    ensures err { OnErr result (AddsFront into.old into.new (json_text rec.now)) }
{
    into.push(b'[')?;
    if let Some((first, others)) = rec.as_slice().split_first() {
        write_value(first, into)?;
        write_others(others, into)?;
    }
    into.push(b']')
}
