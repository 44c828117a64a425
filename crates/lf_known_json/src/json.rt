//! Records written as JSON and read back, beside known answers.

ghost use Rattle.std.specs.Prelude.{◌≡◌, All, IfOk, IsTrue, true};
ghost use Rattle.lf_format.specs.Keeps.{KeepsSlot};
ghost use Rattle.lf_format.specs.KeptSlots.{takes_kind};
ghost use Rattle.lf_json.specs.Text.{HasJson};

use lf_core::{Bytes, Class, Moment, OutOfMemory, Record, Str, Value};
use lf_domain::{NumRange, TextSet};
use lf_format::{Absent, Coding, Format, Kind, LineEnd, Piece, Slot};
use lf_json::{BadRecord, read_record, write_record, write_text};
use lf_layout::{is_day, is_moment};
use lf_time::{ClfTime, HaTime, W3cClock, W3cDate};
use std::alloc::{AllocError, Global};
use std::process::Abort;
use std::test::Fail;

fn bytes_of(alloc: Global, text: &[u8]) -> Result<Bytes, OutOfMemory>
    ensures { IfOk result (λ bytes. bytes ≡ text.now) }
{
    let mut bytes = Bytes::new(alloc);
    bytes.extend(text)?;
    Ok(bytes)
}

/// Any number, or nothing.
fn number_slot(alloc: Global) -> Result<Slot, OutOfMemory>
    ensures { IfOk result KeepsSlot }
{
    let name = Str::of(alloc, "a")?;
    Ok(Slot {
        name,
        kind: Kind::Num(NumRange {
            lo: i64::MIN,
            hi: i64::MAX,
        }),
        code: Coding::Raw,
        absent: Absent::Blank,
        present: false,
        quoted: false,
    })
}

/// Any text.
fn text_slot(alloc: Global) -> Result<Slot, OutOfMemory>
    ensures { IfOk result KeepsSlot }
{
    let name = Str::of(alloc, "b")?;
    Ok(Slot {
        name,
        kind: Kind::Text(TextSet {
            class: Class::ANY,
            min: 0,
            max: None,
        }),
        code: Coding::ApacheHex,
        absent: Absent::No,
        present: false,
        quoted: false,
    })
}

/// The first slot, a space and the second slot.
fn joined(alloc: Global, first: Slot, second: Slot) -> Result<Format, OutOfMemory>
    requires first { KeepsSlot first }
    requires second { KeepsSlot second }
{
    let mut pieces = Vec::new(alloc);
    pieces.push(Piece::Slot(first))?;
    pieces.push(Piece::Literal(bytes_of(alloc, b" ")?))?;
    pieces.push(Piece::Slot(second))?;
    Ok(Format::new(pieces, LineEnd::Lf, false))
}

/// A number or nothing, a space, and any text.
fn pair(alloc: Global) -> Result<Format, OutOfMemory> {
    let first = number_slot(alloc)?;
    let second = text_slot(alloc)?;
    joined(alloc, first, second)
}

/// A record of a number or nothing and a text.
fn record(alloc: Global, number: Option<i64>, text: &[u8]) -> Result<Record, OutOfMemory>
    ensures { IfOk result (All HasJson) }
{
    let mut rec = Record::new(alloc);
    match number {
        Some(number) => rec.push(Value::Num(number))?,
        None => rec.push(Value::Missing)?,
    }
    rec.push(Value::Text(bytes_of(alloc, text)?))?;
    Ok(rec)
}

/// The JSON text of such a record.
fn written(alloc: Global, number: Option<i64>, text: &[u8]) -> Result<Bytes, OutOfMemory> {
    let rec = record(alloc, number, text)?;
    let mut into = Bytes::new(alloc);
    write_record(&rec, &mut into)?;
    Ok(into)
}

/// Whether the record has the number, or nothing, and the text.
fn is_pair(rec: &Record, number: Option<i64>, text: &[u8]) -> bool {
    let [first, second] = rec.as_slice() else {
        return false;
    };
    let has_number = match first {
        Value::Num(found) => number == Some(*found),
        Value::Missing => number.is_none(),
        _ => false,
    };
    let has_text = match second {
        Value::Text(found) => found.as_slice() == text,
        _ => false,
    };
    has_number && has_text
}

/// What the line is read as: its cause, or `Ok`.
fn answer(alloc: Global, line: &[u8], format: &Format) -> Result<String, AllocError> {
    match read_record(alloc, line, format) {
        Ok(_) => String::from_str(alloc, "Ok"),
        Err(bad) => format!(in alloc; "{bad:?}"),
    }
}

#[test]
fn texts_are_written(rt: HostRuntime) -> Result<(), Fail> {
    let rows: [(&[u8], &[u8]); 7] = [
        (b"", b"\"\""),
        (b"plain /\x7f", b"\"plain /\x7f\""),
        (b"\"a\\b", b"\"\\\"a\\\\b\""),
        (b"\x08\x0c\n\r\t", b"\"\\b\\f\\n\\r\\t\""),
        (b"\x00x\x1f", b"\"\\u0000x\\u001f\""),
        (b"\xc3\xa9\n", b"\"\xc3\xa9\\n\""),
        (b"\xc3\n\xff", b"{\"hex\":\"c30aff\"}"),
    ];
    for (text, json) in rows {
        let mut into = Bytes::new(rt.alloc());
        write_text(text, &mut into)?;
        assert!(rt; into.as_slice() == json);
    }
    Ok(())
}

#[test]
fn records_are_written_and_read_back(rt: HostRuntime) -> Result<(), Fail> {
    let format = pair(rt.alloc())?;
    let rows: [(Option<i64>, &[u8], &[u8]); 4] = [
        (None, b"", b"[null,\"\"]"),
        (Some(-7), b"a\"", b"[-7,\"a\\\"\"]"),
        (
            Some(i64::MAX),
            b"\xff",
            b"[9223372036854775807,{\"hex\":\"ff\"}]",
        ),
        (
            Some(i64::MIN),
            b"\x01",
            b"[-9223372036854775808,\"\\u0001\"]",
        ),
    ];
    for (number, text, json) in rows {
        let into = written(rt.alloc(), number, text)?;
        assert!(rt; into.as_slice() == json);
        let back = read_record(rt.alloc(), json, &format).ok().ok_or("unread")?;
        assert!(rt; is_pair(&back, number, text));
    }
    let mut into = Bytes::new(rt.alloc());
    write_record(&Record::new(rt.alloc()), &mut into)?;
    assert!(rt; into.as_slice() == b"[]".as_slice());
    Ok(())
}

#[test]
fn other_spellings_are_read(rt: HostRuntime) -> Result<(), Fail> {
    let format = pair(rt.alloc())?;
    let rows: [(&[u8], Option<i64>, &[u8]); 8] = [
        (b" \t[ 7 ,\r\n\"a\" ]\r ", Some(7), b"a"),
        (b"[0,\"\\u0061\\/\\u00e9\"]", Some(0), b"a/\xc3\xa9"),
        (b"[null,{\"hex\":\"\"}]", None, b""),
        (b"[1,{\"hex\":\"00fFaB\"}]", Some(1), b"\x00\xff\xab"),
        (b"[1,{\"hex\":\"61\"}]", Some(1), b"a"),
        (b"[1,{\"hex\":\"00\",\"hex\":\"61\"}]", Some(1), b"a"),
        (b"[1,{\"\\u0068ex\":\"61\"}]", Some(1), b"a"),
        (b"[-9223372036854775808,\"a\"]", Some(i64::MIN), b"a"),
    ];
    for (line, number, text) in rows {
        let rec = read_record(rt.alloc(), line, &format).ok().ok_or("unread")?;
        assert!(rt; is_pair(&rec, number, text));
    }
    Ok(())
}

#[test]
fn no_json_and_wrong_counts_are_told(rt: HostRuntime) -> Result<(), Fail> {
    let format = pair(rt.alloc())?;
    let rows: [(&[u8], &str); 13] = [
        (b"", "NotJson"),
        (b"x", "NotJson"),
        (b"7", "NotJson"),
        (b"{}", "NotJson"),
        (b"[7,\"a\"", "NotJson"),
        (b"[7,\"a\"],", "NotJson"),
        (b"[007,\"a\"]", "NotJson"),
        (b"\xef\xbb\xbf[7,\"a\"]", "NotJson"),
        (b"[7,\"\xff\"]", "NotJson"),
        (b"[1e400,\"a\"]", "NotJson"),
        (b"[]", "WrongCount(0)"),
        (b"[7]", "WrongCount(1)"),
        (b"[7,\"a\",{\"b\":1}]", "WrongCount(3)"),
    ];
    for (line, cause) in rows {
        let found = answer(rt.alloc(), line, &format)?;
        assert_eq!(rt; found.as_str(), cause);
    }
    Ok(())
}

#[test]
fn the_first_wrong_slot_is_told(rt: HostRuntime) -> Result<(), Fail> {
    let format = pair(rt.alloc())?;
    let rows: [(&[u8], &str); 17] = [
        (b"[9223372036854775808,\"a\"]", "WrongValue(1)"),
        (b"[-9223372036854775809,\"a\"]", "WrongValue(1)"),
        (b"[-0,\"a\"]", "WrongValue(1)"),
        (b"[1.0,\"a\"]", "WrongValue(1)"),
        (b"[1e2,\"a\"]", "WrongValue(1)"),
        (b"[\"7\",null]", "WrongValue(1)"),
        (b"[true,\"a\"]", "WrongValue(1)"),
        (b"[7,null]", "WrongValue(2)"),
        (b"[7,7]", "WrongValue(2)"),
        (b"[7,[\"a\"]]", "WrongValue(2)"),
        (b"[7,{}]", "WrongValue(2)"),
        (b"[7,{\"HEX\":\"61\"}]", "WrongValue(2)"),
        (b"[7,{\"hex\":\"6\"}]", "WrongValue(2)"),
        (b"[7,{\"hex\":\"6g\"}]", "WrongValue(2)"),
        (b"[7,{\"hex\":61}]", "WrongValue(2)"),
        (b"[7,{\"hex\":\"61\",\"a\":1}]", "WrongValue(2)"),
        (b"[7,{\"hex\":\"61\",\"hex\":\"6\"}]", "WrongValue(2)"),
    ];
    for (line, cause) in rows {
        let found = answer(rt.alloc(), line, &format)?;
        assert_eq!(rt; found.as_str(), cause);
    }
    Ok(())
}

/// An array in an array, so many deep.
fn nested(alloc: Global, depth: u32) -> Result<Bytes, OutOfMemory> {
    let mut line = Bytes::new(alloc);
    for _opened in 0..depth {
        line.push(b'[')?;
    }
    for _closed in 0..depth {
        line.push(b']')?;
    }
    Ok(line)
}

#[test]
fn nesting_ends_at_127(rt: HostRuntime) -> Result<(), Fail> {
    let format = pair(rt.alloc())?;
    for (depth, cause) in [(127, "WrongCount(1)"), (128, "NotJson")] {
        let line = nested(rt.alloc(), depth)?;
        let found = answer(rt.alloc(), line.as_slice(), &format)?;
        assert_eq!(rt; found.as_str(), cause);
    }
    Ok(())
}

/// Whether the value has a JSON text.
fn has_json(value: &Value) -> bool
    ensures { IsTrue result → HasJson value.now }
{
    match value {
        Value::Moment(moment) => is_moment(moment),
        Value::Day(day) => is_day(*day),
        Value::Clock(second) => *second < 86_400,
        Value::Missing | Value::Num(_) | Value::Text(_) => true,
    }
}

/// The JSON text of a record of the one value, and nothing where the value has none.
fn written_alone(alloc: Global, value: Value) -> Result<Bytes, OutOfMemory> {
    let mut into = Bytes::new(alloc);
    if has_json(&value) {
        let mut rec = Record::new(alloc);
        rec.push(value)?;
        write_record(&rec, &mut into)?;
    }
    Ok(into)
}

fn at(seconds: i64, millis: u16, offset: i16) -> Value {
    Value::Moment(Moment {
        seconds,
        millis,
        offset,
    })
}

/// The value's JSON text is the string of this text.
fn writes(rt: &impl Abort, alloc: Global, value: Value, text: &str) -> Result<(), Fail> {
    let json = format!(in alloc; "[\"{text}\"]")?;
    let into = written_alone(alloc, value)?;
    assert!(rt; into.as_slice() == json.as_bytes(), "{text}");
    Ok(())
}

#[test]
fn times_are_written(rt: HostRuntime) -> Result<(), Fail> {
    let alloc = rt.alloc();
    writes(
        &rt,
        alloc,
        at(971_186_136, 0, -420),
        "2000-10-10T13:55:36.000-07:00",
    )?;
    writes(&rt, alloc, at(0, 7, 0), "1970-01-01T00:00:00.007+00:00")?;
    writes(
        &rt,
        alloc,
        at(-1, 999, 330),
        "1969-12-31T23:59:59.999+05:30",
    )?;
    writes(
        &rt,
        alloc,
        at(951_782_400, 50, 1),
        "2000-02-29T00:00:00.050+00:01",
    )?;
    writes(
        &rt,
        alloc,
        at(-62_135_596_800, 0, -1439),
        "0001-01-01T00:00:00.000-23:59",
    )?;
    writes(
        &rt,
        alloc,
        at(253_402_300_799, 999, 1439),
        "9999-12-31T23:59:59.999+23:59",
    )?;
    writes(&rt, alloc, Value::Day(11_240), "2000-10-10")?;
    writes(&rt, alloc, Value::Day(-719_162), "0001-01-01")?;
    writes(&rt, alloc, Value::Day(2_932_896), "9999-12-31")?;
    writes(&rt, alloc, Value::Clock(0), "00:00:00")?;
    writes(&rt, alloc, Value::Clock(50_136), "13:55:36")?;
    writes(&rt, alloc, Value::Clock(86_399), "23:59:59")
}

/// A slot of the kind, or nothing.
fn plain_slot(alloc: Global, kind: Kind) -> Result<Slot, OutOfMemory>
    requires { takes_kind Coding.Raw kind ≡ true }
    ensures { IfOk result KeepsSlot }
{
    let name = Str::of(alloc, "t")?;
    Ok(Slot {
        name,
        kind,
        code: Coding::Raw,
        absent: Absent::Dash,
        present: false,
        quoted: false,
    })
}

/// Moments without milliseconds, moments without an offset, days and clocks.
fn times(alloc: Global) -> Result<Format, OutOfMemory> {
    let offset = plain_slot(alloc, Kind::Clf(ClfTime { bracketed: false }))?;
    let millis = plain_slot(alloc, Kind::Ha(HaTime))?;
    let day = plain_slot(alloc, Kind::Date(W3cDate))?;
    let clock = plain_slot(alloc, Kind::Clock(W3cClock))?;
    let mut pieces = Vec::new(alloc);
    pieces.push(Piece::Slot(offset))?;
    pieces.push(Piece::Slot(millis))?;
    pieces.push(Piece::Slot(day))?;
    pieces.push(Piece::Slot(clock))?;
    Ok(Format::new(pieces, LineEnd::Lf, false))
}

/// The JSON text of the record that the line is read as, or why it is read as none.
fn reread(alloc: Global, line: &str, format: &Format) -> Result<Bytes, Fail> {
    let mut into = Bytes::new(alloc);
    match read_record(alloc, line.as_bytes(), format) {
        Ok(rec) => write_record(&rec, &mut into)?,
        Err(bad) => {
            let cause = format!(in alloc; "{bad:?}")?;
            into.extend(cause.as_bytes())?;
        }
    }
    Ok(into)
}

/// Each row is a line, a tab and what it is read as; without a tab the line's own text.
fn check_times(rt: &impl Abort, alloc: Global, rows: &str) -> Result<(), Fail> {
    let format = times(alloc)?;
    for row in rows.lines() {
        let (line, wanted) = row.split_once('\t').unwrap_or((row, row));
        let found = reread(alloc, line, &format)?;
        assert!(rt; found.as_slice() == wanted.as_bytes(), "{line}");
    }
    Ok(())
}

#[test]
fn times_are_read_back(rt: HostRuntime) -> Result<(), Fail> {
    check_times(
        &rt,
        rt.alloc(),
        r#"["2000-10-10T13:55:36.000-07:00","2009-02-06T12:14:14.655+00:00","2000-10-10","13:55:36"]
["0001-01-01T00:00:00.000-23:59","0001-01-01T00:00:00.999+00:00","0001-01-01","00:00:00"]
["9999-12-31T23:59:59.000+23:59","9999-12-31T23:59:59.999+00:00","9999-12-31","23:59:59"]
["1969-12-31T23:59:59.000+05:30","1970-01-01T00:00:00.001+00:00","2000-02-29",null]
[null,null,"2024-02-29",null]"#,
    )
}

#[test]
fn times_are_read_in_other_spellings(rt: HostRuntime) -> Result<(), Fail> {
    let lines = [
        r#"["\u0032000-10-10T13:55:36.000\u002d07:00",null,null,null]"#,
        r#"[null,null,"2000\u002D10-10",null]"#,
        r#"[null , null , null , "13\u003A55:36"]"#,
    ];
    let wanted = [
        r#"["2000-10-10T13:55:36.000-07:00",null,null,null]"#,
        r#"[null,null,"2000-10-10",null]"#,
        r#"[null,null,null,"13:55:36"]"#,
    ];
    let format = times(rt.alloc())?;
    for (line, wanted) in lines.iter().zip(&wanted) {
        let found = reread(rt.alloc(), line, &format)?;
        assert!(rt; found.as_slice() == wanted.as_bytes(), "{line}");
    }
    Ok(())
}

/// Each row alone in the slot of the number is read as no value.
fn refuse_in_slot(rt: &impl Abort, alloc: Global, slot: u32, rows: &str) -> Result<(), Fail> {
    let format = times(alloc)?;
    let cause = format!(in alloc; "WrongValue({slot})")?;
    let (before, after) = match slot {
        1 => ("[", ",null,null,null]"),
        2 => ("[null,", ",null,null]"),
        3 => ("[null,null,", ",null]"),
        _ => ("[null,null,null,", "]"),
    };
    for row in rows.lines() {
        let line = format!(in alloc; "{before}{row}{after}")?;
        let found = reread(alloc, line.as_str(), &format)?;
        assert!(rt; found.as_slice() == cause.as_bytes(), "{line}");
    }
    Ok(())
}

#[test]
fn other_texts_are_no_moments(rt: HostRuntime) -> Result<(), Fail> {
    refuse_in_slot(
        &rt,
        rt.alloc(),
        1,
        r#"""
"0000-01-01T00:00:00.000+00:00"
"10000-01-01T00:00:00.000+00:00"
"2000-02-30T00:00:00.000+00:00"
"1900-02-29T00:00:00.000+00:00"
"2000-13-01T00:00:00.000+00:00"
"2000-10-10T24:00:00.000+00:00"
"2000-10-10T13:60:00.000+00:00"
"2000-10-10T13:55:60.000+00:00"
"2000-10-10T13:55:36.000-00:00"
"2000-10-10T13:55:36.000+24:00"
"2000-10-10T13:55:36.000-07:60"
"2000-10-10T13:55:36.000-0700"
"2000-10-10T13:55:36.000Z"
"2000-10-10T13:55:36-07:00"
"2000-10-10T13:55:36.00-07:00"
"2000-10-10 13:55:36.000-07:00"
"2000-10-10t13:55:36.000-07:00"
"2000-10-10T13:55:36.000-07:00 "
"10/Oct/2000:13:55:36 -0700"
"2000-10-10"
"2000-10-10T13:55:36.001-07:00"
971186136
{"hex":"323030302d31302d31305431333a35353a33362e3030302d30373a3030"}
["2000-10-10T13:55:36.000-07:00"]"#,
    )?;
    refuse_in_slot(
        &rt,
        rt.alloc(),
        2,
        r#""2000-10-10T13:55:36.000-07:00"
"06/Feb/2009:12:14:14.655""#,
    )
}

#[test]
fn other_texts_are_no_days_or_clocks(rt: HostRuntime) -> Result<(), Fail> {
    refuse_in_slot(
        &rt,
        rt.alloc(),
        3,
        r#""0000-01-01"
"2000-02-30"
"1900-02-29"
"2000-10-1"
" 2000-10-10"
"2000-10-10T00:00:00.000+00:00"
11240
true"#,
    )?;
    refuse_in_slot(
        &rt,
        rt.alloc(),
        4,
        r#""24:00:00"
"23:60:00"
"23:59:60"
"1:00:00"
"13:55"
"13:55:36.000"
50136
"""#,
    )
}

fn shared<T: Send + Sync>(_value: &T) {}

#[test]
fn causes_are_shared_by_threads(_rt: HostRuntime) -> Result<(), Fail> {
    shared(&BadRecord::NotJson);
    Ok(())
}
