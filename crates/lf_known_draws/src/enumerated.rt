//! Least values of small slots of texts, beside an enumeration of all texts of up to four letters.

use crate::telling::{first_least, format_of, line_of};
use lf_core::{Bytes, OutOfMemory, Record, Value};
use lf_format::Format;
use lf_words::Front;
use std::alloc::Global;
use std::process::Abort;
use std::test::Fail;

/// What a value is compared by: what is printed, and then its text; a missing one first.
#[derive(Debug, Drop)]
struct Printed {
    line: Bytes,
    text: Bytes,
    missing: bool,
}

fn print_of(alloc: Global, format: &Format, value: Value) -> Result<Option<Printed>, OutOfMemory> {
    let mut text = Bytes::new(alloc);
    let missing = match &value {
        Value::Text(letters) => {
            text.extend(letters.as_slice())?;
            false
        }
        _ => true,
    };
    let mut record = Record::new(alloc);
    record.push(value)?;
    let Some(line) = line_of(alloc, format, &record)? else {
        return Ok(None);
    };
    Ok(Some(Printed {
        line,
        text,
        missing,
    }))
}

fn is_less(one: &Printed, other: &Printed) -> bool {
    let by_length = one.line.len().cmp(&other.line.len());
    let by_line = by_length.then(one.line.as_slice().cmp(other.line.as_slice()));
    let by_text = one.text.as_slice().cmp(other.text.as_slice());
    by_line
        .then(other.missing.cmp(&one.missing))
        .then(by_text)
        .is_lt()
}

fn lesser(least: Option<Printed>, next: Option<Printed>) -> Option<Printed> {
    match (least, next) {
        (Some(one), Some(other)) => if is_less(&other, &one) {
            Some(other)
        } else {
            Some(one)
        },
        (None, next) => next,
        (least, None) => least,
    }
}

/// The least of the texts that begin so, with at most so many letters more.
fn least_from(
    alloc: Global,
    format: &Format,
    letters: &[u8],
    begun: &[u8],
    more: u8,
    least: Option<Printed>,
) -> Result<Option<Printed>, OutOfMemory> {
    let mut text = Bytes::new(alloc);
    text.extend(begun)?;
    let mut least = lesser(least, print_of(alloc, format, Value::Text(text))?);
    if more == 0 {
        return Ok(least);
    }
    for letter in letters {
        let mut longer = Bytes::new(alloc);
        longer.extend(begun)?;
        longer.push(*letter)?;
        least = least_from(alloc, format, letters, longer.as_slice(), more - 1, least)?;
    }
    Ok(least)
}

/// Letters, as a narrowing writes them and as they are.
const LETTERS: [(&str, &str); 9] = [
    ("\\x2d", "-"),
    ("a\\x2d", "a-"),
    ("\\x2d\\x22", "-\""),
    ("+ ", "+ "),
    ("\\x2d\\x01", "-\u{1}"),
    ("\\x22]", "\"]"),
    ("z~", "z~"),
    ("!\\x2d", "!-"),
    ("#\\x0a", "#\n"),
];

/// How long a text is, and whether it is there.
const BOUNDS: [&str; 8] = [
    "",
    ";s1:len 1..1",
    ";s1:len 1..2",
    ";s1:len 2..3",
    ";s1:present",
    ";s1:len 1..1;s1:present",
    ";s1:len 1..2;s1:present",
    ";s1:len 2..3;s1:present",
];

fn check_format(
    rt: &impl Abort,
    alloc: Global,
    format: &Format,
    letters: &str,
    name: &str,
) -> Result<(), Fail> {
    let value = first_least(alloc, format.pieces())?.ok_or("no slot")?;
    let missing = print_of(alloc, format, Value::Missing)?;
    let wanted = least_from(alloc, format, letters.as_bytes(), b"", 4, missing)?.ok_or("no value")?;
    let found = print_of(alloc, format, value)?.ok_or("not held")?;
    let is_line = found.line.as_slice() == wanted.line.as_slice();
    let is_text = found.text.as_slice() == wanted.text.as_slice();
    let is_least = is_line && is_text && found.missing == wanted.missing;
    assert!(rt; is_least, "{name}");
    Ok(())
}

/// Each row is a format of one slot of texts. A lone dash is told from absence where `two` says so.
fn check_slots_by(
    rt: &impl Abort,
    alloc: Global,
    front: Front,
    two: bool,
    rows: &str,
) -> Result<(), Fail> {
    for text in rows.lines() {
        for (spelled, letters) in LETTERS {
            for bounds in BOUNDS {
                let narrowing = format!(in alloc; "s1:only {spelled}{bounds}")?;
                if let Some(format) = format_of(alloc, front, two, text, narrowing.as_str())? {
                    let name = format!(in alloc; "{text} by {narrowing}")?;
                    check_format(rt, alloc, &format, letters, name.as_str())?;
                }
            }
        }
    }
    Ok(())
}

fn check_slots(rt: &impl Abort, alloc: Global, front: Front, rows: &str) -> Result<(), Fail> {
    check_slots_by(rt, alloc, front, false, rows)
}

#[test]
fn slots_where_a_lone_dash_is_a_value(rt: HostRuntime) -> Result<(), Fail> {
    check_slots_by(&rt, rt.alloc(), Front::Apache, true, "%r\n%h\n%f")?;
    check_slots_by(&rt, rt.alloc(), Front::Envoy, true, "%REQ(A)%\n%REQ(A):2%")?;
    check_slots_by(&rt, rt.alloc(), Front::W3c, true, "cs(A)")
}

#[test]
fn slots_of_apache(rt: HostRuntime) -> Result<(), Fail> {
    check_slots(&rt, rt.alloc(), Front::Apache, "%r\n%h\n%f")
}

#[test]
fn slots_of_nginx(rt: HostRuntime) -> Result<(), Fail> {
    check_slots(&rt, rt.alloc(), Front::Nginx, "$request\n$server_name")
}

#[test]
fn slots_of_nginx_json(rt: HostRuntime) -> Result<(), Fail> {
    check_slots(&rt, rt.alloc(), Front::NginxJson, "$request")
}

#[test]
fn slots_of_nginx_none(rt: HostRuntime) -> Result<(), Fail> {
    check_slots(&rt, rt.alloc(), Front::NginxNone, "$request")
}

#[test]
fn slots_of_haproxy(rt: HostRuntime) -> Result<(), Fail> {
    check_slots(
        &rt,
        rt.alloc(),
        Front::Haproxy,
        "%r
%{+Q}r
%{+E}r
%{+Q,+E}r
%hr
%CC",
    )
}

#[test]
fn slots_of_envoy(rt: HostRuntime) -> Result<(), Fail> {
    check_slots(&rt, rt.alloc(), Front::Envoy, "%REQ(A)%\n%REQ(A):2%")
}

#[test]
fn slots_of_w3c(rt: HostRuntime) -> Result<(), Fail> {
    check_slots(&rt, rt.alloc(), Front::W3c, "cs(A)")
}

#[test]
fn slots_of_iis(rt: HostRuntime) -> Result<(), Fail> {
    check_slots(&rt, rt.alloc(), Front::Iis, "cs(A)\ncs-uri-stem")
}
