//! A translation as a text, and rows of known answers.

use lf_fronts::parse;
use lf_json::read_record;
use lf_limits::MOST_TEXT_BYTES;
use lf_map::{MapFault, parse_map};
use lf_translate::{Turned, translate_record};
use lf_words::Front;
use std::alloc::{AllocError, Global};
use std::process::Abort;
use std::test::Fail;

/// A format as it is spelled.
#[derive(Drop)]
pub(crate) struct Side<'a> {
    pub(crate) front: Front,
    pub(crate) text: &'a str,
}

fn fault_text(alloc: Global, fault: MapFault) -> Result<String, AllocError> {
    match fault {
        MapFault::Syntax(place) => format!(in alloc; "Syntax at {place}"),
        MapFault::NoSlot(k) => format!(in alloc; "NoSlot s{k}"),
        MapFault::Twice(k) => format!(in alloc; "Twice s{k}"),
        MapFault::Untyped(k) => format!(in alloc; "Untyped s{k}"),
        MapFault::Unfilled(k) => format!(in alloc; "Unfilled s{k}"),
        MapFault::OutOfMemory => String::from_str(alloc, "out of memory"),
    }
}

/// The line of the record of the JSON, or the slot that isn't mapped, or the fault of the map.
fn told(
    alloc: Global,
    source: &Side,
    target: &Side,
    text: &str,
    json: &str,
) -> Result<String, Fail> {
    if MOST_TEXT_BYTES < source.text.len() || MOST_TEXT_BYTES < target.text.len() {
        return Err("a format is too long".into());
    }
    if MOST_TEXT_BYTES < text.len() {
        return Err("the map is too long".into());
    }
    let from = parse(alloc, source.front, source.text)
        .ok()
        .ok_or("no source")?;
    let to = parse(alloc, target.front, target.text)
        .ok()
        .ok_or("no target")?;
    let map = match parse_map(alloc, text, &from, &to) {
        Ok(map) => map,
        Err(fault) => return Ok(fault_text(alloc, fault)?),
    };
    let rec = read_record(alloc, json.as_bytes(), &from)
        .ok()
        .ok_or("no record")?;
    match translate_record(alloc, &map, &rec)? {
        Turned::Unmapped(k) => Ok(format!(in alloc; "unmapped {k}")?),
        Turned::Line(line) => {
            let line = str::from_utf8(line.as_slice()).ok().ok_or("no text")?;
            Ok(String::from_str(alloc, line)?)
        }
    }
}

/// Each row is a map, an arrow, a record as JSON, an arrow, and what is told of the two.
pub(crate) fn check_rows(
    rt: &impl Abort,
    alloc: Global,
    source: &Side,
    target: &Side,
    rows: &str,
) -> Result<(), Fail> {
    for row in rows.lines() {
        let (text, rest) = row.split_once(" => ").ok_or("no arrow")?;
        let (json, wanted) = rest.split_once(" => ").ok_or("no second arrow")?;
        let told = told(alloc, source, target, text, json)?;
        assert_eq!(rt; told.as_str(), wanted, "{text} of {json}");
    }
    Ok(())
}

/// The place of the text's fault, or `+` where it has another or none.
fn place_text(alloc: Global, text: &str) -> Result<String, Fail> {
    if MOST_TEXT_BYTES < text.len() {
        return Err("the map is too long".into());
    }
    let from = parse(alloc, Front::Apache, "%t %r %B %h %b")
        .ok()
        .ok_or("no source")?;
    let to = parse(alloc, Front::Apache, "%r").ok().ok_or("no target")?;
    match parse_map(alloc, text, &from, &to) {
        Err(MapFault::Syntax(place)) => Ok(format!(in alloc; "{place}")?),
        Err(MapFault::OutOfMemory) => Err("out of memory".into()),
        _ => Ok(String::from_str(alloc, "+")?),
    }
}

/// The text without the bytes from a place on, or with another byte at the place.
fn edited(alloc: Global, text: &str, at: usize, other: Option<char>) -> Result<String, AllocError> {
    let mut all = String::new(alloc);
    for (i, letter) in text.chars().enumerate() {
        if i == at {
            match other {
                None => return Ok(all),
                Some(other) => all.push(other)?,
            }
        } else {
            all.push(letter)?;
        }
    }
    Ok(all)
}

/// Each row is a text, an arrow, and the places of the texts that are edited at each of its places.
pub(crate) fn check_places(
    rt: &impl Abort,
    alloc: Global,
    other: Option<char>,
    rows: &str,
) -> Result<(), Fail> {
    for row in rows.lines() {
        let (text, wanted) = row.split_once(" => ").ok_or("no arrow")?;
        for (at, wanted) in wanted.split(' ').enumerate() {
            let edited = edited(alloc, text, at, other)?;
            let place = place_text(alloc, edited.as_str())?;
            assert_eq!(rt; place.as_str(), wanted, "{edited}");
        }
    }
    Ok(())
}

/// Each row is an expression, an arrow, and what is told of it for the target's slot, on one record.
pub(crate) fn check_values(
    rt: &impl Abort,
    alloc: Global,
    target: &Side,
    rows: &str,
) -> Result<(), Fail> {
    let source = Side {
        front: Front::Apache,
        text: "%t %r %B",
    };
    let json = "[\"9999-12-31T23:30:00.000-01:00\",\"GET /a\",512]";
    for row in rows.lines() {
        let (expr, wanted) = row.split_once(" => ").ok_or("no arrow")?;
        let map = format!(in alloc; "s1={expr}")?;
        let told = told(alloc, &source, target, map.as_str(), json)?;
        assert_eq!(rt; told.as_str(), wanted, "{expr}");
    }
    Ok(())
}

/// A format with one slot of the kind of the letter.
fn slot_of(kind: char) -> Side<'static> {
    match kind {
        'd' => Side {
            front: Front::W3c,
            text: "date",
        },
        'c' => Side {
            front: Front::W3c,
            text: "time",
        },
        't' => Side {
            front: Front::Apache,
            text: "%r",
        },
        'n' => Side {
            front: Front::Apache,
            text: "%B",
        },
        _ => Side {
            front: Front::Apache,
            text: "%t",
        },
    }
}

/// Whether the map gives a slot of the target what it takes.
fn is_typed(alloc: Global, map: &str, target: &Side) -> Result<bool, Fail> {
    if MOST_TEXT_BYTES < map.len() || MOST_TEXT_BYTES < target.text.len() {
        return Err("a text is too long".into());
    }
    let from = parse(alloc, Front::W3c, "date time cs-method sc-status")
        .ok()
        .ok_or("no source")?;
    let to = parse(alloc, target.front, target.text)
        .ok()
        .ok_or("no target")?;
    match parse_map(alloc, map, &from, &to) {
        Ok(_) => Ok(true),
        Err(MapFault::Untyped(1)) => Ok(false),
        Err(_) => Err("another fault".into()),
    }
}

/// The letters of the kinds of which the expression is: day, clock, text, number, moment; or `.` for none.
fn kinds_text(alloc: Global, expr: &str) -> Result<String, Fail> {
    let map = format!(in alloc; "s1={expr}")?;
    let mut kinds = String::new(alloc);
    for kind in "dctnm".chars() {
        if is_typed(alloc, map.as_str(), &slot_of(kind))? {
            kinds.push(kind)?;
        }
    }
    if kinds.is_empty() {
        kinds.push('.')?;
    }
    Ok(kinds)
}

/// Each row is an expression with a `_`, an arrow, and of which kinds it is with each of eight expressions there.
pub(crate) fn check_kinds(rt: &impl Abort, alloc: Global, rows: &str) -> Result<(), Fail> {
    for row in rows.lines() {
        let (call, wanted) = row.split_once(" => ").ok_or("no arrow")?;
        let (front, back) = call.split_once("_").ok_or("no place")?;
        let arguments = "s1 s2 s3 s4 at(s1,s2) - 5 \"x\"".split(' ');
        for (argument, wanted) in arguments.zip(wanted.split(' ')) {
            let expr = format!(in alloc; "{front}{argument}{back}")?;
            let kinds = kinds_text(alloc, expr.as_str())?;
            assert_eq!(rt; kinds.as_str(), wanted, "{expr}");
        }
    }
    Ok(())
}
