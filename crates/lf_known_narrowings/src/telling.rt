//! The slots of a format as a text, and rows of known answers.

use lf_core::Class;
use lf_domain::Radix;
use lf_format::{Format, Kind, Piece, Slot};
use lf_fronts::parse;
use lf_limits::MOST_TEXT_BYTES;
use lf_narrow::{NarrowFault, narrow};
use lf_words::Front;
use std::alloc::{AllocError, Global};
use std::process::Abort;
use std::test::Fail;

fn class_name(class: Class) -> Option<&'static str> {
    let named = [
        (Class::ANY, "any"),
        (Class::HEADER, "header"),
        (Class::VISIBLE, "visible"),
        (Class::WORD, "word"),
        (Class::SPACED, "spaced"),
        (Class::NO_SPACE, "nospace"),
        (Class::IIS_WORD, "iisword"),
        (Class::COUNTS, "counts"),
        (Class::DECIMAL, "decimal"),
    ];
    for (other, name) in named {
        if class == other {
            return Some(name);
        }
    }
    None
}

/// The class's name, or its ranges between braces.
fn class_text(alloc: Global, class: Class) -> Result<String, AllocError> {
    if let Some(name) = class_name(class) {
        return String::from_str(alloc, name);
    }
    let mut all = String::from_str(alloc, "{")?;
    let mut first: Option<u16> = None;
    for byte in 0..257u16 {
        let inside = byte < 256 && class.has(byte as u8);
        match first {
            None => {
                if inside {
                    first = Some(byte);
                }
            }
            Some(low) => {
                if !inside {
                    let comma = if all.as_str() == "{" { "" } else { "," };
                    let high = byte.saturating_sub(1);
                    let range = format!(in alloc; "{comma}{low:02x}-{high:02x}")?;
                    all.push_str(range.as_str())?;
                    first = None;
                }
            }
        }
    }
    all.push_str("}")?;
    Ok(all)
}

/// A kind in a few words: numbers and lengths as `least..most`.
fn kind_text(alloc: Global, kind: &Kind) -> Result<String, AllocError> {
    match kind {
        Kind::Text(set) => {
            let name = class_text(alloc, set.class)?;
            let min = set.min;
            match set.max {
                None => format!(in alloc; "{name} {min}.."),
                Some(max) => format!(in alloc; "{name} {min}..{max}"),
            }
        }
        Kind::Query(query) => {
            let name = class_text(alloc, query.class)?;
            format!(in alloc; "query {name}")
        }
        Kind::Num(range) => {
            let (lo, hi) = (range.lo, range.hi);
            format!(in alloc; "{lo}..{hi}")
        }
        Kind::DashZero(range) => {
            let (lo, hi) = (range.lo, range.hi);
            format!(in alloc; "dash {lo}..{hi}")
        }
        Kind::Fixed3(range) => {
            let (lo, hi) = (range.lo, range.hi);
            format!(in alloc; "fixed {lo}..{hi}")
        }
        Kind::Padded(range) => {
            let radix = match range.radix {
                Radix::Ten => 10,
                Radix::Sixteen => 16,
            };
            let (width, lo, hi) = (range.width, range.lo, range.hi);
            format!(in alloc; "padded{radix} {width} {lo}..{hi}")
        }
        Kind::Words(_) => String::from_str(alloc, "words"),
        _ => String::from_str(alloc, "time"),
    }
}

fn slot_text(alloc: Global, slot: &Slot) -> Result<String, AllocError> {
    let kind = kind_text(alloc, &slot.kind)?;
    let present = if slot.present { " present" } else { "" };
    format!(in alloc; "[{kind}{present}]")
}

/// The slots of a format, with a space between them.
fn slots_text(alloc: Global, format: &Format) -> Result<String, AllocError> {
    let mut all = String::new(alloc);
    for piece in format.pieces() {
        if let Piece::Slot(slot) = piece {
            if !all.as_str().is_empty() {
                all.push_str(" ")?;
            }
            let text = slot_text(alloc, slot)?;
            all.push_str(text.as_str())?;
        }
    }
    Ok(all)
}

fn fault_text(alloc: Global, fault: NarrowFault) -> Result<String, AllocError> {
    match fault {
        NarrowFault::Syntax(place) => format!(in alloc; "Syntax at {place}"),
        NarrowFault::NoSlot(k) => format!(in alloc; "NoSlot s{k}"),
        NarrowFault::WrongKind(k) => format!(in alloc; "WrongKind s{k}"),
        NarrowFault::Empty(k) => format!(in alloc; "Empty s{k}"),
        NarrowFault::OutOfMemory => String::from_str(alloc, "out of memory"),
    }
}

/// The slots of the format of the first text after it is narrowed by the second, or the fault.
fn told(alloc: Global, front: Front, format: &str, text: &str) -> Result<String, Fail> {
    if MOST_TEXT_BYTES < format.len() || MOST_TEXT_BYTES < text.len() {
        return Err("too long".into());
    }
    let format = parse(alloc, front, format).ok().ok_or("no format")?;
    let before = slots_text(alloc, &format)?;
    match narrow(alloc, format, text) {
        Ok(narrowed) => Ok(slots_text(alloc, &narrowed)?),
        Err(refused) => {
            let after = slots_text(alloc, &refused.format)?;
            if before.as_str() != after.as_str() {
                return Err("another format is handed back".into());
            }
            Ok(fault_text(alloc, refused.fault)?)
        }
    }
}

/// Each row is a format, an arrow, a text, an arrow, and what is told of the two.
pub(crate) fn check_rows(
    rt: &impl Abort,
    alloc: Global,
    front: Front,
    rows: &str,
) -> Result<(), Fail> {
    for row in rows.lines() {
        let (format, rest) = row.split_once(" => ").ok_or("no arrow")?;
        let (text, wanted) = rest.split_once(" => ").ok_or("no second arrow")?;
        let told = told(alloc, front, format, text)?;
        assert_eq!(rt; told.as_str(), wanted, "{format} by {text}");
    }
    Ok(())
}

/// The place of the text's fault, or `+` where it is a narrowing.
fn place_text(alloc: Global, text: &str) -> Result<String, Fail> {
    let told = told(alloc, Front::Apache, "%r %B", text)?;
    match told.as_str().strip_prefix("Syntax at ") {
        Some(place) => Ok(String::from_str(alloc, place)?),
        None => Ok(String::from_str(alloc, "+")?),
    }
}

/// Each row is a text, an arrow, and its place.
pub(crate) fn check_single(rt: &impl Abort, alloc: Global, rows: &str) -> Result<(), Fail> {
    for row in rows.lines() {
        let (text, wanted) = row.split_once(" => ").ok_or("no arrow")?;
        let place = place_text(alloc, text)?;
        assert_eq!(rt; place.as_str(), wanted, "{text}");
    }
    Ok(())
}

/// The text without the bytes from a place on, or with another byte at the place.
fn edited(alloc: Global, text: &str, at: usize, other: Option<char>) -> Result<String, AllocError> {
    let mut all = String::new(alloc);
    for (i, letter) in text.chars().enumerate() {
        if i == at {
            match other {
                None => return Ok(all),
                Some(other) => all.push(other)?,
            }
        } else {
            all.push(letter)?;
        }
    }
    Ok(all)
}

/// Each row is a text, an arrow, and the places of the texts that are edited at each of its places.
pub(crate) fn check_places(
    rt: &impl Abort,
    alloc: Global,
    other: Option<char>,
    rows: &str,
) -> Result<(), Fail> {
    for row in rows.lines() {
        let (text, wanted) = row.split_once(" => ").ok_or("no arrow")?;
        for (at, wanted) in wanted.split(' ').enumerate() {
            let edited = edited(alloc, text, at, other)?;
            let place = place_text(alloc, edited.as_str())?;
            assert_eq!(rt; place.as_str(), wanted, "{edited}");
        }
    }
    Ok(())
}
