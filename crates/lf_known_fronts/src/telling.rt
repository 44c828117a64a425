//! The pieces of a format as a text, and rows of known answers.

use lf_core::Class;
use lf_domain::{Radix, WordList};
use lf_format::{Format, Kind, Piece, Slot};
use lf_fronts::parse;
use lf_limits::MOST_TEXT_BYTES;
use lf_spelling::FormatFault;
use lf_words::Front;
use std::alloc::{AllocError, Global};
use std::process::Abort;
use std::test::Fail;

fn class_name(class: Class) -> &'static str {
    let named = [
        (Class::ANY, "any"),
        (Class::HEADER, "header"),
        (Class::VISIBLE, "visible"),
        (Class::WORD, "word"),
        (Class::SPACED, "spaced"),
        (Class::NO_SPACE, "nospace"),
        (Class::IIS_WORD, "iisword"),
        (Class::PROXY, "proxy"),
        (Class::COUNTS, "counts"),
        (Class::DECIMAL, "decimal"),
        (Class::HEADER.both(Class::NO_SPACE), "headerword"),
    ];
    for (other, name) in named {
        if class == other {
            return name;
        }
    }
    "?"
}

fn words_text(alloc: Global, list: &WordList) -> Result<String, AllocError> {
    let mut all = String::from_str(alloc, "words ")?;
    for at in 0..list.len() {
        if at > 0 {
            all.push_str("|")?;
        }
        all.push_str(str::from_utf8(list.get(at)).unwrap_or("?"))?;
    }
    Ok(all)
}

/// A kind in a few words: numbers and lengths as `least..most`.
fn kind_text(alloc: Global, kind: &Kind) -> Result<String, AllocError> {
    match kind {
        Kind::Text(set) => {
            let (name, min) = (class_name(set.class), set.min);
            match set.max {
                None => format!(in alloc; "{name} {min}.."),
                Some(max) => format!(in alloc; "{name} {min}..{max}"),
            }
        }
        Kind::Query(query) => {
            let name = class_name(query.class);
            format!(in alloc; "query {name}")
        }
        Kind::Num(range) => {
            let (lo, hi) = (range.lo, range.hi);
            format!(in alloc; "{lo}..{hi}")
        }
        Kind::DashZero(range) => {
            let (lo, hi) = (range.lo, range.hi);
            format!(in alloc; "dash {lo}..{hi}")
        }
        Kind::Fixed3(range) => {
            let (lo, hi) = (range.lo, range.hi);
            format!(in alloc; "fixed {lo}..{hi}")
        }
        Kind::Padded(range) => {
            let radix = match range.radix {
                Radix::Ten => 10,
                Radix::Sixteen => 16,
            };
            let (width, lo, hi) = (range.width, range.lo, range.hi);
            format!(in alloc; "padded{radix} {width} {lo}..{hi}")
        }
        Kind::Words(words) => words_text(alloc, &words.list),
        other => String::from_str(alloc, time_text(other)),
    }
}

/// The layout of a kind of times.
fn time_text(kind: &Kind) -> &'static str {
    match kind {
        Kind::Clf(time) => {
            if time.bracketed {
                "bracketed clf"
            } else {
                "clf"
            }
        }
        Kind::Iso(_) => "iso",
        Kind::IsoMillis(_) => "millis",
        Kind::Ha(_) => "ha",
        Kind::Date(_) => "day",
        Kind::Clock(_) => "clock",
        _ => "?",
    }
}

fn slot_text(alloc: Global, slot: &Slot) -> Result<String, AllocError> {
    let name = slot.name.as_str();
    let kind = kind_text(alloc, &slot.kind)?;
    let (code, absent) = (slot.code, slot.absent);
    let quotes = if slot.quoted { " quoted" } else { "" };
    let present = if slot.present { " present" } else { "" };
    format!(in alloc; "[{name} {kind} {code:?} {absent:?}{quotes}{present}]")
}

/// A literal between angles, and a slot between brackets.
fn piece_text(alloc: Global, piece: &Piece) -> Result<String, AllocError> {
    match piece {
        Piece::Literal(bytes) => {
            let text = str::from_utf8(bytes.as_slice()).unwrap_or("?");
            format!(in alloc; "<{text}>")
        }
        Piece::Slot(slot) => slot_text(alloc, slot),
    }
}

/// The pieces of a format, one after the other.
pub(crate) fn pieces_text(alloc: Global, format: &Format) -> Result<String, AllocError> {
    let mut all = String::new(alloc);
    for piece in format.pieces() {
        let text = piece_text(alloc, piece)?;
        all.push_str(text.as_str())?;
    }
    Ok(all)
}

/// The format that the text spells, or none.
pub(crate) fn format_of(alloc: Global, front: Front, text: &str) -> Result<Format, Fail> {
    if MOST_TEXT_BYTES < text.len() {
        return Err("too long".into());
    }
    Ok(parse(alloc, front, text).ok().ok_or("no format")?)
}

/// The pieces of the format that the text spells, or its fault and the place.
fn told(alloc: Global, front: Front, text: &str) -> Result<String, AllocError> {
    if MOST_TEXT_BYTES < text.len() {
        return String::from_str(alloc, "too long");
    }
    match parse(alloc, front, text) {
        Ok(format) => pieces_text(alloc, &format),
        Err(FormatFault::At(place, cause)) => format!(in alloc; "{cause:?} at {place}"),
        Err(FormatFault::OutOfMemory) => String::from_str(alloc, "out of memory"),
    }
}

/// Each row is a text, an arrow, and what is told of the text; `¶` in both stands for a line feed.
pub(crate) fn check_rows(
    rt: &impl Abort,
    alloc: Global,
    front: Front,
    rows: &str,
) -> Result<(), Fail> {
    for row in rows.lines() {
        let row = row.replace(alloc, "¶", "\n")?;
        let (text, wanted) = row.as_str().split_once(" => ").ok_or("no arrow")?;
        let told = told(alloc, front, text)?;
        assert_eq!(rt; told.as_str(), wanted, "at {text}");
    }
    Ok(())
}

/// The slot so many times, and then the end.
fn slots(alloc: Global, count: u32, slot: &str, end: &str) -> Result<String, AllocError> {
    let mut text = String::new(alloc);
    for _ in 0..count {
        text.push_str(slot)?;
    }
    text.push_str(end)?;
    Ok(text)
}

/// Each row is a number of slots, a space, what follows them, an arrow, and what is told of the text.
pub(crate) fn check_many(
    rt: &impl Abort,
    alloc: Global,
    front: Front,
    slot: &str,
    rows: &str,
) -> Result<(), Fail> {
    for row in rows.lines() {
        let row = row.replace(alloc, "¶", "\n")?;
        let (first, wanted) = row.as_str().split_once(" => ").ok_or("no arrow")?;
        let (count, end) = first.split_once(' ').ok_or("no count")?;
        let count = count.parse::<u32>().ok().ok_or("no number")?;
        let text = slots(alloc, count, slot, end)?;
        let told = told(alloc, front, text.as_str())?;
        assert_eq!(rt; told.as_str(), wanted, "{count} slots and {end}");
    }
    let most = slots(alloc, 128, slot, "")?;
    let format = format_of(alloc, front, most.as_str())?;
    assert_eq!(rt; format.slots(), 128);
    Ok(())
}
