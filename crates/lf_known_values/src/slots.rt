//! What slots hold.

ghost use Rattle.std.specs.Prelude.{◌≤◌, length};
ghost use Rattle.std.specs.Option.{ForSome};

use crate::checks::{shared, text_value};
use lf_core::{Bytes, Class, Domain, Moment, OutOfMemory, Str, Value};
use lf_domain::{DashZero, Fixed3, NumRange, Padded, QueryText, Radix, TextSet, WordList, Words};
use lf_format::{Absent, Coding, Kind, Slot, ValueKind};
use lf_time::{ClfTime, HaTime, IsoMillisZ, IsoOffset, W3cClock, W3cDate};
use std::alloc::Global;
use std::process::Abort;
use std::test::Fail;

fn slot_of(alloc: Global, kind: Kind, absent: Absent) -> Result<Slot, OutOfMemory> {
    Ok(Slot {
        name: Str::of(alloc, "%a")?,
        kind,
        code: Coding::Raw,
        absent,
        present: false,
        quoted: false,
    })
}

fn texts(class: Class, min: u32, max: Option<u32>) -> Kind
    requires least { min ≤ 9 }
    requires most { ForSome max (λ most. most ≤ 9) }
{
    Kind::Text(TextSet { class, min, max })
}

fn one_word(alloc: Global, word: &[u8]) -> Result<Kind, OutOfMemory>
    requires { length word.now ≤ 9 }
{
    let mut list = WordList::new(alloc);
    list.push(word)?;
    Ok(Kind::Words(Words { list }))
}

fn holds_text(alloc: Global, slot: &Slot, letters: &[u8]) -> Result<bool, OutOfMemory> {
    Ok(slot.holds(&text_value(alloc, letters)?))
}

#[test]
fn a_dash_is_absence_or_a_text(rt: HostRuntime) -> Result<(), Fail> {
    let rows: [(Absent, bool, bool, bool, bool); 6] = [
        (Absent::No, false, false, false, true),
        (Absent::Dash, false, false, true, false),
        (Absent::Dash, false, true, true, true),
        (Absent::Dash, true, false, false, false),
        (Absent::DashTwo, false, false, true, true),
        (Absent::Blank, false, false, true, true),
    ];
    for (absent, present, quoted, missing, dash) in rows {
        let mut slot = slot_of(rt.alloc(), texts(Class::VISIBLE, 1, None), absent)?;
        slot.present = present;
        slot.quoted = quoted;
        let holds_dash = holds_text(rt.alloc(), &slot, b"-")?;
        let holds_letter = holds_text(rt.alloc(), &slot, b"a")?;
        let holds_space = holds_text(rt.alloc(), &slot, b" ")?;
        assert_eq!(rt; slot.holds(&Value::Missing), missing);
        assert_eq!(rt; holds_dash, dash);
        assert!(rt; holds_letter && !holds_space);
        assert!(rt; !slot.holds(&Value::Num(1)));
    }
    Ok(())
}

#[test]
fn nothing_is_absence_under_blank(rt: HostRuntime) -> Result<(), Fail> {
    let rows: [(Absent, bool, bool); 4] = [
        (Absent::Blank, false, false),
        (Absent::Blank, true, false),
        (Absent::Dash, false, true),
        (Absent::No, false, true),
    ];
    for (absent, quoted, holds) in rows {
        let mut slot = slot_of(rt.alloc(), texts(Class::ANY, 0, None), absent)?;
        slot.quoted = quoted;
        let held = holds_text(rt.alloc(), &slot, b"")?;
        assert_eq!(rt; held, holds);
    }
    Ok(())
}

#[test]
fn a_zero_that_is_printed_as_a_dash_is_absence(rt: HostRuntime) -> Result<(), Fail> {
    for (absent, holds_zero) in [(Absent::No, true), (Absent::Dash, false)] {
        let slot = slot_of(
            rt.alloc(),
            Kind::DashZero(DashZero { lo: 0, hi: 9 }),
            absent,
        )?;
        assert_eq!(rt; slot.holds(&Value::Num(0)), holds_zero);
        assert!(rt; slot.holds(&Value::Num(9)) && !slot.holds(&Value::Num(10)));
    }
    Ok(())
}

/// Whether a slot of the domain that is never missing holds some value.
fn has_value(alloc: Global, kind: Kind, absent: Absent) -> Result<bool, OutOfMemory> {
    let mut slot = slot_of(alloc, kind, absent)?;
    slot.present = true;
    slot.holds_any()
}

#[test]
fn some_slots_hold_no_value(rt: HostRuntime) -> Result<(), Fail> {
    let dash = Class::of(b'-', b'-');
    let rows: [(Kind, Absent, bool); 13] = [
        (texts(dash, 1, Some(1)), Absent::Dash, false),
        (texts(dash, 1, Some(1)), Absent::DashTwo, true),
        (texts(dash, 1, Some(2)), Absent::Dash, true),
        (texts(dash, 1, None), Absent::Dash, true),
        (texts(Class::DECIMAL, 1, Some(1)), Absent::Dash, true),
        (texts(Class::of(1, 0), 0, None), Absent::Dash, true),
        (texts(Class::of(1, 0), 0, None), Absent::Blank, false),
        (texts(dash, 2, Some(1)), Absent::No, false),
        (Kind::Num(NumRange { lo: 2, hi: 1 }), Absent::No, false),
        (
            Kind::DashZero(DashZero { lo: 0, hi: 0 }),
            Absent::Dash,
            false,
        ),
        (
            Kind::DashZero(DashZero { lo: 0, hi: 1 }),
            Absent::Dash,
            true,
        ),
        (Kind::Fixed3(Fixed3 { lo: 5, hi: 5 }), Absent::Blank, true),
        (
            Kind::Query(QueryText { class: Class::ANY }),
            Absent::Blank,
            true,
        ),
    ];
    for (kind, absent, holds) in rows {
        let found = has_value(rt.alloc(), kind, absent)?;
        assert_eq!(rt; found, holds);
    }
    let word = one_word(rt.alloc(), b"-")?;
    let found = has_value(rt.alloc(), word, Absent::Dash)?;
    assert!(rt; !found);
    Ok(())
}

#[test]
fn copies_are_equal(rt: HostRuntime) -> Result<(), Fail> {
    let word = one_word(rt.alloc(), b"X")?;
    let slot = slot_of(rt.alloc(), word, Absent::Blank)?;
    let copy = slot.copy()?;
    let held = holds_text(rt.alloc(), &copy, b"X")?;
    assert!(rt; held && copy.name.as_str() == "%a" && copy.absent == Absent::Blank);
    let padded = Kind::Padded(Padded {
        radix: Radix::Sixteen,
        width: 4,
        lo: 0,
        hi: 255,
    });
    let again = padded.copy()?;
    assert_eq!(rt; again.value_kind(), ValueKind::Number);
    assert_eq!(rt; copy.kind.value_kind(), ValueKind::Text);
    Ok(())
}

/// Whether the domain prints the number so.
fn prints(alloc: Global, kind: &Kind, number: i64, wanted: &[u8]) -> Result<bool, OutOfMemory> {
    let value = Value::Num(number);
    if !kind.check(&value) {
        return Ok(false);
    }
    let mut plain = Bytes::new(alloc);
    kind.write_plain(&value, &mut plain)?;
    Ok(plain.as_slice() == wanted)
}

#[test]
fn kinds_of_numbers_that_fronts_make(rt: HostRuntime) -> Result<(), Fail> {
    let seconds = Kind::fixed3(0, i64::MAX);
    assert!(rt; prints(rt.alloc(), &seconds, 5, b"0.005")?);
    let port = Kind::padded(Radix::Sixteen, 4, 0, 65535);
    assert!(rt; prints(rt.alloc(), &port, 255, b"00FF")?);
    let status = Kind::numbers(-1, 999);
    assert!(rt; prints(rt.alloc(), &status, -1, b"-1")?);
    assert!(rt; !status.check(&Value::Num(-2)) && !status.check(&Value::Num(1000)));
    let bytes = Kind::dashed(0, 9);
    assert!(rt; prints(rt.alloc(), &bytes, 0, b"-")?);
    Ok(())
}

#[test]
fn texts_with_an_upper_bound(rt: HostRuntime) -> Result<(), Fail> {
    let pair = Kind::bounded_texts(Class::VISIBLE, 2, 3);
    let slot = slot_of(rt.alloc(), pair, Absent::No)?;
    for (text, wanted) in [("a", false), ("ab", true), ("abc", true), ("abcd", false)] {
        let held = holds_text(rt.alloc(), &slot, text.as_bytes())?;
        assert_eq!(rt; held, wanted, "at {text}");
    }
    Ok(())
}

/// A slot of times under each absence: it holds some time, and of these three only those of its sort.
fn holds_times(rt: &impl Abort, alloc: Global, kind: &Kind, sort: ValueKind) -> Result<(), Fail> {
    let moment = Value::Moment(Moment {
        seconds: 971_186_136,
        millis: 0,
        offset: 0,
    });
    assert!(rt; kind.value_kind() == sort);
    for absent in [Absent::No, Absent::Dash, Absent::DashTwo, Absent::Blank] {
        let copy = kind.copy()?;
        let mut slot = slot_of(alloc, copy, absent)?;
        slot.present = true;
        assert!(rt; slot.holds_any()?);
        assert!(rt; slot.holds(&moment) == (sort == ValueKind::Moment));
        assert!(rt; slot.holds(&Value::Day(11240)) == (sort == ValueKind::Day));
        assert!(rt; slot.holds(&Value::Clock(50_136)) == (sort == ValueKind::Clock));
        assert!(rt; !slot.holds(&Value::Missing) && !slot.holds(&Value::Num(0)));
    }
    Ok(())
}

#[test]
fn slots_of_times(rt: HostRuntime) -> Result<(), Fail> {
    let alloc = rt.alloc();
    let clf = Kind::Clf(ClfTime { bracketed: true });
    holds_times(&rt, alloc, &clf, ValueKind::Moment)?;
    holds_times(&rt, alloc, &Kind::Iso(IsoOffset), ValueKind::Moment)?;
    holds_times(&rt, alloc, &Kind::IsoMillis(IsoMillisZ), ValueKind::Moment)?;
    holds_times(&rt, alloc, &Kind::Ha(HaTime), ValueKind::Moment)?;
    holds_times(&rt, alloc, &Kind::Date(W3cDate), ValueKind::Day)?;
    holds_times(&rt, alloc, &Kind::Clock(W3cClock), ValueKind::Clock)
}

#[test]
fn slots_are_shared_by_threads(rt: HostRuntime) -> Result<(), Fail> {
    let slot = slot_of(rt.alloc(), texts(Class::ANY, 0, None), Absent::Blank)?;
    shared(&slot);
    shared(&ValueKind::Clock);
    Ok(())
}
