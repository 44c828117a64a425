//! Classes, records, runs and texts.

use crate::checks::{shared, text_value};
use lf_core::{Class, Moment, Move, OutOfMemory, Record, Run, Str, Value};
use std::alloc::Global;
use std::test::Fail;

/// Whether the set has exactly the bytes of which the test is true.
fn has_just<F: Fn(u8) -> bool>(class: Class, is_wanted: F) -> bool
    requires { F.IsAlwaysCallable is_wanted }
{
    let mut rank = 0;
    for b in 0..=255u8 {
        if class.has(b) != is_wanted(b) {
            return false;
        }
        if class.has(b) && rank < class.count() {
            if class.nth(rank) != b {
                return false;
            }
            rank += 1;
        }
    }
    rank == class.count() && class.is_empty() == (rank == 0)
}

/// The set of the bytes of a text and of those from 0x80 on, or without these.
fn class_of(letters: &[u8], has_upper: bool) -> Class {
    let mut class = if has_upper {
        Class::of(0x80, 0xff)
    } else {
        Class::of(1, 0)
    };
    for b in letters {
        class = class.with(*b);
    }
    class
}

#[test]
fn classes_of_ranges_have_their_bytes(rt: HostRuntime) -> Result<(), Fail> {
    let visible = Class::of(0x21, 0x7e);
    assert!(rt; has_just(visible, |b| b'!' <= b && b <= b'~'));
    assert!(rt; has_just(Class::of(0, 255), |_b| true));
    assert!(rt; has_just(Class::of(0, 255).without(b' '), |b| b != 0x20));
    assert!(rt;
        has_just(
            Class::of(b'0', b'9').with(b'.'),
            |b| b.is_ascii_digit() || b == b'.'
        )
    );
    Ok(())
}

#[test]
fn classes_of_lists_have_their_bytes(rt: HostRuntime) -> Result<(), Fail> {
    let printed =
        b" !\"#$%&'()*+,-./0123456789:;<=>?@ABCDEFGHIJKLMNOPQRSTUVWXYZ[\\]^_`abcdefghijklmnopqrstuvwxyz{|}~";
    let spaced = class_of(printed, true);
    assert!(rt; has_just(spaced, |b| 0x20 <= b && b != 0x7f));
    assert!(rt; has_just(spaced.with(9), |b| b == 9 || (0x20 <= b && b != 0x7f)));
    assert!(rt; has_just(spaced.without(b' '), |b| 0x20 < b && b != 0x7f));
    assert!(rt;
        has_just(
            spaced.without(b' ').without(b'+'),
            |b| 0x20 < b && b != 0x7f && b != b'+'
        )
    );
    Ok(())
}

#[test]
fn classes_of_signs_have_their_bytes(rt: HostRuntime) -> Result<(), Fail> {
    let letters = b"ABCDEFGHIJKLMNOPQRSTUVWXYZabcdefghijklmnopqrstuvwxyz0123456789-_.:~<>";
    assert!(rt;
        has_just(
            class_of(letters, false),
            |b| b.is_ascii_alphanumeric() || b"-_.:~<>".contains(&b)
        )
    );
    assert!(rt;
        has_just(
            class_of(b"0123456789+", false),
            |b| b.is_ascii_digit() || b == b'+'
        )
    );
    Ok(())
}

#[test]
fn classes_meet(rt: HostRuntime) -> Result<(), Fail> {
    let all = Class::of(0, 255);
    let none = Class::of(1, 0);
    assert!(rt; has_just(none, |_b| false));
    assert!(rt; has_just(all, |_b| true));
    assert!(rt;
        has_just(
            Class::of(0x80, 0xff).both(Class::of(0x70, 0x8f)),
            |b| 0x80 <= b && b < 0x90
        )
    );
    assert!(rt; has_just(all.both(none), |_b| false));
    Ok(())
}

/// A record with a value of each kind.
fn each_kind(alloc: Global) -> Result<Record, OutOfMemory> {
    let mut rec = Record::new(alloc);
    rec.push(Value::Missing)?;
    rec.push(Value::Num(-7))?;
    rec.push(text_value(alloc, b"a\n")?)?;
    rec.push(Value::Moment(Moment {
        seconds: 1,
        millis: 2,
        offset: -3,
    }))?;
    rec.push(Value::Day(-4))?;
    rec.push(Value::Clock(5))?;
    Ok(rec)
}

#[test]
fn copies_are_equal(rt: HostRuntime) -> Result<(), Fail> {
    let rec = each_kind(rt.alloc())?;
    let copy = rec.copy()?;
    let text = format!(in rt.alloc(); "{rec:?}")?;
    let again = format!(in rt.alloc(); "{copy:?}")?;
    assert_eq!(rt; text.as_str(), again.as_str());
    assert_eq!(rt; copy.len(), 6);
    Ok(())
}

#[test]
fn runs_and_texts_keep_what_they_are_given(rt: HostRuntime) -> Result<(), Fail> {
    let mut run = Run::new(rt.alloc());
    run.push(Move { mark: 1, to: 2 })?;
    assert_eq!(rt; run.as_slice(), [Move { mark: 1, to: 2 }].as_slice());
    let steps = [Move { mark: 3, to: 4 }, Move { mark: 5, to: 6 }];
    let turned = Run::turned(vec![in rt.alloc(); steps[1], steps[0]]?);
    assert_eq!(rt; turned.as_slice(), steps.as_slice());
    let text = Str::of(rt.alloc(), "héllo")?;
    let copy = text.copy()?;
    assert_eq!(rt; text.as_str(), "héllo");
    assert_eq!(rt; copy.as_str(), "héllo");
    Ok(())
}

#[test]
fn types_are_shared_by_threads(rt: HostRuntime) -> Result<(), Fail> {
    let rec = each_kind(rt.alloc())?;
    shared(&rec);
    shared(&Run::new(rt.alloc()));
    shared(&Class::of(0, 0));
    let text = Str::of(rt.alloc(), "a")?;
    shared(&text);
    shared(&OutOfMemory);
    Ok(())
}
