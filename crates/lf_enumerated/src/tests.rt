//! Small formats, line by line.

use crate::checks::{check_format, is_tabled};
use crate::shapes::Row;
use lf_format::Absent::{Blank, Dash, DashTwo, No};
use lf_format::Coding::{
    ApacheHex, Doubled, HaCapture, HaEscape, HaHash, NginxHex, NginxJson, PlusSpace, Raw,
};
use std::test::Fail;

#[test]
fn a_dash_is_absence(rt: HostRuntime) -> Result<(), Fail> {
    let slot = Row::of("-a", 1, Raw, Dash);
    check_format(rt.alloc(), &[slot, slot], Some(b' '), " -a", 6, None)
}

#[test]
fn present_values_are_no_dashes(rt: HostRuntime) -> Result<(), Fail> {
    let first = Row::of("-a", 1, Raw, Dash).present();
    let second = Row::of("a", 1, Raw, Blank).present();
    check_format(rt.alloc(), &[first, second], Some(b' '), " -a", 6, None)
}

#[test]
fn a_dash_is_both_absence_and_a_text(rt: HostRuntime) -> Result<(), Fail> {
    let slot = Row::of("-a", 1, Raw, DashTwo);
    check_format(rt.alloc(), &[slot, slot], Some(b' '), " -a", 6, Some("- -"))
}

#[test]
fn a_dash_is_a_text_where_none_is_missing(rt: HostRuntime) -> Result<(), Fail> {
    let first = Row::of("-a", 1, Raw, DashTwo).present();
    let second = Row::of("-a", 1, Raw, Dash);
    check_format(rt.alloc(), &[first, second], Some(b' '), " -a", 6, None)
}

#[test]
fn a_dash_in_quotes_is_a_text(rt: HostRuntime) -> Result<(), Fail> {
    let first = Row::of("-a", 1, Raw, DashTwo).quoted();
    let second = Row::of("-a", 1, Raw, Dash).quoted();
    check_format(rt.alloc(), &[first, second], None, "\"-a", 6, None)
}

#[test]
fn neighbours_are_confused(rt: HostRuntime) -> Result<(), Fail> {
    let slot = Row::of("a", 1, Raw, No);
    check_format(rt.alloc(), &[slot, slot], None, "ab", 6, Some("aaa"))
}

#[test]
fn short_neighbours_are_told_apart(rt: HostRuntime) -> Result<(), Fail> {
    let slot = Row::of("a", 1, Raw, No);
    check_format(rt.alloc(), &[slot.at_most(1), slot], None, "ab", 6, None)
}

#[test]
fn the_second_neighbour_is_longer(rt: HostRuntime) -> Result<(), Fail> {
    let first = Row::of("ab", 1, Raw, No);
    let second = Row::of("b", 2, Raw, No);
    check_format(rt.alloc(), &[first, second], None, "ab", 6, Some("abbb"))
}

#[test]
fn nothing_stands_for_the_first(rt: HostRuntime) -> Result<(), Fail> {
    let first = Row::of("a", 1, Raw, Blank);
    let second = Row::of("ab", 0, Raw, No);
    check_format(rt.alloc(), &[first, second], None, "ab", 6, Some("a"))
}

#[test]
fn three_neighbours_are_confused(rt: HostRuntime) -> Result<(), Fail> {
    let first = Row::of("-a", 1, Raw, Dash);
    let second = Row::of("a", 1, Raw, Blank);
    let third = Row::of("-a", 0, Raw, No);
    let slots = [first, second, third];
    check_format(rt.alloc(), &slots, None, "-a", 6, Some("--"))
}

#[test]
fn spaces_in_texts_are_confused(rt: HostRuntime) -> Result<(), Fail> {
    let slot = Row::of(" a", 1, Raw, No);
    check_format(rt.alloc(), &[slot, slot], Some(b' '), " a", 6, Some("    "))
}

#[test]
fn quotes_have_a_backslash(rt: HostRuntime) -> Result<(), Fail> {
    let first = Row::of("\"-a", 0, ApacheHex, Dash).at_most(2).quoted();
    let second = Row::of("\"-a", 0, ApacheHex, Blank).at_most(2).quoted();
    check_format(rt.alloc(), &[first, second], None, "\"-\\a", 6, None)
}

#[test]
fn a_backslash_is_confused(rt: HostRuntime) -> Result<(), Fail> {
    let first = Row::of("\\a", 0, ApacheHex, No);
    let second = Row::of("\\", 0, Raw, No);
    check_format(rt.alloc(), &[first, second], None, "\\a", 6, Some("\\\\"))
}

#[test]
fn a_hash_is_confused(rt: HostRuntime) -> Result<(), Fail> {
    let first = Row::of("\"a", 0, HaHash, No);
    let second = Row::of("#2", 0, Raw, No).at_most(3);
    check_format(rt.alloc(), &[first, second], None, "\"#2a", 6, Some("#22"))
}

#[test]
fn spaces_and_plus_signs_are_confused(rt: HostRuntime) -> Result<(), Fail> {
    let slot = Row::of(" +a", 1, PlusSpace, Dash);
    check_format(
        rt.alloc(),
        &[slot, slot],
        Some(b'|'),
        " +-a|",
        6,
        Some("+|+"),
    )
}

#[test]
fn nothing_or_a_plus_sign_is_confused(rt: HostRuntime) -> Result<(), Fail> {
    let slot = Row::of(" +a", 1, PlusSpace, Blank);
    check_format(rt.alloc(), &[slot, slot], None, " +a", 6, Some("+"))
}

#[test]
fn doubled_quotes_are_confused(rt: HostRuntime) -> Result<(), Fail> {
    let first = Row::of("\"a", 0, Doubled, No).quoted();
    let second = Row::of("\"a", 0, Doubled, Blank).quoted();
    let line = "\"\"\"\"\"\"";
    check_format(rt.alloc(), &[first, second], None, "\"a", 8, Some(line))
}

#[test]
fn hexadecimal_escapes_are_told_apart(rt: HostRuntime) -> Result<(), Fail> {
    let slot = Row::of("\"a", 1, NginxHex, Blank).at_most(1);
    check_format(rt.alloc(), &[slot, slot], Some(b'|'), "\"\\x2a|", 6, None)
}

#[test]
fn json_escapes_are_told_apart(rt: HostRuntime) -> Result<(), Fail> {
    let slot = Row::of("\"a", 1, NginxJson, Dash);
    check_format(rt.alloc(), &[slot, slot], Some(b'|'), "\"\\a|-", 6, None)
}

#[test]
fn captures_are_told_apart(rt: HostRuntime) -> Result<(), Fail> {
    let slot = Row::of("|a", 1, HaCapture, No).at_most(1);
    check_format(rt.alloc(), &[slot, slot], None, "|#7Ca", 6, None)
}

#[test]
fn brackets_are_told_apart(rt: HostRuntime) -> Result<(), Fail> {
    let slot = Row::of("]a", 1, HaEscape, Dash);
    check_format(rt.alloc(), &[slot, slot], Some(b'|'), "]\\a|-", 6, None)
}

#[test]
fn many_sets_have_no_tables(rt: HostRuntime) -> Result<(), Fail> {
    let first = Row::of("ab", 1, Raw, Dash).present();
    for (length, tabled) in [(1, true), (14, true), (17, false)] {
        let second = Row::of("ab", length, Raw, Dash).at_most(length).present();
        if is_tabled(rt.alloc(), &[first, second], Some(b'a'))? != tabled {
            return Err("tables for other lengths".into());
        }
    }
    Ok(())
}
