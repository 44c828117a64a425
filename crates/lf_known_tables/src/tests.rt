//! How many sets of points tables have, and the runs that are found by them.

use crate::nth::NthFromEnd;
use lf_core::{OutOfMemory, Run};
use lf_sets::SetReader;
use lf_tables::Tables;
use lf_written::Table;
use std::alloc::Global;

/// The tables of the machine for the place; it reaches 2 to the power of the place sets of points.
fn tables_of(alloc: Global, place: u8) -> Result<Option<Tables>, OutOfMemory> {
    if place == 0 {
        return Ok(None);
    }
    let table = Table::of(alloc, &NthFromEnd { place })?;
    Tables::build(alloc, &table)
}

#[test]
fn tables_have_65536_sets_at_most(rt: HostRuntime) {
    for (place, some) in [(1, true), (16, true), (17, false)] {
        let tables = tables_of(rt.alloc(), place).map(|tables| tables.is_some());
        assert!(rt; tables == Ok(some), "for the place {place}");
    }
}

/// Whether the run leads over the letters, from the first of them on that is at the place from the end.
fn leads_over(run: &Run, letters: usize, place: u8) -> bool {
    if run.len() != letters {
        return false;
    }
    let before = letters.saturating_sub(usize::from(place));
    for at in 0..letters {
        if run.get(at).to as usize != (at + 1).saturating_sub(before) {
            return false;
        }
    }
    true
}

/// Whether tables and sets find the run over the line, or none where none is.
fn finds(
    alloc: Global,
    machine: &NthFromEnd,
    tables: &Tables,
    line: &str,
    some: bool,
) -> Result<bool, OutOfMemory> {
    let by_tables = tables.run(alloc, line.as_bytes())?;
    let by_sets = SetReader::run(alloc, machine, line.as_bytes())?;
    match (by_tables, by_sets) {
        (Some(one), Some(other)) => Ok(
            some && leads_over(&one, line.len(), machine.place)
                && leads_over(&other, line.len(), machine.place),
        ),
        (None, None) => Ok(!some),
        _ => Ok(false),
    }
}

/// Whether that is so of each line.
fn finds_each(alloc: Global, place: u8, lines: &[(&str, bool)]) -> Result<bool, OutOfMemory> {
    if place == 0 {
        return Ok(false);
    }
    let machine = NthFromEnd { place };
    let Some(tables) = tables_of(alloc, place)? else {
        return Ok(false);
    };
    for (line, some) in lines {
        if !finds(alloc, &machine, &tables, line, *some)? {
            return Ok(false);
        }
    }
    Ok(true)
}

#[test]
fn runs_are_found(rt: HostRuntime) {
    let of_16 = [
        ("abbbbbbbbbbbbbbb", true),
        ("bbbbbbbbbbbbbbbb", false),
        ("abbbbbbbbbbbbbbbb", false),
        ("aaaaaaaaaaaaaaaaaaaa", true),
        ("babbbbbbbbbbbbbbbb", false),
        ("bxabbbbbbbbbbbbxbb\0", false),
        ("bxabbbbbbbbbbbbxb\0", true),
        ("", false),
    ];
    assert!(rt; finds_each(rt.alloc(), 16, &of_16) == Ok(true), "place 16");
    let of_1 = [("a", true), ("ba", true), ("ab", false)];
    assert!(rt; finds_each(rt.alloc(), 1, &of_1) == Ok(true), "place 1");
    let of_2 = [("ab", true), ("aaba", false), ("baa", true)];
    assert!(rt; finds_each(rt.alloc(), 2, &of_2) == Ok(true), "place 2");
}

/// Whether what is found by the same tables with lists that are used again is right for each line in turn.
fn find_again(alloc: Global) -> Result<bool, OutOfMemory> {
    let Some(tables) = tables_of(alloc, 2)? else {
        return Ok(false);
    };
    let mut trail = Vec::new(alloc);
    let mut moves = Vec::new(alloc);
    for (line, some) in [
        ("aaab", true),
        ("ab", true),
        ("aabb", false),
        ("a", false),
        ("bab", true),
    ] {
        let found = tables.run_into(line.as_bytes(), &mut trail, &mut moves)?;
        if found != some || some && moves.len() != line.len() {
            return Ok(false);
        }
    }
    Ok(true)
}

#[test]
fn lists_are_used_again(rt: HostRuntime) {
    assert!(rt; find_again(rt.alloc()) == Ok(true));
}

fn shared<T: Send + Sync>(_: &T) {}

#[test]
fn tables_are_shared(rt: HostRuntime) {
    if let Ok(tables) = tables_of(rt.alloc(), 2) {
        shared(&tables);
    }
}
