//! Pairs of machines beside an enumeration of all short words, and by known answers.

use crate::enumeration::{whole_runs, words};
use crate::small_machines::{Random, SmallMachine, random_machine};
use lf_core::{Bytes, OutOfMemory};
use lf_meet::meet;
use std::alloc::Global;

/// Whether both machines have a whole run over the word.
fn is_met(
    alloc: Global,
    m: &SmallMachine,
    n: &SmallMachine,
    word: &[u8],
) -> Result<bool, OutOfMemory> {
    let left = whole_runs(alloc, m, word)?;
    let right = whole_runs(alloc, n, word)?;
    Ok(!left.is_empty() && !right.is_empty())
}

/// Whether this is the least list.
fn is_line(least: &Option<Bytes>, word: &[u8]) -> bool {
    let Some(line) = least else { return false };
    line.as_slice() == word
}

/// Whether the least list is the first of the words on which both machines have a whole run, and none of them where there is none.
fn agrees(
    alloc: Global,
    m: &SmallMachine,
    n: &SmallMachine,
    words: &[Bytes],
) -> Result<bool, OutOfMemory> {
    let least = meet(alloc, m, n)?;
    for word in words {
        if is_met(alloc, m, n, word.as_slice())? {
            return Ok(is_line(&least, word.as_slice()));
        }
    }
    let Some(line) = &least else {
        return Ok(true);
    };
    Ok(line.len() > 6)
}

/// Whether so many pairs of random machines do as the enumeration says.
fn all_agree(alloc: Global, pairs: u64) -> Result<bool, OutOfMemory> {
    let words = words(alloc)?;
    let mut random = Random::new();
    for number in 0..pairs {
        let m = random_machine(alloc, &mut random, 3 + number % 12)?;
        let n = random_machine(alloc, &mut random, 3 + number % 7)?;
        if !agrees(alloc, &m, &n, &words)? {
            return Ok(false);
        }
    }
    Ok(true)
}

#[test]
fn random_pairs(rt: HostRuntime) {
    assert!(rt; all_agree(rt.alloc(), 300) == Ok(true));
}

/// On `a` from each point to the next, and from the last to the first, where runs begin. One is the end.
fn cycle(alloc: Global, points: u8, end: u8) -> Result<SmallMachine, OutOfMemory> {
    let mut m = SmallMachine::new(alloc, 0)?;
    for point in 0..points {
        m.add(point, b'a', (point + 1) % points)?;
    }
    m.end_at(end);
    Ok(m)
}

/// How many letters the least list of two cycles has.
fn letters(alloc: Global, left: (u8, u8), right: (u8, u8)) -> Result<Option<usize>, OutOfMemory> {
    let m = cycle(alloc, left.0, left.1)?;
    let n = cycle(alloc, right.0, right.1)?;
    Ok(meet(alloc, &m, &n)?.map(|line| line.len()))
}

#[test]
fn cycles(rt: HostRuntime) {
    let alloc = rt.alloc();
    assert!(rt; letters(alloc, (2, 0), (3, 0)) == Ok(Some(0)));
    assert!(rt; letters(alloc, (2, 1), (3, 2)) == Ok(Some(5)));
    assert!(rt; letters(alloc, (5, 4), (6, 4)) == Ok(Some(4)));
    assert!(rt; letters(alloc, (5, 3), (6, 5)) == Ok(Some(23)));
    assert!(rt; letters(alloc, (2, 0), (4, 3)) == Ok(None));
}
