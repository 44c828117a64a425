//! What small machines do, by plain enumeration.

use crate::small_machines::{Arc, LETTERS, SmallMachine, has, put};
use lf_core::{Bytes, OutOfMemory, Run};
use std::alloc::Global;

/// How many flagged pairs there are.
const PAIRS: usize = 72;

/// How many words of the letters have up to five bytes.
const SHORTER: usize = 364;

/// The place of a flagged pair in tables.
pub(crate) fn place(left: u8, right: u8, differed: bool) -> usize {
    (left as usize * 6 + right as usize) * 2 + differed as usize
}

/// The flagged pairs from which the empty word suffices.
fn first_table(alloc: Global, m: &SmallMachine) -> Result<Vec<bool>, OutOfMemory> {
    let mut table = Vec::new(alloc);
    for at in 0..PAIRS as u8 {
        table.push(m.is_end(at / 12) && m.is_end(at / 2 % 6) && at % 2 == 1)?;
    }
    Ok(table)
}

/// Adds the flagged pairs from which the two moves lead into the table.
fn add_pair(x: Arc, y: Arc, table: &[bool], into: &mut [bool]) {
    for differed in [false, true] {
        if has(
            table,
            place(x.to(), y.to(), differed || x.number != y.number),
        ) {
            put(into, place(x.from, y.from, differed));
        }
    }
}

/// The same for this left move and each right one.
fn add_pairs(m: &SmallMachine, x: Arc, table: &[bool], into: &mut [bool]) {
    for y in &m.arcs {
        if x.byte == y.byte {
            add_pair(x, *y, table, into);
        }
    }
}

/// The flagged pairs from which a word of one byte more suffices.
fn next_table(alloc: Global, m: &SmallMachine, table: &[bool]) -> Result<Vec<bool>, OutOfMemory> {
    let mut next = vec![in alloc; false; PAIRS]?;
    for x in &m.arcs {
        add_pairs(m, *x, table, &mut next);
    }
    Ok(next)
}

/// Notes the number of bytes of the flagged pairs for which none was noted before.
fn note(table: &[bool], bytes: u32, distances: &mut [Option<u32>]) {
    for at in 0..distances.len() {
        if distances[at].is_none() && has(table, at) {
            distances[at] = Some(bytes);
        }
    }
}

/// The distances of the flagged pairs, each by trying all numbers of bytes.
pub(crate) fn plain_distances(
    alloc: Global,
    m: &SmallMachine,
) -> Result<Vec<Option<u32>>, OutOfMemory> {
    let mut distances = vec![in alloc; None; PAIRS]?;
    let mut table = first_table(alloc, m)?;
    for bytes in 0..PAIRS as u32 {
        note(&table, bytes, &mut distances);
        table = next_table(alloc, m, &table)?;
    }
    Ok(distances)
}

/// Appends the words of one letter more than the word at this place.
fn add_longer(at: usize, words: &mut Vec<Bytes>) -> Result<(), OutOfMemory> {
    for letter in LETTERS {
        let Some(word) = words.get(at) else {
            return Ok(());
        };
        let mut longer = word.copy()?;
        longer.push(letter)?;
        words.push(longer)?;
    }
    Ok(())
}

/// The words of up to six letters, shorter ones first, and then by bytes.
pub(crate) fn words(alloc: Global) -> Result<Vec<Bytes>, OutOfMemory> {
    let mut words = Vec::new(alloc);
    words.push(Bytes::new(alloc))?;
    for at in 0..SHORTER {
        add_longer(at, &mut words)?;
    }
    Ok(words)
}

/// The number whose digits to the base 12 are the moves of a run, with one move more.
fn with_move(run: u64, number: u64) -> u64 {
    run.wrapping_mul(12).wrapping_add(number)
}

/// The number of a run.
pub(crate) fn number_of(run: &Run) -> u64 {
    let mut number = 0;
    for x in run.as_slice() {
        number = with_move(number, x.mark as u64 * 6 + x.to as u64);
    }
    number
}

/// A run from the start by its number, and where it stops.
#[derive(Clone, Copy)]
struct Way {
    run: u64,
    point: u8,
}

/// Appends the run with each move on the byte.
fn add_ways(m: &SmallMachine, way: Way, byte: u8, into: &mut Vec<Way>) -> Result<(), OutOfMemory> {
    for x in &m.arcs {
        if x.from == way.point && x.byte == byte {
            into.push(Way {
                run: with_move(way.run, x.number as u64),
                point: x.to(),
            })?;
        }
    }
    Ok(())
}

/// The runs over one byte more.
fn next_ways(
    alloc: Global,
    m: &SmallMachine,
    ways: &[Way],
    byte: u8,
) -> Result<Vec<Way>, OutOfMemory> {
    let mut next = Vec::new(alloc);
    for way in ways {
        add_ways(m, *way, byte, &mut next)?;
    }
    Ok(next)
}

/// The runs over the word from the start.
fn ways_over(alloc: Global, m: &SmallMachine, word: &[u8]) -> Result<Vec<Way>, OutOfMemory> {
    let mut ways = Vec::new(alloc);
    ways.push(Way {
        run: 0,
        point: m.start,
    })?;
    for byte in word {
        ways = next_ways(alloc, m, &ways, *byte)?;
    }
    Ok(ways)
}

/// The numbers of the whole runs over the word, in rising order.
pub(crate) fn whole_runs(
    alloc: Global,
    m: &SmallMachine,
    word: &[u8],
) -> Result<Vec<u64>, OutOfMemory> {
    let ways = ways_over(alloc, m, word)?;
    let mut runs = Vec::new(alloc);
    for way in &ways {
        if m.is_end(way.point) {
            runs.push(way.run)?;
        }
    }
    Ok(runs)
}

/// A word and its whole runs.
#[derive(Drop)]
pub(crate) struct Found {
    pub(crate) word: Bytes,
    pub(crate) runs: Vec<u64>,
}

/// The first of the words that begins so and has at least so many whole runs.
pub(crate) fn first_word(
    alloc: Global,
    m: &SmallMachine,
    words: &[Bytes],
    front: &[u8],
    least: usize,
) -> Result<Option<Found>, OutOfMemory> {
    for word in words {
        if word.as_slice().starts_with(front) {
            let runs = whole_runs(alloc, m, word.as_slice())?;
            if runs.len() >= least {
                let word = word.copy()?;
                return Ok(Some(Found { word, runs }));
            }
        }
    }
    Ok(None)
}
