//! Random machines of six points, beside an enumeration of all short words.
ghost use Rattle.std.specs.Prelude.{◌≡◌};
ghost use Rattle.lf_core.specs.Written.{machine_of};

use crate::answers::{pairs_of, tables_of, witness_of};
use crate::enumeration::{Found, first_word, number_of, place, plain_distances, whole_runs, words};
use crate::small_machines::{LETTERS, Random, SmallMachine, random_machine};
use lf_core::{Bytes, OutOfMemory, Run};
use lf_product::Pairs;
use lf_sets::SetReader;
use lf_tables::Tables;
use lf_witness::{Witness, least_from};
use std::alloc::Global;

/// Whether each flagged pair has this distance.
fn have_distances(pairs: &Pairs, plain: &[Option<u32>]) -> bool
    requires { (machine_of pairs.now).count ≡ 6 }
{
    for at in 0..72u32 {
        let distance = pairs.distance(at / 12, at / 2 % 6, at % 2 == 1);
        if plain.get(at as usize).copied() != Some(distance) {
            return false;
        }
    }
    true
}

/// Whether these are the word and its first runs.
fn is_found(line: &Bytes, runs: &[u64], found: &Found) -> bool {
    line.as_slice() == found.word.as_slice() && found.runs.starts_with(runs)
}

/// Whether the witness is the word with two whole runs that was found, or longer than the words and as long as the distance says.
fn is_least(witness: &Option<Witness>, found: &Option<Found>, distance: Option<u32>) -> bool {
    let Some(witness) = witness else {
        return found.is_none() && distance.is_none();
    };
    let len = witness.line.len();
    if distance.map(|d| d as usize) != Some(len) {
        return false;
    }
    let Some(found) = found else {
        return len > 6;
    };
    let runs = [number_of(&witness.left), number_of(&witness.right)];
    is_found(&witness.line, &runs, found)
}

/// Whether the least line that begins with the letter and its least run are those of the enumeration.
fn agrees_from(
    alloc: Global,
    m: &SmallMachine,
    words: &[Bytes],
    letter: u8,
) -> Result<bool, OutOfMemory> {
    let found = first_word(alloc, m, words, &[letter], 1)?;
    let pairs = pairs_of(alloc, m)?;
    let Some(headed) = least_from(alloc, &pairs, letter)? else {
        return Ok(found.is_none());
    };
    let Some(found) = found else {
        return Ok(false);
    };
    Ok(is_found(&headed.line, &[number_of(&headed.run)], &found))
}

/// The same for each letter.
fn agrees_from_letters(
    alloc: Global,
    m: &SmallMachine,
    words: &[Bytes],
) -> Result<bool, OutOfMemory> {
    for letter in LETTERS {
        if !agrees_from(alloc, m, words, letter)? {
            return Ok(false);
        }
    }
    Ok(true)
}

/// Whether the distances and the least witness are those of the enumeration.
fn agrees(alloc: Global, m: &SmallMachine, words: &[Bytes]) -> Result<bool, OutOfMemory> {
    let plain = plain_distances(alloc, m)?;
    let pairs = pairs_of(alloc, m)?;
    if !have_distances(&pairs, &plain) {
        return Ok(false);
    }
    let witness = witness_of(alloc, m)?;
    let found = first_word(alloc, m, words, &[], 2)?;
    let whole = place(m.start, m.start, false);
    Ok(is_least(&witness, &found, plain.get(whole).copied().flatten()))
}

/// Whether the run is one of these, or is none where there are none.
fn is_one_of(run: &Option<Run>, runs: &[u64]) -> bool {
    let Some(run) = run else {
        return runs.is_empty();
    };
    let number = number_of(run);
    runs.iter().any(|other| *other == number)
}

/// Whether tables and sets find one of the whole runs over the word. Where it has one alone, they find the same.
fn finds_runs(
    alloc: Global,
    m: &SmallMachine,
    tables: &Tables,
    word: &[u8],
) -> Result<bool, OutOfMemory> {
    let runs = whole_runs(alloc, m, word)?;
    let by_tables = tables.run(alloc, word)?;
    let by_sets = SetReader::run(alloc, m, word)?;
    Ok(is_one_of(&by_tables, &runs) && is_one_of(&by_sets, &runs))
}

/// The same for each word.
fn finds_all_runs(alloc: Global, m: &SmallMachine, words: &[Bytes]) -> Result<bool, OutOfMemory> {
    let Some(tables) = tables_of(alloc, m)? else {
        return Ok(false);
    };
    for word in words {
        if !finds_runs(alloc, m, &tables, word.as_slice())? {
            return Ok(false);
        }
    }
    Ok(true)
}

/// Whether so many random machines do as the enumeration says.
fn all_agree(alloc: Global, machines: u64) -> Result<bool, OutOfMemory> {
    let words = words(alloc)?;
    let mut random = Random::new();
    for number in 0..machines {
        let m = random_machine(alloc, &mut random, 3 + number % 12)?;
        if !agrees(alloc, &m, &words)? || !agrees_from_letters(alloc, &m, &words)? {
            return Ok(false);
        }
        if !finds_all_runs(alloc, &m, &words)? {
            return Ok(false);
        }
    }
    Ok(true)
}

#[test]
fn small_machines(rt: HostRuntime) {
    assert!(rt; all_agree(rt.alloc(), 200) == Ok(true));
}
