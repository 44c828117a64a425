//! The walk to the least word: from a level of pairs on, byte by byte, by those that stand one byte nearer to their ends.
ghost use Rattle.std.specs.Prelude.{◌≡◌, ◌+◌, ◌<◌, ◌⊎◌, ◌↔◌, [], OnOk, IfOk, IsTrue, All, Contains};
ghost use Rattle.lf_core.specs.Marked.{IsMachine, NoneTwice};
ghost use Rattle.lf_core.specs.Written.{machine_of};
ghost use Rattle.lf_product.specs.Walk.{IsLeast, IsNext, IsNextOf, AreBelow, IsLevel, IsLeastOnward, IsLeastWord};

use crate::pair::Pair;
use crate::pairs::Pairs;
use lf_core::{Bytes, Move, OutOfMemory};
use std::alloc::Global;

/// Whether the pair is listed.
fn has(list: &[Pair], pair: Pair) -> bool
    ensures { IsTrue result ↔ Contains list.now pair }
{
    for p in list {
        if p.is(pair) {
            return true;
        }
    }
    false
}

/// Adds the pair where its distance is `steps`, and it isn't listed.
fn add_pair(pairs: &Pairs, list: &mut Vec<Pair>, pair: Pair, steps: u32) -> Result<(), OutOfMemory>
    requires left { pair.left < (machine_of pairs.now).count }
    requires right { pair.right < (machine_of pairs.now).count }
    requires once { NoneTwice list.old.items }
    ensures kept { OnOk result ((p : Pair) → Contains list.old.items p → Contains list.new.items p) }
    ensures from { OnOk result
        ((p : Pair) → Contains list.new.items p →
        Contains list.old.items p ⊎ ((pair ≡ p) × IsLeast (machine_of pairs.now) steps pair)) }
    ensures all { OnOk result (IsLeast (machine_of pairs.now) steps pair → Contains list.new.items pair) }
    ensures once { OnOk result (NoneTwice list.new.items) }
{
    let Some(least) = pairs.distance(pair.left, pair.right, pair.differed) else {
        return Ok(());
    };
    if least != steps {
        return Ok(());
    }
    if has(list, pair) {
        return Ok(());
    }
    list.push(pair)?;
    Ok(())
}

/// Adds each pair of one move of each list whose distance is `steps`.
fn add_pairs(
    pairs: &Pairs,
    list: &mut Vec<Pair>,
    lefts: &[Move],
    rights: &[Move],
    differed: bool,
    steps: u32,
) -> Result<(), OutOfMemory>
    requires left { All (λ x. x.to < (machine_of pairs.now).count) lefts.now }
    requires right { All (λ x. x.to < (machine_of pairs.now).count) rights.now }
    requires once { NoneTwice list.old.items }
    ensures kept { OnOk result ((p : Pair) → Contains list.old.items p → Contains list.new.items p) }
    ensures from { OnOk result
        ((p : Pair) → Contains list.new.items p →
        Contains list.old.items p ⊎ IsNext (machine_of pairs.now) steps lefts.now rights.now differed p) }
    ensures all { OnOk result
        ((p : Pair) → IsNext (machine_of pairs.now) steps lefts.now rights.now differed p → Contains list.new.items p) }
    ensures once { OnOk result (NoneTwice list.new.items) }
{
    for x in lefts {
        for y in rights {
            add_pair(pairs, list, Pair::after(*x, *y, differed), steps)?;
        }
    }
    Ok(())
}

/// The pairs to which a byte leads from the level's, and whose distance is `steps`.
pub fn next_on(
    alloc: Global,
    pairs: &Pairs,
    level: &[Pair],
    byte: u8,
    steps: u32,
) -> Result<Vec<Pair>, OutOfMemory>
    requires { AreBelow (machine_of pairs.now) level.now }
    ensures from { IfOk result
        (λ next. (p : Pair) → Contains next.items p → IsNextOf (machine_of pairs.now) steps level.now byte p) }
    ensures all { IfOk result
        (λ next. (p : Pair) → IsNextOf (machine_of pairs.now) steps level.now byte p → Contains next.items p) }
    ensures once { IfOk result (λ next. NoneTwice next.items) }
{
    pairs.is_machine();
    let table = pairs.table();
    let mut next = Vec::new(alloc);
    for pair in level {
        let lefts = table.moves(pair.left, byte);
        let rights = table.moves(pair.right, byte);
        add_pairs(pairs, &mut next, lefts, rights, pair.differed, steps)?;
    }
    Ok(next)
}

/// A byte, and the pairs to which it leads.
#[derive(Drop)]
struct Onward {
    byte: u8,
    next: Vec<Pair>,
}

/// The least byte that leads on from the level.
fn least_onward(
    alloc: Global,
    pairs: &Pairs,
    level: &[Pair],
    steps: u32,
) -> Result<Onward, OutOfMemory>
    requires { IsLevel (machine_of pairs.now) (steps + 1) level.now }
    ensures { IfOk result (λ on. IsLeastOnward (machine_of pairs.now) steps level.now on.byte on.next.items) }
{
    pairs.is_machine();
    for byte in 0..256u32 {
        let next = next_on(alloc, pairs, level, byte as u8, steps)?;
        if !next.is_empty() {
            return Ok(Onward {
                byte: byte as u8,
                next,
            });
        }
    }
    Ok(Onward {
        byte: 0,
        next: Vec::new(alloc),
    })
}

/// The least word that two runs share from some pair of the level on, each of which has this distance.
/// No level on the way holds a pair twice.
pub fn least_word(
    alloc: Global,
    pairs: &Pairs,
    level: Vec<Pair>,
    distance: u32,
) -> Result<Bytes, OutOfMemory>
    requires { IsLevel (machine_of pairs.now) distance level.items }
    ensures { IfOk result (λ word. IsLeastWord (machine_of pairs.now) level.items word) }
{
    pairs.is_machine();
    let mut word = Bytes::new(alloc);
    let mut now = level;
    for taken in 0..distance {
        let onward = least_onward(alloc, pairs, &now, distance - taken - 1)?;
        word.push(onward.byte)?;
        now = onward.next;
    }
    Ok(word)
}
