//! The least line that begins with a byte.
ghost use Rattle.std.specs.Prelude.{◌≡◌, ◌<◌, All, MatchOption, OnOk, IfOk};
ghost use Rattle.lf_core.specs.Marked.{IsMachine};
ghost use Rattle.lf_core.specs.Written.{machine_of};
ghost use Rattle.lf_witness.specs.Runs.{IsLeastRun};
ghost use Rattle.lf_witness.specs.Sets.{CanEnd};
ghost use Rattle.lf_witness.specs.Heads.{HasNoHeaded, IsLeastHeaded, IsLeastTail, IsNearest, lesser_number};

use crate::runs::extend_least;
use crate::sets::sets_of;
use lf_core::{Bytes, Move, OutOfMemory, Run};
use lf_product::{Pair, Pairs, least_word, next_on};
use lf_written::Table;
use std::alloc::Global;

/// A line that begins with a byte, and its least run.
#[derive(Debug, Drop)]
pub struct Headed {
    pub line: Bytes,
    pub run: Run,
}

/// The lesser of two numbers, where there are two.
fn lesser(a: Option<u32>, b: Option<u32>) -> Option<u32>
    ensures { result ≡ lesser_number a b }
{
    let Some(x) = a else { return b };
    let Some(y) = b else { return a };
    Some(x.min(y))
}

/// How many bytes lead at least to an end from one of the points to which the moves lead.
fn nearest(pairs: &Pairs, moves: &[Move]) -> Option<u32>
    requires { All (λ x. x.to < (machine_of pairs.now).count) moves.now }
    ensures { IsNearest (machine_of pairs.now) moves.now result }
{
    let mut least = None;
    for x in moves {
        least = lesser(least, pairs.distance(x.to, x.to, true));
    }
    least
}

/// The least bytes over which an end is reached after the first one: a run stands beside itself.
fn least_tail(alloc: Global, pairs: &Pairs, first: u8) -> Result<Option<Bytes>, OutOfMemory>
    ensures { IfOk result (λ found. MatchOption found (HasNoHeaded (machine_of pairs.now) first)
        (λ tail. IsLeastTail (machine_of pairs.now) first tail)) }
{
    pairs.is_machine();
    let table = pairs.table();
    let start = table.start();
    let Some(left) = nearest(pairs, table.moves(start, first)) else {
        return Ok(None);
    };
    let before = [Pair {
        left: start,
        right: start,
        differed: true,
    }];
    let level = next_on(alloc, pairs, &before, first, left)?;
    let tail = least_word(alloc, pairs, level, left)?;
    Ok(Some(tail))
}

/// The least run over a line.
fn least_run(alloc: Global, table: &Table, line: &[u8]) -> Result<Run, OutOfMemory>
    requires lawful { IsMachine (machine_of table.now) }
    requires can { CanEnd (machine_of table.now) line.now (machine_of table.now).first }
    ensures { IfOk result (λ run. IsLeastRun (machine_of table.now) (machine_of table.now).first line.now run) }
{
    let sets = sets_of(alloc, table, line)?;
    let mut run = Run::new(alloc);
    extend_least(table, line, &sets, table.start(), &mut run)?;
    Ok(run)
}

/// The least line with a whole run that begins with the byte, and its least run; None exactly where there is none.
pub fn least_from(alloc: Global, pairs: &Pairs, first: u8) -> Result<Option<Headed>, OutOfMemory>
    ensures { IfOk result (λ found. MatchOption found (HasNoHeaded (machine_of pairs.now) first)
        (λ headed. IsLeastHeaded (machine_of pairs.now) first headed.line headed.run)) }
{
    pairs.is_machine();
    let Some(tail) = least_tail(alloc, pairs, first)? else {
        return Ok(None);
    };
    let mut line = Bytes::new(alloc);
    line.push(first)?;
    line.extend(tail.as_slice())?;
    let run = least_run(alloc, pairs.table(), line.as_slice())?;
    Ok(Some(Headed { line, run }))
}
