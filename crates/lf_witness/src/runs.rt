//! The least run over a line.
ghost use Rattle.std.specs.Prelude.{◌≡◌, ◌<◌, ◌≤◌, ◌⊎◌, ◌↔◌, ◌++◌, List, Some, All, IfSome, IsTrue, OnOk, length};
ghost use Rattle.lf_core.specs.Marked.{IsMachine};
ghost use Rattle.lf_core.specs.Runs.{MoveLt, MoveLe};
ghost use Rattle.lf_core.specs.Written.{machine_of};
ghost use Rattle.lf_witness.specs.Runs.{IsLeastRun};
ghost use Rattle.lf_witness.specs.Sets.{CanEnd, SetsFor};
ghost use Rattle.lf_witness.specs.Open.{IsOpen, IsLeastOpen};

use lf_core::{Move, OutOfMemory, Run};
use lf_written::Table;

/// Whether the move is less.
fn is_less(x: Move, y: Move) -> bool
    ensures { IsTrue result ↔ MoveLt x y }
{
    x.mark < y.mark || (x.mark == y.mark && x.to < y.to)
}

/// The lesser of a move and the least so far.
fn lesser(least: Option<Move>, x: Move) -> Move
    ensures one { (result ≡ x) ⊎ (least ≡ Some result) }
    ensures below { MoveLe result x }
    ensures below_least { IfSome least (λ y. MoveLe result y) }
{
    match least {
        None => x,
        Some(y) => { if is_less(y, x) { y } else { x } }
    }
}

/// Whether the move leads into the set and is another one than this.
fn is_open(x: Move, after: &[bool], but: Option<Move>) -> bool
    requires { x.to < length after.now }
    ensures { IsTrue result ↔ IsOpen after.now but x }
{
    match but {
        None => after[x.to as usize],
        Some(y) => after[x.to as usize] & !((x.mark == y.mark) & (x.to == y.to)),
    }
}

/// The least move that leads into the set, this one left out.
pub(crate) fn least_open(moves: &[Move], after: &[bool], but: Option<Move>) -> Option<Move>
    requires { All (λ x. x.to < length after.now) moves.now }
    ensures { IsLeastOpen moves.now after.now but result }
{
    let mut least = None;
    for x in moves {
        if !is_open(*x, after, but) {
            continue;
        }
        least = Some(lesser(least, *x));
    }
    least
}

/// Appends the least run over the line from the point to an end.
pub(crate) fn extend_least(
    table: &Table,
    line: &[u8],
    sets: &[Vec<bool>],
    start: u32,
    run: &mut Run,
) -> Result<(), OutOfMemory>
    requires lawful { IsMachine (machine_of table.now) }
    requires sets { SetsFor (machine_of table.now) line.now sets.now }
    requires start { start < (machine_of table.now).count }
    requires can { CanEnd (machine_of table.now) line.now start }
    ensures { OnOk result ((more : List Move) × (run.new ≡ run.old ++ more) × IsLeastRun (machine_of table.now) start line.now more) }
{
    let mut point = start;
    for i in 0..line.len() {
        let moves = table.moves(point, line[i]);
        let Some(step) = least_open(moves, &sets[line.len() - 1 - i], None) else {
            return Ok(());
        };
        run.push(step)?;
        point = step.to;
    }
    Ok(())
}
