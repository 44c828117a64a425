//! The second least run over a line.
ghost use Rattle.std.specs.Prelude.{◌≡◌, ◌+◌, ◌<◌, ◌≤◌, IfOk, length, take};
ghost use Rattle.lf_core.specs.Marked.{IsMachine, stop};
ghost use Rattle.lf_core.specs.Runs.{IsShared};
ghost use Rattle.lf_core.specs.Written.{machine_of};
ghost use Rattle.lf_witness.specs.Runs.{IsLeastRun, IsSecondRun};
ghost use Rattle.lf_witness.specs.Sets.{SetsFor};
ghost use Rattle.lf_witness.specs.Branch.{OnlyFrom, IsOtherMove, IsLastBranch};

use crate::runs::{extend_least, least_open};
use lf_core::{Move, OutOfMemory, Run};
use lf_written::Table;
use std::alloc::Global;

/// A place of a line, and a move there.
#[derive(Clone, Copy, Debug)]
pub(crate) struct Branch {
    at: usize,
    step: Move,
}

/// Where the first moves of a run lead.
fn point_after(start: u32, run: &Run, at: usize) -> u32
    requires { at ≤ length run.now }
    ensures { result ≡ stop start (take at run.now) }
{
    if at == 0 {
        return start;
    }
    run.get(at - 1).to
}

/// The least other move by which a run goes on where the least run is at this place.
fn other_move(
    table: &Table,
    line: &[u8],
    sets: &[Vec<bool>],
    first: &Run,
    at: usize,
) -> Option<Move>
    requires lawful { IsMachine (machine_of table.now) }
    requires sets { SetsFor (machine_of table.now) line.now sets.now }
    requires first { IsLeastRun (machine_of table.now) (machine_of table.now).first line.now first.now }
    requires within { at < length line.now }
    ensures { OnlyFrom (machine_of table.now) line.now first.now (at + 1)
        → IsOtherMove (machine_of table.now) line.now first.now at result }
{
    let point = point_after(table.start(), first, at);
    let moves = table.moves(point, line[at]);
    let after = &sets[line.len() - 1 - at];
    least_open(moves, after, Some(first.get(at)))
}

/// The last place where another move than that of the least run leads on, and the least such move.
fn last_branch(table: &Table, line: &[u8], sets: &[Vec<bool>], first: &Run) -> Option<Branch>
    requires lawful { IsMachine (machine_of table.now) }
    requires sets { SetsFor (machine_of table.now) line.now sets.now }
    requires first { IsLeastRun (machine_of table.now) (machine_of table.now).first line.now first.now }
    ensures { IsLastBranch (machine_of table.now) line.now first.now result }
{
    for k in 0..line.len() {
        let at = line.len() - 1 - k;
        if let Some(step) = other_move(table, line, sets, first, at) {
            return Some(Branch { at, step });
        }
    }
    None
}

/// The first moves of a run.
fn front_of(alloc: Global, run: &Run, at: usize) -> Result<Run, OutOfMemory>
    requires { at ≤ length run.now }
    ensures { IfOk result (λ front. front ≡ take at run.now) }
{
    let mut front = Run::new(alloc);
    for i in 0..at {
        front.push(run.get(i))?;
    }
    Ok(front)
}

/// The least run over a shared line that differs from the least.
pub(crate) fn second_run(
    alloc: Global,
    table: &Table,
    line: &[u8],
    sets: &[Vec<bool>],
    first: &Run,
) -> Result<Run, OutOfMemory>
    requires lawful { IsMachine (machine_of table.now) }
    requires sets { SetsFor (machine_of table.now) line.now sets.now }
    requires first { IsLeastRun (machine_of table.now) (machine_of table.now).first line.now first.now }
    requires shared { IsShared (machine_of table.now) line.now }
    ensures { IfOk result (λ run. IsSecondRun (machine_of table.now) (machine_of table.now).first line.now first.now run) }
{
    let Some(branch) = last_branch(table, line, sets, first) else {
        return Ok(Run::new(alloc));
    };
    let mut run = front_of(alloc, first, branch.at)?;
    run.push(branch.step)?;
    let rest = line.split_at(branch.at + 1).1;
    extend_least(table, rest, sets, branch.step.to, &mut run)?;
    Ok(run)
}
