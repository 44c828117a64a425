//! All whole runs over a line, by a search in depth.

ghost use Rattle.std.specs.Prelude.{◌≡◌, ◌<◌, IfOk};
ghost use Rattle.lf_machine.specs.LineMachine.{line_machine};
ghost use Rattle.lf_machine.specs.Runs.{HasLine};
ghost use Rattle.lf_enumerated.specs.Leading.{Leads};

use lf_core::{Marked, Move, OutOfMemory, Record, Run};
use lf_machine::FormatMachine;
use lf_sets::SetReader;
use smallvec::SmallVec;
use std::alloc::Global;

/// A whole run, and the record that it tells.
#[derive(Drop)]
pub(crate) struct Told {
    pub(crate) run: Run,
    pub(crate) record: Record,
}

fn moves_from(
    alloc: Global,
    machine: &FormatMachine,
    point: u32,
    byte: u8,
) -> Result<Vec<Move>, OutOfMemory>
    requires { point < (line_machine machine.now).count }
    ensures { IfOk result (λ found. found.items ≡ (line_machine machine.now).moves point byte) }
{
    let mut moves = SmallVec::new(alloc);
    machine.moves(point, byte, &mut moves)?;
    Ok(Vec::from_slice(alloc, moves.as_slice())?)
}

fn run_of(alloc: Global, moves: &[Move]) -> Result<Run, OutOfMemory>
    ensures { IfOk result (λ run. run ≡ moves.now) }
{
    let mut run = Run::new(alloc);
    for step in moves {
        run.push(*step)?;
    }
    Ok(run)
}

fn told_of(alloc: Global, machine: &FormatMachine, moves: &[Move]) -> Result<Told, OutOfMemory>
    requires { HasLine (line_machine machine.now) moves.now }
{
    let run = run_of(alloc, moves)?;
    let record = machine.decode(&run)?;
    Ok(Told { run, record })
}

/// Adds the whole runs that begin with the moves, which lead to the point, and go on over the line.
fn follow(
    alloc: Global,
    machine: &FormatMachine,
    moves: &[Move],
    point: u32,
    line: &[u8],
    found: &mut Vec<Told>,
) -> Result<(), OutOfMemory>
    requires point { point < (line_machine machine.now).count }
    requires moves { Leads (line_machine machine.now) moves.now point }
{
    match line.split_first() {
        None => {
            if machine.ends(point) {
                found.push(told_of(alloc, machine, moves)?)?;
            }
            Ok(())
        }
        Some((byte, rest)) => {
            for step in &moves_from(alloc, machine, point, *byte)? {
                let mut longer = Vec::from_slice(alloc, moves)?;
                longer.push(*step)?;
                follow(alloc, machine, longer.as_slice(), step.to, rest, found)?;
            }
            Ok(())
        }
    }
}

/// All whole runs over the line.
pub(crate) fn runs_over(
    alloc: Global,
    machine: &FormatMachine,
    line: &[u8],
) -> Result<Vec<Told>, OutOfMemory> {
    let mut found = Vec::new(alloc);
    follow(alloc, machine, &[], machine.start(), line, &mut found)?;
    Ok(found)
}

/// The record of the run that is found over the line.
pub(crate) fn found_in(
    alloc: Global,
    machine: &FormatMachine,
    line: &[u8],
) -> Result<Option<Record>, OutOfMemory> {
    match SetReader::run(alloc, machine, line)? {
        None => Ok(None),
        Some(run) => {
            let record = machine.decode(&run)?;
            Ok(Some(record))
        }
    }
}
