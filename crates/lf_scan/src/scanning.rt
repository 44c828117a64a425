//! The scan of a line.
ghost use Rattle.std.specs.Prelude.{◌≡◌, ◌++◌, IsTrue, IfOk};
ghost use Rattle.lf_core.specs.Adds.{BeginsWith};
ghost use Rattle.lf_scan.specs.Reads.{IsScan, ReadsRest};
ghost use Rattle.lf_scan.specs.Steps.{pieces_of};

use crate::output::push_end;
use crate::plan::Plan;
use crate::step::Step;
use lf_core::{Bytes, OutOfMemory};
use lf_stamp::Recent;
use std::alloc::Global;

/// Reads a line, and adds the JSON of a record that prints it; false where the line doesn't fit.
fn scan_steps(
    alloc: Global,
    steps: &[Step],
    recent: &mut Recent,
    line: &[u8],
    into: &mut Bytes,
) -> Result<bool, OutOfMemory>
    ensures read { IfOk result (λ fits. IsTrue fits → ReadsRest (pieces_of steps.now) 91 line.now into.old into.new) }
    ensures kept { BeginsWith into.new into.old }
{
    let mut before = b'[';
    let mut left = line;
    for step in steps {
        let Some((rest, next)) = step.read(alloc, before, recent, left, into)? else {
            return Ok(false);
        };
        left = rest;
        before = next;
    }
    if !left.is_empty() {
        return Ok(false);
    }
    push_end(before, into)?;
    Ok(true)
}

/// Adds the JSON of a record that prints the line, and says true; or adds nothing and says false, where no guess fits.
pub fn scan(
    alloc: Global,
    plan: &Plan,
    recent: &mut Recent,
    line: &[u8],
    into: &mut Bytes,
) -> Result<bool, OutOfMemory>
    ensures ok { IfOk result (IsScan plan.now line.now into.old into.new) }
    ensures kept { BeginsWith into.new into.old }
{
    let mark = into.len();
    let found = scan_steps(alloc, plan.steps(), recent, line, into)?;
    if !found {
        into.truncate(mark);
    }
    Ok(found)
}
