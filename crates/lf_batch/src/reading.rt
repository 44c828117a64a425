//! The lines of a batch, read by jobs.

ghost use Rattle.std.specs.Prelude.{◌≤◌, All, IfOk};
ghost use Rattle.lf_limits.specs.Limits.{most_jobs};
ghost use Rattle.lf_batch.specs.Within.{LiesWithin};
ghost use Rattle.lf_batch.specs.Verdicts.{AreVerdicts};

use crate::gate::Gate;
use crate::sharing::share;
use crate::verdict::{Verdict, verdict_of};
use crate::work::Work;
use lf_compile::Reader;
use lf_core::OutOfMemory;
use lf_stream::Mark;
use std::alloc::Global;
use std::thread::Threads;

/// A reader's work on lines is the list of their verdicts.
impl Work for Reader {
    type Part = Vec<Verdict>;

    ghost makes = { λ format text marks verdicts. AreVerdicts format.pieces text marks verdicts.items };

    fn make(
        &self,
        alloc: Global,
        text: &[u8],
        marks: &[Mark],
    ) -> Result<Vec<Verdict>, OutOfMemory> {
        let mut verdicts = Vec::new(alloc);
        for mark in marks {
            verdicts.push(verdict_of(alloc, self, text, mark)?)?;
        }
        Ok(verdicts)
    }

    fn join(&self, first: Vec<Verdict>, second: Vec<Verdict>) -> Result<Vec<Verdict>, OutOfMemory> {
        let mut verdicts = first;
        let mut others = second;
        verdicts.append(&mut others)?;
        Ok(verdicts)
    }
}

/// The verdicts of the lines of a batch, read by so many jobs as `share` says.
pub fn read_batch<R: Threads + Sync, G: Gate + Sync>(
    rt: &R,
    alloc: Global,
    reader: &Reader,
    text: &[u8],
    marks: &[Mark],
    jobs: u32,
    gate: &G,
) -> Result<Vec<Verdict>, OutOfMemory>
    requires jobs { (1 ≤ jobs) × (jobs ≤ most_jobs) }
    requires within { All (LiesWithin text.now) marks.now }
    ensures { IfOk result (λ verdicts. AreVerdicts reader.now.pieces text.now marks.now verdicts.items) }
{
    share(rt, alloc, reader, text, marks, jobs, gate)
}
