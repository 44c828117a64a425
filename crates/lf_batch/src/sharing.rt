//! A batch of lines, worked on by jobs.

ghost use Rattle.std.specs.Prelude.{◌≡◌, ◌≤◌, ◌+◌, ◌-◌, ◌/◌, All, IfOk};
ghost use Rattle.std.specs.Thread.{IsSync};
ghost use Rattle.lf_limits.specs.Limits.{most_jobs};
ghost use Rattle.lf_batch.specs.Within.{LiesWithin};

use crate::gate::Gate;
use crate::work::Work;
use lf_core::OutOfMemory;
use lf_stream::Mark;
use std::alloc::Global;
use std::thread::{Threads, join};

/// Jobs whose numbers follow one another.
#[derive(Clone, Copy)]
struct Jobs {
    /// The number of the first job.
    first: u32,
    count: u32,
    ghost within: { first + count ≤ most_jobs },
}

impl Jobs {
    /// The first half of the jobs, rounded down, and the other jobs.
    fn halves(self) -> (Jobs, Jobs)
        ensures first { result.0.count ≡ self.count / 2 }
        ensures second { result.1.count ≡ self.count - self.count / 2 }
    {
        let half = self.count / 2;
        let first = Jobs {
            first: self.first,
            count: half,
        };
        let second = Jobs {
            first: self.first + half,
            count: self.count - half,
        };
        (first, second)
    }
}

/// Does the work on the marks' lines by these jobs, as `share` says.
fn share_among<R: Threads + Sync, W: Work + Sync, G: Gate + Sync>(
    rt: &R,
    alloc: Global,
    work: &W,
    text: &[u8],
    marks: &[Mark],
    jobs: Jobs,
    gate: &G,
) -> Result<W::Part, OutOfMemory>
    requires { All (LiesWithin text.now) marks.now }
    ensures { IfOk result (W.makes work.now text.now marks.now) }
{
    if marks.len() < 2 || jobs.count < 2 {
        gate.pass(jobs.first);
        return work.make(alloc, text, marks);
    }
    let (front, back) = marks.split_at(marks.len() / 2);
    let (fewer, others) = jobs.halves();
    let (first, second) = join(
        rt,
        move || -> Result<W::Part, OutOfMemory>
            requires { IsSync R.row × All (LiesWithin text.now) front.now }
            ensures { IfOk result (W.makes work.entry.now text.entry.now front.entry.now) }
        { share_among(rt, alloc, work, text, front, fewer, gate) },
        move || -> Result<W::Part, OutOfMemory>
            requires { IsSync R.row × All (LiesWithin text.now) back.now }
            ensures { IfOk result (W.makes work.entry.now text.entry.now back.entry.now) }
        { share_among(rt, alloc, work, text, back, others, gate) },
    );
    work.join(first?, second?)
}

/// Does a work on the lines of a batch by so many jobs. All lines are a part with all jobs and the number 0. A part with
/// two lines or more and two jobs or more is cut in two, each half rounded down: the first half of its lines has the
/// first half of its jobs and its number, and the other lines have the other jobs and the number that is greater by the
/// jobs before them. Every other part is done by one job, which passes the gate with the part's number before its first
/// line.
pub fn share<R: Threads + Sync, W: Work + Sync, G: Gate + Sync>(
    rt: &R,
    alloc: Global,
    work: &W,
    text: &[u8],
    marks: &[Mark],
    jobs: u32,
    gate: &G,
) -> Result<W::Part, OutOfMemory>
    requires jobs { (1 ≤ jobs) × (jobs ≤ most_jobs) }
    requires within { All (LiesWithin text.now) marks.now }
    ensures { IfOk result (W.makes work.now text.now marks.now) }
{
    let all = Jobs {
        first: 0,
        count: jobs,
    };
    share_among(rt, alloc, work, text, marks, all, gate)
}
