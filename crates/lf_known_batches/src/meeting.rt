//! Two jobs that meet at a gate: a batch whose parts are read one after another fails.

use crate::telling::read_text;
use lf_batch::Gate;
use lf_stream::{Mark, Sort};
use std::alloc::Global;
use std::sync::atomic::AtomicBool;
use std::sync::atomic::Ordering::SeqCst;
use std::test::Fail;
use std::thread::Threads;

/// How often a flag is read at most.
const MOST_READS: u32 = 1_000_000_000;

/// A gate where each of two jobs sets its flag, and one of them waits for the flag of the other.
#[derive(Drop)]
struct Meeting {
    /// The number of the job that waits.
    waiting: u32,
    first: AtomicBool,
    second: AtomicBool,
    have_met: AtomicBool,
}

impl Meeting {
    fn new(waiting: u32) -> Meeting {
        Meeting {
            waiting,
            first: AtomicBool::new(false),
            second: AtomicBool::new(false),
            have_met: AtomicBool::new(false),
        }
    }
}

/// Reads the flag until it is set. False where it isn't at any of the reads.
fn is_set(flag: &AtomicBool) -> bool {
    for _read in 0..MOST_READS {
        if flag.load(SeqCst) {
            return true;
        }
    }
    false
}

impl Gate for Meeting {
    fn pass(&self, job: u32) {
        let (own, other) = match job {
            0 => (&self.first, &self.second),
            _ => (&self.second, &self.first),
        };
        own.store(true, SeqCst);
        if job == self.waiting && is_set(other) {
            self.have_met.store(true, SeqCst);
        }
    }
}

/// Whether the job that waits meets the other, where two jobs read a line each.
fn meets<R: Threads + Sync>(rt: &R, alloc: Global, waiting: u32) -> Result<bool, Fail> {
    let gate = Meeting::new(waiting);
    let mark = Mark {
        number: 1,
        start: 0,
        len: 1,
        sort: Sort::Line,
    };
    read_text(rt, alloc, b"7", &[mark, mark], 2, &gate)?;
    Ok(gate.have_met.load(SeqCst))
}

#[test]
fn two_jobs_meet(rt: HostRuntime) -> Result<(), Fail> {
    assert!(rt; meets(&rt, rt.alloc(), 0)?, "the first job waits alone");
    assert!(rt; meets(&rt, rt.alloc(), 1)?, "the second job waits alone");
    Ok(())
}
