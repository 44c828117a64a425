//! The verdicts of a batch, as texts.

ghost use Rattle.std.specs.Prelude.{All, IsTrue};
ghost use Rattle.lf_batch.specs.Within.{LiesWithin};

use lf_batch::{Found, Gate, Verdict, read_batch};
use lf_compile::{Reader, compile};
use lf_core::Value;
use lf_fronts::parse;
use lf_limits::MOST_JOBS;
use lf_stream::Mark;
use lf_words::Front;
use std::alloc::{AllocError, Global};
use std::test::Fail;
use std::thread::Threads;

/// The reader of lines that are numbers.
pub(crate) fn number_reader(alloc: Global) -> Result<Reader, Fail> {
    let format = parse(alloc, Front::Apache, "%B").ok().ok_or("no format")?;
    Ok(compile(alloc, format).ok().ok_or("not readable")?)
}

/// Whether the line of each mark stands within the text.
fn are_within(text: &[u8], marks: &[Mark]) -> bool
    ensures { IsTrue result → All (LiesWithin text.now) marks.now }
{
    marks.iter().all(|mark| mark.start as usize + mark.len as usize <= text.len())
}

/// What is found of a line of numbers.
fn found_text(alloc: Global, found: &Found) -> Result<String, AllocError> {
    let Found::Rec(record) = found else {
        return format!(in alloc; "{found:?}");
    };
    match record.as_slice() {
        [Value::Num(number)] => format!(in alloc; "{number}"),
        _ => format!(in alloc; "no number"),
    }
}

/// The verdicts, each with its number.
fn verdicts_text(alloc: Global, verdicts: &[Verdict]) -> Result<String, AllocError> {
    let mut all = String::new(alloc);
    for verdict in verdicts {
        let number = verdict.number;
        let found = found_text(alloc, &verdict.found)?;
        all.push_str(&format!(in alloc; "{number} {found};")?)?;
    }
    Ok(all)
}

/// The verdicts of the marks as a text, read by so many jobs.
pub(crate) fn read_text<R: Threads + Sync, G: Gate + Sync>(
    rt: &R,
    alloc: Global,
    text: &[u8],
    marks: &[Mark],
    jobs: u32,
    gate: &G,
) -> Result<String, Fail> {
    if jobs < 1 || MOST_JOBS < jobs || !are_within(text, marks) {
        return Err("no batch".into());
    }
    let reader = number_reader(alloc)?;
    let verdicts = read_batch(rt, alloc, &reader, text, marks, jobs, gate)?;
    Ok(verdicts_text(alloc, &verdicts)?)
}
