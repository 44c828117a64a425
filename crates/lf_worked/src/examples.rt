//! Runs of command lines, and what is expected of them.
use lf_app::{IdleGate, run};
use lf_core::{Bytes, OutOfMemory, Str};
use lf_io::{MemSink, MemSource};
use std::alloc::Global;
use std::test::Fail;
use std::thread::Threads;

/// How many bytes the source gives and the sinks take at a time, and the numbers of their failing calls.
#[derive(Clone, Copy)]
pub(crate) struct Streams<'a> {
    pub(crate) piece: usize,
    pub(crate) input: &'a [u32],
    pub(crate) taken: usize,
    pub(crate) out: &'a [u32],
    pub(crate) err: &'a [u32],
}

pub(crate) const SOUND: Streams<'static> = Streams {
    piece: 100,
    input: &[],
    taken: 100,
    out: &[],
    err: &[],
};

/// What a run answers and writes.
#[derive(Drop)]
pub(crate) struct Seen {
    pub(crate) status: u8,
    pub(crate) out: Vec<u8>,
    pub(crate) err: Vec<u8>,
}

/// The words of a text, one a line.
fn words_of(alloc: Global, text: &str) -> Result<Vec<Str>, OutOfMemory> {
    let mut words = Vec::new(alloc);
    for word in text.split('\n') {
        words.push(Str::of(alloc, word)?)?;
    }
    Ok(words)
}

pub(crate) fn run_bytes<R: Threads + Sync>(
    rt: &R,
    alloc: Global,
    words: &[Str],
    bytes: Bytes,
    streams: Streams<'_>,
) -> Result<Seen, OutOfMemory> {
    let room = bytes.len().saturating_add(4096);
    let taken = streams.taken.max(1);
    let mut input = MemSource::new(
        bytes,
        streams.piece.max(1),
        Vec::from_slice(alloc, streams.input)?,
    );
    let mut out = MemSink::new(alloc, taken, Vec::from_slice(alloc, streams.out)?, room)?;
    let mut err = MemSink::new(alloc, taken, Vec::from_slice(alloc, streams.err)?, room)?;
    let status = run(rt, alloc, words, &mut input, &mut out, &mut err, &IdleGate);
    Ok(Seen {
        status: status.0,
        out: Vec::from_slice(alloc, out.got())?,
        err: Vec::from_slice(alloc, err.got())?,
    })
}

/// What a run of these words, one a line, answers and writes.
pub(crate) fn run_text<R: Threads + Sync>(
    rt: &R,
    alloc: Global,
    words: &str,
    input: &str,
    streams: Streams<'_>,
) -> Result<Seen, OutOfMemory> {
    let words = words_of(alloc, words)?;
    let mut bytes = Bytes::new(alloc);
    bytes.extend(input.as_bytes())?;
    run_bytes(rt, alloc, words.as_slice(), bytes, streams)
}

/// What differs from what is expected.
pub(crate) fn expect(seen: &Seen, status: u8, out: &str, err: &str) -> Result<(), &'static str> {
    if seen.status != status {
        return Err("another status");
    }
    if seen.out.as_slice() != out.as_bytes() {
        return Err("another text on out");
    }
    if seen.err.as_slice() != err.as_bytes() {
        return Err("another text on err");
    }
    Ok(())
}

/// A run of these words, one a line, has this status and these texts, however its input is cut.
pub(crate) fn example<R: Threads + Sync>(
    rt: &R,
    alloc: Global,
    words: &str,
    input: &str,
    status: u8,
    out: &str,
    err: &str,
) -> Result<(), Fail> {
    for piece in [1, 2, 3, 100] {
        let streams = Streams {
            piece,
            taken: piece,
            ..SOUND
        };
        let Ok(seen) = run_text(rt, alloc, words, input, streams) else {
            return Err(Fail::new("out of memory"));
        };
        if let Err(what) = expect(&seen, status, out, err) {
            return Err(Fail::new(what));
        }
    }
    Ok(())
}
