//! Sources and sinks, pulled and pushed by hand.

use lf_core::{Bytes, OutOfMemory};
use lf_io::{
    MemSink, MemSource, Pulled, Pushed, Put, Sink, Source, StdSink, StdSource, SureSink,
    SureSource, put_all,
};
use std::alloc::Global;
use std::io::{self, ErrorKind, Read, Write};
use std::test::Fail;

/// A stream that fails at every call.
#[derive(Drop)]
struct Broken;

impl Read for Broken {
    fn read(&mut self, _into: &mut [u8]) -> io::Result<usize> {
        Err(io::Error::from(ErrorKind::TimedOut))
    }
}

impl Write for Broken {
    fn write(&mut self, _piece: &[u8]) -> io::Result<usize> {
        Err(io::Error::from(ErrorKind::TimedOut))
    }

    fn flush(&mut self) -> io::Result<()> {
        Ok(())
    }
}

/// A stream that fails at its first call and works from then on.
#[derive(Drop)]
struct Faltering {
    has_failed: bool,
}

impl Faltering {
    fn new() -> Faltering {
        Faltering { has_failed: false }
    }
}

impl Read for Faltering {
    fn read(&mut self, into: &mut [u8]) -> io::Result<usize> {
        if !self.has_failed {
            self.has_failed = true;
            return Err(io::Error::from(ErrorKind::Interrupted));
        }
        Ok(into.len())
    }
}

impl Write for Faltering {
    fn write(&mut self, piece: &[u8]) -> io::Result<usize> {
        if !self.has_failed {
            self.has_failed = true;
            return Err(io::Error::from(ErrorKind::Interrupted));
        }
        Ok(piece.len())
    }

    fn flush(&mut self) -> io::Result<()> {
        Ok(())
    }
}

fn source_of(
    alloc: Global,
    text: &[u8],
    piece: usize,
    failing: &[u32],
) -> Result<MemSource, OutOfMemory> {
    let mut bytes = Bytes::new(alloc);
    bytes.extend(text)?;
    let failing = Vec::from_slice(alloc, failing)?;
    Ok(MemSource::new(bytes, piece.max(1), failing))
}

fn sink_of(
    alloc: Global,
    piece: usize,
    failing: &[u32],
    room: usize,
) -> Result<MemSink, OutOfMemory> {
    let failing = Vec::from_slice(alloc, failing)?;
    MemSink::new(alloc, piece.max(1), failing, room)
}

/// What six pulls of at most three bytes give: their sizes, with 0 for the end and 9 for a fault, and the bytes.
fn pull_six<S: Source>(
    source: &mut S,
    alloc: Global,
) -> Result<(Vec<usize>, Vec<u8>), OutOfMemory> {
    let mut sizes = Vec::new(alloc);
    let mut bytes = Vec::new(alloc);
    for _ in 0..6 {
        let mut into = [0; 3];
        match source.pull(&mut into) {
            Pulled::Took(count) => {
                sizes.push(count)?;
                bytes.extend_from_slice(into.split_at(count).0)?;
            }
            Pulled::End => sizes.push(0)?,
            Pulled::Failed => sizes.push(9)?,
        }
    }
    Ok((sizes, bytes))
}

#[test]
fn gives_a_text_by_pieces(rt: HostRuntime) -> Result<(), Fail> {
    let table: [(usize, &[usize]); 5] = [
        (1, &[1, 1, 1, 1, 1, 0]),
        (2, &[2, 2, 1, 0, 0, 0]),
        (3, &[3, 2, 0, 0, 0, 0]),
        (4, &[3, 2, 0, 0, 0, 0]),
        (5, &[3, 2, 0, 0, 0, 0]),
    ];
    for (piece, want) in table {
        let mut source = source_of(rt.alloc(), b"abcde", piece, &[])?;
        let (sizes, bytes) = pull_six(&mut source, rt.alloc())?;
        assert_eq!(rt; sizes.as_slice(), want, "pieces of {piece}");
        assert_eq!(rt; bytes.as_slice(), b"abcde".as_slice(), "pieces of {piece}");
        assert_eq!(rt; source.faults(), 0);
    }
    Ok(())
}

#[test]
fn fails_at_the_listed_pulls(rt: HostRuntime) -> Result<(), Fail> {
    let table: [(&[u32], &[usize], u64); 6] = [
        (&[0], &[9, 1, 1, 1, 0, 0], 1),
        (&[1], &[1, 9, 1, 1, 0, 0], 1),
        (&[2], &[1, 1, 9, 1, 0, 0], 1),
        (&[3], &[1, 1, 1, 9, 0, 0], 1),
        (&[0, 1, 3], &[9, 9, 1, 9, 1, 1], 3),
        (&[6, 7], &[1, 1, 1, 0, 0, 0], 0),
    ];
    for (failing, want, faults) in table {
        let mut source = source_of(rt.alloc(), b"abc", 1, failing)?;
        let (sizes, bytes) = pull_six(&mut source, rt.alloc())?;
        assert_eq!(rt; sizes.as_slice(), want, "failing {failing:?}");
        assert_eq!(rt; bytes.as_slice(), b"abc".as_slice(), "failing {failing:?}");
        assert_eq!(rt; source.faults(), faults, "failing {failing:?}");
    }
    Ok(())
}

#[test]
fn puts_by_pieces_and_stops_at_a_listed_push(rt: HostRuntime) -> Result<(), Fail> {
    let table: [(usize, &[u32], &[u8]); 10] = [
        (1, &[], b"abcde"),
        (2, &[], b"abcde"),
        (3, &[], b"abcde"),
        (4, &[], b"abcde"),
        (5, &[], b"abcde"),
        (2, &[0], b""),
        (2, &[1], b"ab"),
        (2, &[2], b"abcd"),
        (2, &[3], b"abcde"),
        (1, &[3], b"abc"),
    ];
    for (piece, failing, want) in table {
        let mut sink = sink_of(rt.alloc(), piece, failing, 5)?;
        let is_whole = want.len() == 5;
        let answer = if is_whole { Put::Done } else { Put::Failed };
        assert_eq!(rt; put_all(&mut sink, b"abcde"), answer, "{piece} {failing:?}");
        assert_eq!(rt; sink.got(), want, "{piece} {failing:?}");
        assert_eq!(rt; sink.faults(), u64::from(!is_whole), "{piece} {failing:?}");
    }
    Ok(())
}

#[test]
fn fills_the_room_and_takes_no_more(rt: HostRuntime) -> Result<(), Fail> {
    let mut sink = sink_of(rt.alloc(), 3, &[], 4)?;
    assert_eq!(rt; sink.push(b"abcde"), Pushed::Took(3));
    assert_eq!(rt; sink.push(b"de"), Pushed::Failed, "two more pass the room");
    assert_eq!(rt; sink.push(b"d"), Pushed::Took(1), "one more fills it");
    assert_eq!(rt; sink.push(b"e"), Pushed::Failed, "it is full");
    assert_eq!(rt; sink.got(), b"abcd".as_slice());
    assert_eq!(rt; sink.faults(), 2);
    let mut none = sink_of(rt.alloc(), 1, &[], 0)?;
    assert_eq!(rt; put_all(&mut none, b""), Put::Done);
    assert_eq!(rt; put_all(&mut none, b"a"), Put::Failed);
    Ok(())
}

#[test]
fn sure_streams_never_fail(rt: HostRuntime) -> Result<(), Fail> {
    let mut text = Bytes::new(rt.alloc());
    text.extend(b"abcde")?;
    let mut source = SureSource::new(text, 2);
    let (sizes, bytes) = pull_six(&mut source, rt.alloc())?;
    assert_eq!(rt; sizes.as_slice(), [2, 2, 1, 0, 0, 0].as_slice());
    assert_eq!(rt; bytes.as_slice(), b"abcde".as_slice());
    let mut sink = SureSink::new();
    assert_eq!(rt; sink.push(b"abcde"), Pushed::Took(5));
    assert_eq!(rt; put_all(&mut sink, b"abcde"), Put::Done);
    Ok(())
}

#[test]
fn reads_a_stream(rt: HostRuntime) -> Result<(), Fail> {
    let mut source = StdSource::new(b"abcde".as_slice());
    let (sizes, bytes) = pull_six(&mut source, rt.alloc())?;
    assert_eq!(rt; sizes.as_slice(), [3, 2, 0, 0, 0, 0].as_slice());
    assert_eq!(rt; bytes.as_slice(), b"abcde".as_slice());
    assert_eq!(rt; source.faults(), 0);
    let mut broken = StdSource::new(Broken);
    let (failures, _) = pull_six(&mut broken, rt.alloc())?;
    assert_eq!(rt; failures.as_slice(), [9; 6].as_slice());
    assert_eq!(rt; broken.faults(), 6);
    Ok(())
}

#[test]
fn writes_a_stream(rt: HostRuntime) -> Result<(), Fail> {
    let mut bytes = Vec::new(rt.alloc());
    let mut sink = StdSink::new(&mut bytes);
    assert_eq!(rt; put_all(&mut sink, b"abcde"), Put::Done);
    assert_eq!(rt; sink.faults(), 0);
    assert_eq!(rt; bytes.as_slice(), b"abcde".as_slice());
    let mut three = [0; 3];
    let mut short = StdSink::new(three.as_mut_slice());
    assert_eq!(rt; short.push(b"abcde"), Pushed::Took(3));
    assert_eq!(rt; short.push(b"de"), Pushed::Failed, "it writes nothing");
    assert_eq!(rt; short.faults(), 1);
    let mut broken = StdSink::new(Broken);
    assert_eq!(rt; put_all(&mut broken, b"a"), Put::Failed);
    assert_eq!(rt; broken.faults(), 1);
    Ok(())
}

#[test]
fn tells_a_fault_that_passes(rt: HostRuntime) -> Result<(), Fail> {
    let mut source = StdSource::new(Faltering::new());
    let (sizes, _) = pull_six(&mut source, rt.alloc())?;
    assert_eq!(rt; sizes.as_slice(), [9, 3, 3, 3, 3, 3].as_slice());
    assert_eq!(rt; source.faults(), 1);
    let mut sink = StdSink::new(Faltering::new());
    assert_eq!(rt; sink.push(b"abc"), Pushed::Failed);
    assert_eq!(rt; sink.faults(), 1);
    assert_eq!(rt; sink.push(b"abc"), Pushed::Took(3));
    assert_eq!(rt; sink.faults(), 1);
    let mut put = StdSink::new(Faltering::new());
    assert_eq!(rt; put_all(&mut put, b"abc"), Put::Failed);
    Ok(())
}

fn shared<T: Send + Sync>(_value: &T) {}

#[test]
fn can_be_shared(rt: HostRuntime) -> Result<(), Fail> {
    shared(&source_of(rt.alloc(), b"a", 1, &[])?);
    shared(&sink_of(rt.alloc(), 1, &[], 1)?);
    shared(&SureSource::new(Bytes::new(rt.alloc()), 1));
    shared(&SureSink::new());
    shared(&StdSource::new(b"a".as_slice()));
    shared(&StdSink::new(Broken));
    shared(&(Pulled::End, Pushed::Failed, Put::Done));
    Ok(())
}
