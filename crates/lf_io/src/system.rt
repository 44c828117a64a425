//! Streams of the system as sources and sinks.

ghost use Rattle.std.specs.Prelude.{◌≡◌, ◌<◌, None, length};
ghost use Rattle.lf_io.specs.Faults.{HasCause};
ghost use Rattle.lf_io.specs.Steps.{Pulls, Pushes};
ghost use Rattle.lf_io.specs.SystemStreams.{reader, source_faults, faults_after_pull, Reads};
ghost use Rattle.lf_io.specs.SystemStreams.{writer, sink_faults, faults_after_push, Writes};

use crate::sink::{Pushed, Sink};
use crate::source::{Pulled, Source};
use std::io::{Read, Write};

/// A stream of the system as a source. It tells no bytes.
#[derive(Drop)]
pub struct StdSource<R> {
    from: R,
    faults: u64,
}

impl<R: Read> StdSource<R> {
    /// The stream as a source, with no fault counted.
    pub fn new(from: R) -> StdSource<R>
        ensures reader { reader result ≡ from }
        ensures faults { source_faults result ≡ 0 }
    {
        StdSource { from, faults: 0 }
    }

    /// The count of faults.
    pub fn faults(&self) -> u64
        ensures { result ≡ source_faults self.now }
    {
        self.faults
    }
}

impl<R: Read> Source for StdSource<R> {
    ghost left = { λ _. None };

    ghost faults = { λ s. source_faults s };

    fn pull(&mut self, into: &mut [u8]) -> Pulled
        requires { 0 < length into.old }
        ensures bytes { Pulls None None into.new result }
        ensures faults { HasCause (source_faults self.old) (source_faults self.new) (result ≡ Pulled.Failed) }
        ensures count { source_faults self.new ≡ faults_after_pull (source_faults self.old) result }
        ensures reads { Reads (R.remaining (reader self.old)) (R.remaining (reader self.new)) into.new result }
    {
        match self.from.read(into) {
            Ok(0) => Pulled::End,
            Ok(count) => Pulled::Took(count),
            Err(_) => {
                self.faults = self.faults.saturating_add(1);
                Pulled::Failed
            }
        }
    }
}

/// A stream of the system as a sink. It tells no bytes. A write that takes nothing is a fault.
#[derive(Drop)]
pub struct StdSink<W> {
    to: W,
    faults: u64,
}

impl<W: Write> StdSink<W> {
    /// The stream as a sink, with no fault counted.
    pub fn new(to: W) -> StdSink<W>
        ensures writer { writer result ≡ to }
        ensures faults { sink_faults result ≡ 0 }
    {
        StdSink { to, faults: 0 }
    }

    /// The count of faults.
    pub fn faults(&self) -> u64
        ensures { result ≡ sink_faults self.now }
    {
        self.faults
    }
}

impl<W: Write> Sink for StdSink<W> {
    ghost got = { λ _. None };

    ghost faults = { λ s. sink_faults s };

    fn push(&mut self, piece: &[u8]) -> Pushed
        requires { 0 < length piece.now }
        ensures bytes { Pushes None None piece.now result }
        ensures faults { HasCause (sink_faults self.old) (sink_faults self.new) (result ≡ Pushed.Failed) }
        ensures count { sink_faults self.new ≡ faults_after_push (sink_faults self.old) result }
        ensures writes { Writes (W.contents (writer self.old)) (W.contents (writer self.new)) piece.now result }
    {
        match self.to.write(piece) {
            Ok(count) if count > 0 => Pushed::Took(count),
            _ => {
                self.faults = self.faults.saturating_add(1);
                Pushed::Failed
            }
        }
    }
}
