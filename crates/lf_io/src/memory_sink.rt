//! A list in memory as a sink that fails at listed calls.

ghost use Rattle.std.specs.Prelude.{◌≡◌, ◌<◌, ◌≤◌, [], Some, IfOk, length};
ghost use Rattle.lf_io.specs.Faults.{HasCause};
ghost use Rattle.lf_io.specs.Steps.{Pushes};
ghost use Rattle.lf_io.specs.MemorySink.{Answers, after_push};

use crate::listed::is_listed;
use crate::sink::{Pushed, Sink};
use lf_core::OutOfMemory;
use std::alloc::Global;
use std::marker::Model;

/// A list in memory as a sink. It takes at most `piece` bytes at a time and holds at most `room`, and the calls of
/// the numbers in `failing`, counted from 0, fail.
#[derive(Drop)]
pub struct MemSink {
    got: Vec<u8>,
    piece: usize,
    failing: Vec<u32>,
    room: usize,
    calls: u64,
    faults: u64,
}

impl Model for MemSink {
    ghost use Rattle.std.specs.Prelude.{◌≤◌, length, vec_capacity};
    ghost use Rattle.lf_io.specs.MemorySink.{MemorySink};

    ghost Value = { MemorySink };

    ghost view = { λ s. record {
      got = s.got.items;
      piece = s.piece;
      failing = s.failing.items;
      room = s.room;
      calls = s.calls;
      faults = s.faults;
    } };

    // The memory for all of the room is there from the beginning.
    ghost invariant = { λ s. (1 ≤ s.piece) × (length s.got.items ≤ s.room) × (s.room ≤ vec_capacity s.got) };
}

impl MemSink {
    /// Takes the memory for `room` bytes, and no push takes any.
    pub fn new(
        alloc: Global,
        piece: usize,
        failing: Vec<u32>,
        room: usize,
    ) -> Result<MemSink, OutOfMemory>
        requires { 1 ≤ piece }
        ensures { IfOk result (λ s. s ≡ record {
          got = [];
          piece = piece;
          failing = failing.items;
          room = room;
          calls = 0;
          faults = 0;
        }) }
    {
        Ok(MemSink {
            got: Vec::with_capacity(alloc, room)?,
            piece,
            failing,
            room,
            calls: 0,
            faults: 0,
        })
    }

    /// The bytes so far.
    pub fn got(&self) -> &[u8]
        ensures { result.now ≡ self.now.got }
    {
        self.got.as_slice()
    }

    /// The count of faults.
    pub fn faults(&self) -> u64
        ensures { result ≡ self.now.faults }
    {
        self.faults
    }

    /// Counts a call that fails.
    fn fail(&mut self) -> Pushed
        ensures failed { result ≡ Pushed.Failed }
        ensures after { self.new ≡ after_push self.old [] Pushed.Failed }
    {
        self.calls = self.calls.saturating_add(1);
        self.faults = self.faults.saturating_add(1);
        Pushed::Failed
    }
}

impl Sink for MemSink {
    ghost got = { λ s. Some s.got };

    ghost faults = { λ s. s.faults };

    fn push(&mut self, piece: &[u8]) -> Pushed
        requires { 0 < length piece.now }
        ensures bytes { Pushes (Some self.old.got) (Some self.new.got) piece.now result }
        ensures faults { HasCause self.old.faults self.new.faults (result ≡ Pushed.Failed) }
        ensures answer { Answers self.old (length piece.now) result }
        ensures after { self.new ≡ after_push self.old piece.now result }
    {
        if is_listed(&self.failing, self.calls) {
            return self.fail();
        }
        let count = piece.len().min(self.piece);
        if self.room - self.got.len() < count {
            return self.fail();
        }
        self.calls = self.calls.saturating_add(1);
        let Ok(()) = self.got.extend_from_slice(piece.split_at(count).0) else {
            // The memory is there, so this never comes.
            return Pushed::Failed;
        };
        Pushed::Took(count)
    }
}
