//! A text in memory as a source that fails at listed calls.

ghost use Rattle.std.specs.Prelude.{◌≡◌, ◌<◌, ◌≤◌, Some, length};
ghost use Rattle.lf_io.specs.Faults.{HasCause};
ghost use Rattle.lf_io.specs.Steps.{Pulls};
ghost use Rattle.lf_io.specs.MemorySource.{Answers, after_pull};

use crate::listed::is_listed;
use crate::source::{Pulled, Source};
use crate::sure::SureSource;
use lf_core::Bytes;
use std::marker::Model;

/// A text in memory as a source. It gives at most `piece` bytes at a time, and the calls of the numbers in `failing`,
/// counted from 0, fail.
#[derive(Drop)]
pub struct MemSource {
    text: SureSource,
    failing: Vec<u32>,
    calls: u64,
    faults: u64,
}

impl Model for MemSource {
    ghost use Rattle.lf_io.specs.MemorySource.{MemorySource};

    ghost Value = { MemorySource };

    ghost view = { λ s. record { text = s.text; failing = s.failing.items; calls = s.calls; faults = s.faults } };
}

impl MemSource {
    /// The text as a source, before its first call.
    pub fn new(text: Bytes, piece: usize, failing: Vec<u32>) -> MemSource
        requires { 1 ≤ piece }
        ensures { result ≡ record {
          text = record { left = text; piece = piece };
          failing = failing.items;
          calls = 0;
          faults = 0;
        } }
    {
        MemSource {
            text: SureSource::new(text, piece),
            failing,
            calls: 0,
            faults: 0,
        }
    }

    /// The count of faults.
    pub fn faults(&self) -> u64
        ensures { result ≡ self.now.faults }
    {
        self.faults
    }
}

impl Source for MemSource {
    ghost left = { λ s. Some s.text.left };

    ghost faults = { λ s. s.faults };

    fn pull(&mut self, into: &mut [u8]) -> Pulled
        requires { 0 < length into.old }
        ensures bytes { Pulls (Some self.old.text.left) (Some self.new.text.left) into.new result }
        ensures faults { HasCause self.old.faults self.new.faults (result ≡ Pulled.Failed) }
        ensures answer { Answers self.old (length into.old) result }
        ensures after { self.new ≡ after_pull self.old result }
    {
        let call = self.calls;
        self.calls = self.calls.saturating_add(1);
        if is_listed(&self.failing, call) {
            self.faults = self.faults.saturating_add(1);
            return Pulled::Failed;
        }
        self.text.pull(into)
    }
}
