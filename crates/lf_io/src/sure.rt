//! A source and a sink of which no call fails.

ghost use Rattle.std.specs.Prelude.{◌≡◌, ◌<◌, ◌≤◌, Some, None, length};
ghost use Rattle.lf_io.specs.Faults.{HasCause};
ghost use Rattle.lf_io.specs.Steps.{Pulls, Pushes};
ghost use Rattle.lf_io.specs.SureText.{Gives, after_giving};

use crate::sink::{Pushed, Sink};
use crate::source::{Pulled, Source};
use lf_core::Bytes;
use std::marker::Model;

/// A text in memory as a source of which no call fails. It gives at most `piece` bytes at a time.
#[derive(Drop)]
pub struct SureSource {
    text: Bytes,
    at: usize,
    piece: usize,
}

impl Model for SureSource {
    ghost use Rattle.std.specs.Prelude.{◌≤◌, drop, length};
    ghost use Rattle.lf_io.specs.SureText.{SureText};

    ghost Value = { SureText };

    ghost view = { λ s. record { left = drop s.at s.text; piece = s.piece } };

    ghost invariant = { λ s. (s.at ≤ length s.text) × (1 ≤ s.piece) };
}

impl SureSource {
    /// The text as a source, all of it still to come.
    pub fn new(text: Bytes, piece: usize) -> SureSource
        requires { 1 ≤ piece }
        ensures { result ≡ record { left = text; piece = piece } }
    {
        SureSource { text, at: 0, piece }
    }
}

impl Source for SureSource {
    ghost left = { λ s. Some s.left };

    ghost faults = { λ _. 0 };

    fn pull(&mut self, into: &mut [u8]) -> Pulled
        requires { 0 < length into.old }
        ensures bytes { Pulls (Some self.old.left) (Some self.new.left) into.new result }
        ensures faults { HasCause 0 0 (result ≡ Pulled.Failed) }
        ensures answer { Gives self.old (length into.old) result }
        ensures after { self.new ≡ after_giving self.old result }
    {
        let rest = self.text.as_slice().split_at(self.at).1;
        let count = rest.len().min(self.piece).min(into.len());
        if count == 0 {
            return Pulled::End;
        }
        into[..count].copy_from_slice(&rest[..count]);
        self.at += count;
        Pulled::Took(count)
    }
}

/// A sink that drops every piece that it takes. No call fails.
#[derive(Drop)]
pub struct SureSink;

impl SureSink {
    /// The sink, which tells no bytes.
    pub fn new() -> SureSink
        ensures got { ⟦<SureSink as Sink>⟧.got result ≡ None }
        ensures faults { ⟦<SureSink as Sink>⟧.faults result ≡ 0 }
    {
        SureSink
    }
}

impl Sink for SureSink {
    ghost got = { λ _. None };

    ghost faults = { λ _. 0 };

    fn push(&mut self, piece: &[u8]) -> Pushed
        requires { 0 < length piece.now }
        ensures bytes { Pushes None None piece.now result }
        ensures faults { HasCause 0 0 (result ≡ Pushed.Failed) }
        ensures whole { result ≡ Pushed.Took (length piece.now) }
    {
        Pushed::Took(piece.len())
    }
}
